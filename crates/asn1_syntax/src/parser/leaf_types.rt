//! Types that are not made of other types, and references.

use super::{Parser, refused, unsupported};
use crate::failure::Failure;
use crate::item::Item;
use crate::item_kind::ItemKind;
use crate::reserved::is_reserved;
use crate::simple_type::SimpleType;
use crate::type_node::{Mark, TypeForm};

impl<'a> Parser<'a> {
    /// Parses a built-in type that is not made of other types, or a reference to a type. `item` is
    /// the first lexical item of the type; the parser is already past this item. `mark` is set to
    /// the extension marker of an ENUMERATED that has one.
    pub(super) fn leaf(
        &mut self,
        item: Item<'a>,
        mark: &mut Option<Mark<'a>>,
    ) -> Result<TypeForm<'a>, Failure<'a>> {
        if let Some(simple) = self.field_type.take() {
            return Ok(TypeForm::Simple(simple));
        }
        if item.kind != ItemKind::UpperName {
            return Err(refused(item, "a type"));
        }
        match item.text {
            "INTEGER" if self.sees("{") => Ok(TypeForm::Integer(self.named_numbers()?)),
            "INTEGER" => Ok(TypeForm::Integer(Vec::new(self.alloc))),
            "ENUMERATED" => Ok(TypeForm::Enumerated(self.enumeration_items(mark)?)),
            "BIT" => self.bit_string(),
            "OCTET" => self.after_word("STRING", SimpleType::OctetString),
            "OBJECT" => self.after_word("IDENTIFIER", SimpleType::ObjectIdentifier),
            "ANY" => self.any(),
            "EMBEDDED" => self.after_word("PDV", SimpleType::Unknown(11)),
            "CHARACTER" => self.after_word("STRING", SimpleType::Unknown(29)),
            "INSTANCE" => self.instance(),
            word => match SimpleType::of(word) {
                Some(simple) => Ok(TypeForm::Simple(simple)),
                None => self.reference(item),
            },
        }
    }

    // Moves past the second word of a type of two words.
    fn after_word(
        &mut self,
        word: &'static str,
        simple: SimpleType,
    ) -> Result<TypeForm<'a>, Failure<'a>> {
        self.expect(word)?;
        Ok(TypeForm::Simple(simple))
    }

    // Moves past the `OF` of an INSTANCE OF, and the class after it.
    fn instance(&mut self) -> Result<TypeForm<'a>, Failure<'a>> {
        let form = self.after_word("OF", SimpleType::Unknown(8))?;
        self.at = self.at.saturating_add(1);
        Ok(form)
    }

    fn bit_string(&mut self) -> Result<TypeForm<'a>, Failure<'a>> {
        self.expect("STRING")?;
        if self.sees("{") {
            return Ok(TypeForm::BitString(self.named_numbers()?));
        }
        Ok(TypeForm::BitString(Vec::new(self.alloc)))
    }

    fn any(&mut self) -> Result<TypeForm<'a>, Failure<'a>> {
        if self.takes("DEFINED") {
            self.expect("BY")?;
            let name = self.expect_kind(ItemKind::LowerName, "the name of a component")?;
            self.defined_by.push(name)?;
        }
        Ok(TypeForm::Simple(SimpleType::Any))
    }

    fn reference(&mut self, item: Item<'a>) -> Result<TypeForm<'a>, Failure<'a>> {
        match item.text {
            _ if self.is_class_name(item) => {
                Err(unsupported(item, "no class, which stands for no type"))
            }
            word if is_reserved(word) => Err(refused(item, "a type")),
            _ if self.sees("{") => {
                Err(unsupported(item, "a type with parameters of a module that is given"))
            }
            _ => Ok(TypeForm::Reference),
        }
    }
}
