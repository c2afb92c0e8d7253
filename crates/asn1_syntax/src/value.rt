//! Values of the notation.

use crate::item::Item;
use crate::item_kind::ItemKind;
use crate::simple_type::SimpleType;
use crate::type_node::TypeForm;

/// A value, as it is written.
#[derive(Drop)]
pub struct Value<'a> {
    /// The first lexical item of the value.
    pub item: Item<'a>,
    /// How the value is written.
    pub form: ValueForm<'a>,
}

/// How a value is written.
#[derive(Drop)]
pub enum ValueForm<'a> {
    /// The value is one lexical item: a number, a name, a string, `TRUE`, `FALSE` or `NULL`.
    Item,
    /// The value is a minus sign and this number.
    Negative(u64),
    /// The value is a pair of braces with these lexical items in between.
    Braces(Vec<Item<'a>>),
    /// The value has another form. The parser skips the value.
    Unread,
}

impl<'a> Value<'a> {
    /// Whether values of a type of this `form` can be written in the way of this value. The
    /// following cases are not checked here:
    ///
    /// - The answer is true if the parser skips the value.
    /// - The answer is true if the type is ANY, or [`SimpleType::Unknown`].
    /// - The answer is false for numbers, TRUE and FALSE, for an OBJECT IDENTIFIER, and for the
    ///   name of a value. The caller must check these.
    pub fn is_written_for(&self, form: &TypeForm<'a>) -> bool {
        match (&self.form, form) {
            (_, TypeForm::Simple(SimpleType::Any | SimpleType::Unknown(_))) => true,
            (ValueForm::Unread, _) => true,
            (ValueForm::Negative(_), _) => false,
            (ValueForm::Braces(_), TypeForm::Sequence(_) | TypeForm::BitString(_)) => true,
            (ValueForm::Braces(_), TypeForm::Set(_)) => true,
            (ValueForm::Braces(_), TypeForm::SequenceOf(_) | TypeForm::SetOf(_)) => true,
            (ValueForm::Braces(_), TypeForm::Simple(simple)) => simple.is_text(),
            (ValueForm::Braces(_), _) => false,
            (ValueForm::Item, _) => is_item_for(self.item, form),
        }
    }
}

// Whether values of a type that is made so are written like this item.
fn is_item_for(item: Item<'_>, form: &TypeForm<'_>) -> bool {
    match (item.kind, form) {
        (ItemKind::LowerName, TypeForm::Enumerated(_)) => true,
        (ItemKind::UpperName, TypeForm::Simple(SimpleType::Null)) => item.text == "NULL",
        (ItemKind::BinaryString | ItemKind::HexString, TypeForm::BitString(_)) => true,
        (ItemKind::BinaryString | ItemKind::HexString, TypeForm::Simple(SimpleType::OctetString)) =>
            true,
        (ItemKind::CharacterString, TypeForm::Simple(simple)) => simple.is_text(),
        _ => false,
    }
}
