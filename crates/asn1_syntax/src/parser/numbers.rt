//! Numbers, and names that stand for numbers.

use super::{Parser, refused, unsupported};
use crate::endpoint::Endpoint;
use crate::failure::Failure;
use crate::item::Item;
use crate::item_kind::ItemKind;
use crate::named_number::NamedNumber;
use crate::type_node::Mark;

const TOO_LARGE: &str = "a number below 18446744073709551616";

impl<'a> Parser<'a> {
    /// Parses a number without a sign.
    pub(super) fn number(&mut self) -> Result<u64, Failure<'a>> {
        let item = self.expect_kind(ItemKind::Number, "a number")?;
        match item.text.parse::<u64>() {
            Ok(number) => Ok(number),
            Err(_) => Err(refused(item, TOO_LARGE)),
        }
    }

    /// Parses the number of a tag: a number, or the name of a value that is a number.
    pub(super) fn tag_number(&mut self) -> Result<u64, Failure<'a>> {
        let item = self.peek();
        if item.kind != ItemKind::LowerName {
            return self.number();
        }
        let Some(place) = self.find(item.text) else {
            return self.number();
        };
        self.at = self.at.saturating_add(1);
        let at = if place.is_argument {
            self.after_parameters(place).at
        } else {
            place.at.saturating_add(3)
        };
        match self.item_at(at).text.parse::<u64>() {
            Ok(number) => Ok(number),
            Err(_) => Err(unsupported(item, "a number, or the name of one")),
        }
    }

    /// Parses a number or one end of a range. Both may be given by a name.
    pub(super) fn endpoint(&mut self) -> Result<Endpoint<'a>, Failure<'a>> {
        if self.takes("MIN") {
            return Ok(Endpoint::Min);
        }
        if self.takes("MAX") {
            return Ok(Endpoint::Max);
        }
        if self.takes("-") {
            return Ok(Endpoint::Negative(self.number()?));
        }
        let item = self.peek();
        if item.kind == ItemKind::LowerName {
            self.at = self.at.saturating_add(1);
            return self.named_endpoint(item);
        }
        if item.kind != ItemKind::Number {
            return Err(refused(item, "a number, or the name of one"));
        }
        Ok(Endpoint::Number(self.number()?))
    }

    // The number for which a name stands: an argument, or a value.
    fn named_endpoint(&mut self, item: Item<'a>) -> Result<Endpoint<'a>, Failure<'a>> {
        let argument = match self.find(item.text) {
            Some(place) if place.is_argument => self.after_parameters(place),
            _ => return Ok(Endpoint::Name(self.own_name(item)?)),
        };
        let of = Item {
            offset: item.offset,
            ..self.item_at(argument.at)
        };
        match of.kind {
            ItemKind::LowerName => Ok(Endpoint::Name(self.own_name_at(argument.frame, of)?)),
            ItemKind::UpperName if of.text == "MAX" => Ok(Endpoint::Max),
            ItemKind::UpperName if of.text == "MIN" => Ok(Endpoint::Min),
            _ => match of.text.parse::<u64>() {
                Ok(number) => Ok(Endpoint::Number(number)),
                Err(_) => Err(unsupported(item, "a number, or the name of one")),
            },
        }
    }

    /// Parses the named numbers or the named bits of a type: braces with names and their numbers.
    pub(super) fn named_numbers(&mut self) -> Result<Vec<NamedNumber<'a>>, Failure<'a>> {
        self.expect("{")?;
        let mut numbers = Vec::new(self.alloc);
        for _ in 0..self.items.len() {
            numbers.push(self.named_number(false)?)?;
            if !self.takes(",") {
                break;
            }
        }
        self.expect("}")?;
        Ok(numbers)
    }

    /// Parses the items of an ENUMERATED in braces. `mark` is set to the extension marker if there
    /// is one.
    pub(super) fn enumeration_items(
        &mut self,
        mark: &mut Option<Mark<'a>>,
    ) -> Result<Vec<NamedNumber<'a>>, Failure<'a>> {
        self.expect("{")?;
        let mut items = Vec::new(self.alloc);
        for _ in 0..self.items.len() {
            if self.sees("...") && mark.is_none() && !items.is_empty() {
                *mark = Some(Mark {
                    item: self.next(),
                    insertion: 0,
                });
            } else {
                items.push(self.named_number(mark.is_some())?)?;
            }
            if !self.takes(",") {
                break;
            }
        }
        self.expect("}")?;
        Ok(items)
    }

    fn named_number(&mut self, is_addition: bool) -> Result<NamedNumber<'a>, Failure<'a>> {
        let name = self.expect_kind(ItemKind::LowerName, "the name of a number")?;
        if !self.takes("(") {
            return Ok(NamedNumber {
                name,
                number: None,
                is_addition,
            });
        }
        let number = self.endpoint()?;
        self.expect(")")?;
        Ok(NamedNumber {
            name,
            number: Some(number),
            is_addition,
        })
    }
}
