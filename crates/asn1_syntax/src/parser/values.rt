//! Values.

use super::{Parser, refused, unsupported};
use crate::failure::Failure;
use crate::item::Item;
use crate::item_kind::ItemKind;
use crate::value::{Value, ValueForm};

impl<'a> Parser<'a> {
    /// Parses a value.
    pub(super) fn value(&mut self) -> Result<Value<'a>, Failure<'a>> {
        let item = self.peek();
        if item.is("{") {
            let form = ValueForm::Braces(self.named_items()?);
            return Ok(Value { item, form });
        }
        if self.is_unread_value(item) {
            return self.unread_value(item);
        }
        if self.takes("-") {
            let form = ValueForm::Negative(self.number()?);
            return Ok(Value { item, form });
        }
        match item.kind {
            ItemKind::Symbol | ItemKind::End => Err(refused(item, "a value")),
            _ => {
                self.at = self.at.saturating_add(1);
                self.item_value(item)
            }
        }
    }

    // Whether a value of more than one item begins with this one.
    fn is_unread_value(&self, item: Item<'a>) -> bool {
        let after = self.peek_second();
        let is_open = after.is("{") || after.kind == ItemKind::Number;
        after.is_one_of(&[":", "."])
            || (item.is("-") && self.has_at(self.at.saturating_add(2), "."))
            || (item.kind == ItemKind::LowerName && is_open)
    }

    // The value that is this item, or for which it stands as a parameter.
    fn item_value(&mut self, item: Item<'a>) -> Result<Value<'a>, Failure<'a>> {
        let form = ValueForm::Item;
        if item.kind != ItemKind::LowerName {
            return Ok(Value { item, form });
        }
        let argument = match self.find(item.text) {
            Some(place) if place.is_argument => self.after_parameters(place),
            _ => {
                let item = self.own_name(item)?;
                return Ok(Value { item, form });
            }
        };
        let of = Item {
            offset: item.offset,
            ..self.item_at(argument.at)
        };
        if of.kind == ItemKind::Symbol {
            let form = ValueForm::Unread;
            return Ok(Value { item: of, form });
        }
        let item = self.own_name_at(argument.frame, of)?;
        Ok(Value { item, form })
    }

    // Moves past a value in another form: an alternative of a CHOICE, a real number, or a name with
    // that of its module.
    fn unread_value(&mut self, item: Item<'a>) -> Result<Value<'a>, Failure<'a>> {
        let form = ValueForm::Unread;
        for _ in 0..self.items.len() {
            let after = self.peek_second();
            if self.sees("-")
                || self.is_unread_value(self.peek()) && !after.is_one_of(&[":", "."])
            {
                self.at = self.at.saturating_add(1);
            } else if after.is_one_of(&[":", "."]) {
                self.at = self.at.saturating_add(2);
            } else {
                break;
            }
        }
        if self.sees("{") {
            self.braces()?;
        } else if self.peek().kind == ItemKind::Symbol || self.peek().kind == ItemKind::End {
            return Err(unsupported(self.peek(), "a value"));
        } else {
            self.at = self.at.saturating_add(1);
        }
        Ok(Value { item, form })
    }

    // Moves past braces, and returns the items between them, with the names of values that no other
    // module has.
    fn named_items(&mut self) -> Result<Vec<Item<'a>>, Failure<'a>> {
        let mut found = Vec::new(self.alloc);
        let between = self.braces()?;
        for item in between.iter() {
            if item.kind == ItemKind::LowerName {
                found.push(self.own_name(*item)?)?;
            } else {
                found.push(*item)?;
            }
        }
        Ok(found)
    }

    /// Moves past an opening brace and the brace that closes it. Returns the lexical items between
    /// them.
    pub(super) fn braces(&mut self) -> Result<Vec<Item<'a>>, Failure<'a>> {
        self.expect("{")?;
        let mut between = Vec::new(self.alloc);
        let mut depth = 0u64;
        for _ in 0..self.items.len() {
            let item = self.next();
            if item.kind == ItemKind::End {
                return Err(refused(item, "}"));
            }
            if item.is("}") && depth == 0 {
                return Ok(between);
            }
            if item.is("{") {
                depth = depth.saturating_add(1);
            } else if item.is("}") {
                depth = depth.saturating_sub(1);
            }
            between.push(item)?;
        }
        Err(self.refusal("}"))
    }
}
