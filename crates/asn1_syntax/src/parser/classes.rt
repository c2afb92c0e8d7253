//! Information object classes and their fields (X.681).

use super::places::{Back, Place};
use super::{Parser, unsupported};
use crate::failure::Failure;
use crate::item::Item;
use crate::item_kind::ItemKind;
use crate::simple_type::SimpleType;

impl<'a> Parser<'a> {
    /// Whether the next lexical items are `::=` and then a class, or the name of a class.
    pub(super) fn is_class(&self) -> bool {
        let of = self.peek_second();
        self.sees("::=") && self.is_class_name(of)
    }

    /// The place of the opening brace of the class that this name stands for. `None` if no module
    /// of the text defines a class with this name.
    pub(super) fn class_named(&self, name: Item<'a>) -> Option<Place> {
        if !Parser::is_reference(name) {
            return None;
        }
        let mut found = self.find(name.text);
        for _ in 0..16u32 {
            let place = found?;
            let at = self.after_assign(place)?;
            if self.has_at(at, "CLASS") {
                return Some(Place {
                    at: at.saturating_add(1),
                    is_argument: false,
                    ..place
                });
            }
            found = self.find_at(place.frame, self.item_at(at).text);
        }
        None
    }

    /// Whether this name stands for a class, either built in or defined in a module of the text.
    pub(super) fn is_class_name(&self, name: Item<'a>) -> bool {
        let (mut item, mut frame) = (name, self.frame);
        for _ in 0..16u32 {
            if item.is("CLASS") || is_builtin_class(item) {
                return true;
            }
            let Some(place) = self.find_at(frame, item.text) else {
                return false;
            };
            let Some(at) = self.after_assign(place) else {
                return false;
            };
            item = self.item_at(at);
            frame = place.frame;
        }
        false
    }

    /// The index, among the lexical items, of the first item of what is defined at a place. This is
    /// the first item of an argument, or the item after the `::=` of an assignment. `None` if the
    /// name of an assignment is not followed by `::=`.
    pub(super) fn after_assign(&self, place: Place) -> Option<usize> {
        if place.is_argument {
            return Some(place.at);
        }
        let assign = place.at.saturating_add(1);
        if self.has_at(assign, "::=") {
            return Some(assign.saturating_add(1));
        }
        None
    }

    /// Reads a field of a class (`CLASS.&field`) that is used as a type.
    ///
    /// - If the class defines a type for the field, moves the parser to that type, and returns
    ///   where the parser must come back to.
    /// - Otherwise returns `None`. The field is then read as `ANY`, except that a field of a
    ///   built-in class gets the type that X.681 defines.
    pub(super) fn class_field(&mut self, name: Item<'a>) -> Result<Option<Back>, Failure<'a>> {
        self.at = self.at.saturating_add(1);
        if !self.takes("&") {
            return Err(unsupported(self.peek(), "& and a field of a class"));
        }
        let field = self.next();
        if self.sees(".") {
            return Err(unsupported(self.peek(), "one field of a class"));
        }
        self.field = Some(field);
        let after = match self.class_named(name) {
            Some(class) => self.after_field(class, field),
            None if self.is_class_name(name) => {
                self.field_type = Some(type_of_builtin(field));
                return Ok(None);
            }
            None => return Err(unsupported(name, "a class of a module that is given")),
        };
        let Some(place) = after else {
            return Err(unsupported(field, "a field of its class"));
        };
        if field.kind == ItemKind::UpperName || self.has_at(place.at, "&") {
            self.field_type = Some(SimpleType::Any);
            return Ok(None);
        }
        self.count_expansion(name)?;
        Ok(Some(self.go(place, name, Vec::new(self.alloc))?))
    }

    /// The place after the name of a field, where a class defines the field. `class` is the place
    /// of the opening brace of the class. `None` if the class has no field with this name.
    pub(super) fn after_field(&self, class: Place, field: Item<'a>) -> Option<Place> {
        let end = self.end_of_group(class.at);
        for at in class.at..end {
            if self.has_at(at, "&")
                && self.item_at(at.saturating_add(1)).text == field.text
                && self.begins_field(at)
            {
                return Some(Place {
                    at: at.saturating_add(2),
                    ..class
                });
            }
        }
        None
    }

    // Whether a field of a class, and no use of one, begins at this item.
    fn begins_field(&self, at: usize) -> bool {
        let before = self.item_at(at.saturating_sub(1));
        before.is_one_of(&["{", ","])
    }
}

// Whether this is the name of a class that is built in (X.681, annexes A and B).
fn is_builtin_class(name: Item<'_>) -> bool {
    name.is_one_of(&["TYPE-IDENTIFIER", "ABSTRACT-SYNTAX"])
}

// The type of a field of a class that is built in.
fn type_of_builtin(field: Item<'_>) -> SimpleType {
    match field.text {
        "id" => SimpleType::ObjectIdentifier,
        _ => SimpleType::Any,
    }
}
