//! Information objects and information object sets (X.681).

use super::next_assignment::{closes, opens};
use super::places::Place;
use super::{MAX_DEPTH, Parser, unsupported};
use crate::failure::Failure;
use crate::information_object::{InformationObject, ObjectField, Setting};
use crate::item::Item;
use crate::item_kind::ItemKind;
use crate::object_set::ObjectSet;

impl<'a> Parser<'a> {
    /// Parses an information object, and adds it to the objects of the module. `class` is the place
    /// of the opening brace of its class.
    pub(super) fn object(&mut self, name: Item<'a>, class: Place) -> Result<(), Failure<'a>> {
        let first = self.nodes.len();
        let syntax = self.end_of_group(class.at);
        let fields = if self.has_at(syntax, "WITH") {
            self.by_syntax(class, syntax.saturating_add(3))
        } else {
            self.by_names(class)
        };
        let fields = match fields {
            Err(Failure::Refused(refusal)) => return Err(Failure::Unsupported(refusal)),
            fields => fields?,
        };
        self.objects.push(InformationObject {
            name,
            first,
            end: self.nodes.len(),
            fields,
        })?;
        Ok(())
    }

    // Parses the fields of an object by the syntax of its class, whose first item has this number
    // (X.681, 10). Words in brackets may be left out together.
    fn by_syntax(
        &mut self,
        class: Place,
        syntax: usize,
    ) -> Result<Vec<ObjectField<'a>>, Failure<'a>> {
        self.expect("{")?;
        let mut fields = Vec::new(self.alloc);
        let mut at = syntax;
        for _ in 0..self.items.len() {
            let word = self.item_at(at);
            if word.is("}") || word.kind == ItemKind::End {
                break;
            }
            if opens(word) && self.is_left_out(at) {
                at = self.end_of_group(at);
            } else if opens(word) || closes(word) {
                at = at.saturating_add(1);
            } else if word.is("&") {
                fields.push(self.object_field(class, self.item_at(at.saturating_add(1)))?)?;
                at = at.saturating_add(2);
            } else if self.peek().text == word.text {
                self.at = self.at.saturating_add(1);
                at = at.saturating_add(1);
            } else {
                return Err(unsupported(self.peek(), "the next word of the syntax of its class"));
            }
        }
        self.expect("}")?;
        Ok(fields)
    }

    // Whether the words in the brackets that open at an item are left out here.
    fn is_left_out(&self, at: usize) -> bool {
        let first = self.item_at(at.saturating_add(1));
        if opens(first) {
            return self.peek().text != self.item_at(at.saturating_add(2)).text;
        }
        if first.is("&") {
            let after = self.item_at(self.end_of_group(at));
            return self.sees("}") || self.peek().text == after.text;
        }
        self.peek().text != first.text
    }

    // Parses the fields of an object with their names, where the class has no syntax.
    fn by_names(&mut self, class: Place) -> Result<Vec<ObjectField<'a>>, Failure<'a>> {
        self.expect("{")?;
        let mut fields = Vec::new(self.alloc);
        for _ in 0..self.items.len() {
            if !self.takes("&") {
                break;
            }
            let name = self.next();
            fields.push(self.object_field(class, name)?)?;
            if !self.takes(",") {
                break;
            }
        }
        self.expect("}")?;
        Ok(fields)
    }

    // Parses what is in a field.
    fn object_field(
        &mut self,
        class: Place,
        name: Item<'a>,
    ) -> Result<ObjectField<'a>, Failure<'a>> {
        let setting = if name.kind == ItemKind::LowerName {
            Setting::Value(self.value()?)
        } else if self.is_type_field(class, name) {
            Setting::Type(self.type_at(MAX_DEPTH)?)
        } else {
            if self.sees("{") {
                self.braces()?;
            } else {
                self.at = self.at.saturating_add(1);
            }
            Setting::Set
        };
        Ok(ObjectField { name, setting })
    }

    // Whether the field of a class stands for types.
    fn is_type_field(&self, class: Place, name: Item<'a>) -> bool {
        let Some(place) = self.after_field(class, name) else {
            return false;
        };
        let after = self.item_at(place.at);
        after.is_one_of(&[",", "}", "OPTIONAL", "DEFAULT"])
    }

    /// Parses a set of information objects. `class` is the place of the opening brace of their
    /// class.
    pub(super) fn object_set(
        &mut self,
        name: Item<'a>,
        class: Place,
    ) -> Result<ObjectSet<'a>, Failure<'a>> {
        self.expect("{")?;
        let mut members = Vec::new(self.alloc);
        for _ in 0..self.items.len() {
            let item = self.peek();
            if self.takes("}") {
                return Ok(ObjectSet { name, members });
            }
            if item.is("{") {
                let name = self.whole_item();
                self.object(name, class)?;
                members.push(name)?;
            } else if item.kind == ItemKind::LowerName || Parser::is_reference(item) {
                self.at = self.at.saturating_add(1);
                members.push(self.own_name(item)?)?;
                if self.sees("{") {
                    self.braces()?;
                }
            } else if item.is_one_of(&["|", ",", "...", "UNION"]) {
                self.at = self.at.saturating_add(1);
            } else {
                break;
            }
        }
        Err(unsupported(self.peek(), "the name of an object or of a set"))
    }

    // The object in braces that is here, as one item.
    fn whole_item(&self) -> Item<'a> {
        let item = self.peek();
        let last = self.end_of_group(self.at).saturating_sub(1);
        let text = match (self.items.get(self.at), self.items.get(last)) {
            (Some(first), Some(last)) => self.text.get(first.offset..=last.offset),
            _ => None,
        };
        Item {
            text: text.unwrap_or(item.text),
            ..item
        }
    }
}
