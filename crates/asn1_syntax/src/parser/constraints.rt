//! Constraints.

use super::next_assignment::opens;
use super::places::Place;
use super::{Parser, refused};
use crate::constraint::Constraint;
use crate::failure::Failure;
use crate::item::Item;
use crate::item_kind::ItemKind;
use crate::object_set::TableUse;
use crate::range::Range;

/// What combines the constraint in front of it with another one, or goes on in a way that is not
/// read.
const SET_OPERATORS: [&str; 9] = [
    "|",
    "^",
    "UNION",
    "INTERSECTION",
    "EXCEPT",
    "<",
    ".",
    ":",
    "!",
];

impl<'a> Parser<'a> {
    /// Parses a range or a size constraint, without the parenthesis that closes it. Any other
    /// constraint is skipped, and returned as [`Constraint::Unread`]. The caller must handle
    /// `CONTAINING` and table constraints before.
    pub(super) fn constraint(&mut self) -> Result<Constraint<'a>, Failure<'a>> {
        let item = self.peek();
        if !self.begins_range() {
            return self.unread(item);
        }
        let constraint = if self.takes("SIZE") {
            self.size()?
        } else {
            Constraint::Range(self.range()?)
        };
        if self.is_set_operator() {
            return self.unread(item);
        }
        Ok(constraint)
    }

    /// Moves past the exception identifier of a constraint (`!` and a value, X.680, 53), if there
    /// is one.
    pub(super) fn pass_exception(&mut self) {
        if !self.takes("!") {
            return;
        }
        for _ in self.at..self.items.len() {
            let item = self.peek();
            if item.is(")") || item.kind == ItemKind::End {
                break;
            }
            let at = self.at;
            self.at = if opens(item) {
                self.end_of_group(at)
            } else {
                at.saturating_add(1)
            };
        }
    }

    /// Parses a table constraint (X.682, 10), without the parenthesis that closes it. `field` is
    /// the field of a class that the constraint follows. Returns `None`, and parses nothing, if
    /// `field` is `None` or if the next lexical item is not an opening brace.
    pub(super) fn table(
        &mut self,
        field: Option<Item<'a>>,
    ) -> Result<Option<Constraint<'a>>, Failure<'a>> {
        let (Some(field), true) = (field, self.sees("{")) else {
            return Ok(None);
        };
        let members = self.set_members()?;
        self.braces()?;
        let mut by = None;
        if self.sees("{") {
            for item in self.braces()?.iter() {
                if item.kind == ItemKind::LowerName {
                    by = Some(*item);
                }
            }
        }
        let number = self.tables.len();
        self.tables.push(TableUse { field, members, by })?;
        Ok(Some(Constraint::Table(number)))
    }

    // The names of the sets and of the objects in the braces that stand here, or for which a name in
    // them stands.
    fn set_members(&self) -> Result<Vec<Item<'a>>, Failure<'a>> {
        let mut place = Place {
            at: self.at,
            frame: self.frame,
            is_argument: true,
        };
        for _ in 0..=self.frames.len() {
            if self.has_at(place.at, "{") {
                place.at = place.at.saturating_add(1);
            }
            match self.find_at(place.frame, self.item_at(place.at).text) {
                Some(argument) if argument.is_argument => place = argument,
                _ => break,
            }
        }
        let mut members = Vec::new(self.alloc);
        for at in place.at..self.items.len() {
            let item = self.item_at(at);
            if item.kind == ItemKind::LowerName || Parser::is_reference(item) {
                members.push(self.own_name_at(place.frame, item)?)?;
            } else if !item.is_one_of(&["|", "...", "UNION"]) {
                break;
            }
        }
        Ok(members)
    }

    /// Moves past `ENCODED BY` and the value after it (X.682, 11), if the next lexical item is
    /// `ENCODED`.
    pub(super) fn encoded_by(&mut self) -> Result<(), Failure<'a>> {
        if self.takes("ENCODED") {
            self.expect("BY")?;
            self.value()?;
        }
        Ok(())
    }

    /// Parses the size constraint that follows the word SIZE, with its parentheses.
    pub(super) fn size(&mut self) -> Result<Constraint<'a>, Failure<'a>> {
        let item = self.peek();
        self.expect("(")?;
        let size = if self.begins_range() {
            Constraint::Size(self.range()?)
        } else {
            Constraint::Unread(item)
        };
        if self.is_set_operator() || matches!(size, Constraint::Unread(_)) {
            self.to_end()?;
            self.expect(")")?;
            return Ok(Constraint::Unread(item));
        }
        self.expect(")")?;
        Ok(size)
    }

    // Whether a range, a single number or name, or a size begins here.
    fn begins_range(&self) -> bool {
        let item = self.peek();
        if self.sees_second("..") && self.has_at(self.at.saturating_add(2), "<") {
            return false;
        }
        match item.kind {
            ItemKind::UpperName => item.is_one_of(&["SIZE", "MIN", "MAX"]),
            ItemKind::LowerName => true,
            ItemKind::BinaryString | ItemKind::HexString | ItemKind::CharacterString => false,
            ItemKind::Number => !self.sees_second("."),
            _ => !item.is_one_of(&["{", "(", "-"]) || self.is_negative(),
        }
    }

    // Whether a whole number below 0 begins here.
    fn is_negative(&self) -> bool {
        self.sees("-") && !self.has_at(self.at.saturating_add(2), ".")
    }

    // Whether what is here combines the constraint in front with another one (X.680, 50.1).
    fn is_set_operator(&self) -> bool {
        let item = self.peek();
        item.is_one_of(&SET_OPERATORS) || (item.is(",") && self.is_open_end())
    }

    // Whether more than the end is after a comma and an extension mark.
    fn is_open_end(&self) -> bool {
        self.sees_second("...") && !self.has_at(self.at.saturating_add(2), ")")
    }

    // Moves to the parenthesis after the constraint that begins with an item.
    fn unread(&mut self, item: Item<'a>) -> Result<Constraint<'a>, Failure<'a>> {
        self.to_end()?;
        Ok(Constraint::Unread(item))
    }

    // Moves to the next parenthesis or brace that closes none of those from here on.
    fn to_end(&mut self) -> Result<(), Failure<'a>> {
        let mut depth = 0u64;
        for _ in 0..self.items.len() {
            let item = self.peek();
            if item.kind == ItemKind::End {
                break;
            }
            if item.is_one_of(&["(", "{"]) {
                depth = depth.saturating_add(1);
            } else if item.is_one_of(&[")", "}"]) {
                if depth == 0 {
                    return Ok(());
                }
                depth = depth.saturating_sub(1);
            }
            self.at = self.at.saturating_add(1);
        }
        Err(self.refusal(")"))
    }

    // Parses a range, or a single value, and an extension mark after it.
    fn range(&mut self) -> Result<Range<'a>, Failure<'a>> {
        let item = self.peek();
        let low = self.endpoint()?;
        let high = if self.takes("..") {
            self.endpoint()?
        } else {
            low
        };
        let is_extensible = self.sees(",") && self.sees_second("...") && !self.is_open_end();
        if is_extensible {
            self.at = self.at.saturating_add(2);
        }
        Ok(Range {
            item,
            low,
            high,
            is_extensible,
        })
    }
}
