//! Expansions: names that are replaced by the types for which they stand.

use super::next_assignment::{closes, opens};
use super::places::{Back, Parameter, Place};
use super::{Parser, unsupported};
use crate::constraint::Constraint;
use crate::failure::Failure;
use crate::item::Item;
use crate::item_kind::ItemKind;

/// The greatest number of names that the parser may replace by types in one assignment.
const MOST_EXPANSIONS: u32 = 1000;

const NO_CHOICE: &str = "an alternative of a CHOICE of a module that is given";

impl<'a> Parser<'a> {
    /// If `item` is a name in whose place a type must be read, moves the parser to that type, and
    /// returns where the parser must come back to. Otherwise returns `None`. These names stand for
    /// types that are read in their place:
    ///
    /// - the name of a parameter, for its argument;
    /// - the name of a type with parameters;
    /// - a field of a class (`CLASS.&field`), for the type of the field;
    /// - an alternative of a CHOICE (`a < Choice`), for the type of the alternative.
    pub(super) fn expand(&mut self, item: Item<'a>) -> Result<Option<Back>, Failure<'a>> {
        if item.kind == ItemKind::LowerName && self.takes("<") {
            return self.alternative(item);
        }
        if !Parser::is_reference(item) {
            return Ok(None);
        }
        if self.sees(".") {
            return self.class_field(item);
        }
        let Some(place) = self.find(item.text) else {
            return Ok(None);
        };
        if place.is_argument {
            return Ok(Some(self.go(place, item, Vec::new(self.alloc))?));
        }
        if !self.has_at(place.at.saturating_add(1), "{") {
            return Ok(None);
        }
        self.count_expansion(item)?;
        let formal = place.at.saturating_add(1);
        let parameters = self.arguments(formal, item)?;
        let at = self.end_of_group(formal).saturating_add(1);
        Ok(Some(self.go(Place { at, ..place }, item, parameters)?))
    }

    /// Counts one more name that is replaced by a type. Fails if more than [`MOST_EXPANSIONS`]
    /// names of the assignment are replaced.
    pub(super) fn count_expansion(&mut self, item: Item<'a>) -> Result<(), Failure<'a>> {
        if self.expansions >= MOST_EXPANSIONS {
            return Err(unsupported(item, "at most 1000 types in the place of names"));
        }
        self.expansions = self.expansions.saturating_add(1);
        Ok(())
    }

    // Parses arguments in braces. The parameters are in the braces which open at an item.
    fn arguments(
        &mut self,
        formal: usize,
        item: Item<'a>,
    ) -> Result<Vec<Parameter<'a>>, Failure<'a>> {
        let names = self.parameter_names(formal)?;
        if !self.takes("{") {
            return Err(unsupported(item, "arguments after a type with parameters"));
        }
        let mut at = self.at;
        let end = self.end_of_group(at.saturating_sub(1)).saturating_sub(1);
        let mut parameters = Vec::new(self.alloc);
        for name in names.iter() {
            parameters.push(Parameter { name, at })?;
            at = self.end_of_argument(at, end).saturating_add(1);
        }
        if at != end.saturating_add(1) {
            return Err(unsupported(item, "as many arguments as parameters"));
        }
        self.at = at;
        Ok(parameters)
    }

    // The number of the comma after the argument that begins at an item, or of the brace at this end.
    fn end_of_argument(&self, from: usize, end: usize) -> usize {
        let mut depth = 0u64;
        for at in from..end {
            let item = self.item_at(at);
            if opens(item) {
                depth = depth.saturating_add(1);
            } else if closes(item) {
                depth = depth.saturating_sub(1);
            } else if depth == 0 && item.is(",") {
                return at;
            }
        }
        end
    }

    // The names of the parameters in the braces which open at an item.
    fn parameter_names(&self, formal: usize) -> Result<Vec<&'a str>, Failure<'a>> {
        let mut names = Vec::new(self.alloc);
        for at in formal..self.end_of_group(formal) {
            let after = self.item_at(at.saturating_add(1));
            if after.is_one_of(&[",", "}"]) {
                names.push(self.item_at(at).text)?;
            }
        }
        Ok(names)
    }

    // Moves to the type of an alternative of the CHOICE that is here, and leaves behind that.
    fn alternative(&mut self, name: Item<'a>) -> Result<Option<Back>, Failure<'a>> {
        let choice = self.next();
        let Some(brace) = self.structure(choice) else {
            return Err(unsupported(choice, NO_CHOICE));
        };
        let end = self.end_of_group(brace.at);
        let mut at = brace.at.saturating_add(1);
        for _ in brace.at..end {
            if self.item_at(at).text == name.text {
                self.count_expansion(name)?;
                let at = at.saturating_add(1);
                return Ok(Some(self.go(Place { at, ..brace }, name, Vec::new(self.alloc))?));
            }
            at = self.after_comma(at, end);
        }
        Err(unsupported(name, NO_CHOICE))
    }

    // The number of the item after the next comma that no brackets are around.
    fn after_comma(&self, from: usize, end: usize) -> usize {
        let mut depth = 0u64;
        for at in from..end {
            let item = self.item_at(at);
            if opens(item) {
                depth = depth.saturating_add(1);
            } else if closes(item) {
                depth = depth.saturating_sub(1);
            } else if depth == 0 && item.is(",") {
                return at.saturating_add(1);
            }
        }
        end
    }

    /// The place of the opening brace of the SEQUENCE, SET or CHOICE that this name stands for.
    /// Tags in front of the type are skipped, and names that stand for other names are followed.
    /// `None` if the name stands for another type.
    pub(super) fn structure(&self, name: Item<'a>) -> Option<Place> {
        let mut place = self.find(name.text)?;
        for _ in 0..16u32 {
            let at = self.after_tags(self.after_assign(place)?);
            let item = self.item_at(at);
            if item.is_one_of(&["SEQUENCE", "SET", "CHOICE"]) {
                let at = at.saturating_add(1);
                let is_brace = self.has_at(at, "{");
                return if is_brace {
                    Some(Place {
                        at,
                        is_argument: false,
                        ..place
                    })
                } else {
                    None
                };
            }
            place = self.find_at(place.frame, item.text)?;
        }
        None
    }

    // The number of the item after tags.
    fn after_tags(&self, at: usize) -> usize {
        let mut at = at;
        for _ in 0..16u32 {
            if self.has_at(at, "[") {
                at = self.end_of_group(at);
            } else if self.item_at(at).is_one_of(&["IMPLICIT", "EXPLICIT"]) {
                at = at.saturating_add(1);
            } else {
                break;
            }
        }
        at
    }

    /// Adds constraints to the type with this index among the `nodes`.
    pub(super) fn add_constraints(
        &mut self,
        index: usize,
        constraints: Vec<Constraint<'a>>,
    ) -> Result<(), Failure<'a>> {
        if let Some(node) = self.nodes.get_mut(index) {
            for constraint in constraints.iter() {
                node.constraints.push(*constraint)?;
            }
        }
        Ok(())
    }
}
