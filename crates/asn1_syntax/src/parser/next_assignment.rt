//! Where an assignment begins.

use super::Parser;
use crate::item::Item;
use crate::item_kind::ItemKind;
use crate::reserved::is_reserved;
use crate::simple_type::SimpleType;

impl<'a> Parser<'a> {
    /// Moves past an assignment without parsing it: to the next assignment, or to the end of the
    /// module. `start` is the index of the first item of the assignment among the lexical items.
    pub(super) fn to_next_assignment(&mut self, start: usize) {
        let own = self.assign_from(start.saturating_add(1));
        let from = if self.has_at(own.saturating_sub(1), "MACRO") {
            self.end_of_macro(own)
        } else {
            own.saturating_add(1)
        };
        let next = self.assign_from(from);
        self.at = if self.has_at(next, "::=") {
            self.name_before(next, from)
        } else {
            next
        };
    }

    /// Whether the next lexical items belong to the assignment of a value set or an object set. The
    /// items are a type or a class, then `::=`, then an opening brace.
    pub(super) fn is_set_assignment(&self) -> bool {
        let assign = self.assign_from(self.at);
        !self.sees("::=")
            && self.has_at(assign.saturating_add(1), "{")
            && self.name_before(assign, self.at.saturating_sub(1)) < self.at
    }

    // The index after the END of a macro whose `::=` has this index.
    fn end_of_macro(&self, assign: usize) -> usize {
        for at in assign..self.items.len() {
            if self.has_at(at, "END") {
                return at.saturating_add(1);
            }
        }
        assign
    }

    // The index of the first `::=` from this index on that no braces or brackets are around; of END
    // or the end of the text, if that comes first.
    fn assign_from(&self, from: usize) -> usize {
        let mut depth = 0u64;
        for at in from..self.items.len() {
            let item = self.item_at(at);
            if opens(item) {
                depth = depth.saturating_add(weight(item));
            } else if closes(item) {
                depth = depth.saturating_sub(weight(item));
            } else if depth == 0 && item.is_one_of(&["::=", "END"]) {
                return at;
            }
        }
        self.items.len().saturating_sub(1)
    }

    // The index of the name of the assignment whose `::=` has the index `assign`; not below `least`.
    fn name_before(&self, assign: usize, least: usize) -> usize {
        let is_type = self.begins_type(assign.saturating_add(1));
        let mut has_governor = false;
        let mut at = assign;
        for _ in least..assign {
            if at <= least {
                break;
            }
            at = self.group_before(at, least);
            if self.is_name(at) && (is_type || self.is_after_name(at, least)) {
                return if is_type { at } else { at.saturating_sub(1) };
            }
            if self.is_name(at) && self.has_at(at.saturating_add(1), "{") && has_governor {
                return at;
            }
            has_governor = has_governor || self.is_name(at);
            if self.item_at(at).kind == ItemKind::LowerName && !self.is_field(at) {
                return at;
            }
        }
        at
    }

    // The index of the item in front of this one, or of the first item of the braces that end there.
    fn group_before(&self, at: usize, least: usize) -> usize {
        let mut depth = 0u64;
        let mut at = at;
        for _ in least..at {
            at = at.saturating_sub(1);
            let item = self.item_at(at);
            if closes(item) {
                depth = depth.saturating_add(weight(item));
            } else if opens(item) {
                depth = depth.saturating_sub(weight(item));
            }
            if depth == 0 {
                break;
            }
        }
        at
    }

    // Whether a type and no value begins at this index.
    fn begins_type(&self, at: usize) -> bool {
        let item = self.item_at(at);
        match item.kind {
            ItemKind::UpperName => !item.is_one_of(&["TRUE", "FALSE"]),
            _ => item.is("["),
        }
    }

    // Whether the item with this index is a name that a module gives to a type, a class or a set.
    fn is_name(&self, at: usize) -> bool {
        let item = self.item_at(at);
        item.kind == ItemKind::UpperName
            && !is_reserved(item.text)
            && SimpleType::of(item.text).is_none()
            && !self.is_field(at)
    }

    // Whether the item in front of this one is the name of a set.
    fn is_after_name(&self, at: usize, least: usize) -> bool {
        at > least && self.is_name(at.saturating_sub(1))
    }

    // Whether the item with this index is the name of a field of a class.
    fn is_field(&self, at: usize) -> bool {
        let before = self.item_at(at.saturating_sub(1));
        at > 0 && before.is_one_of(&["&", "."])
    }
}

/// Whether this item is an opening bracket, brace or parenthesis.
pub fn opens(item: Item<'_>) -> bool {
    item.is_one_of(&["{", "(", "[", "[["])
}

/// Whether this item is a closing bracket, brace or parenthesis.
pub fn closes(item: Item<'_>) -> bool {
    item.is_one_of(&["}", ")", "]", "]]"])
}

/// How many brackets an opening or closing bracket counts as: 2 for `[[` and `]]`, otherwise 1.
pub fn weight(item: Item<'_>) -> u64 {
    if item.is_one_of(&["[[", "]]"]) { 2 } else { 1 }
}
