//! Why a module is refused.

use crate::item::Item;
use crate::item_kind::ItemKind;
use crate::position::Position;
use std::alloc::{AllocError, Global};

/// What is wrong with a module, and where.
#[derive(Clone, Copy, Debug)]
pub struct Refusal<'a> {
    /// The index, in the text, of the first octet that is wrong.
    pub offset: usize,
    /// The lexical item at `offset`.
    pub found: &'a str,
    /// A description of what was expected at `offset`.
    pub expected: &'static str,
}

impl<'a> Refusal<'a> {
    /// A refusal that says that this lexical item was found, and what was expected instead.
    pub fn of(item: Item<'a>, expected: &'static str) -> Self {
        let found = match item.kind {
            ItemKind::End => "the end of the file",
            _ => item.text,
        };
        Refusal {
            offset: item.offset,
            found,
            expected,
        }
    }

    /// The error message of this refusal, as one line: the file `name`, the line and the column in
    /// `text`, what was found and what was expected. `text` is the contents of the file.
    pub fn line(&self, alloc: Global, name: &str, text: &str) -> Result<String, AllocError> {
        let position = Position::of(text.as_bytes(), self.offset);
        let Refusal {
            found,
            expected,
            ..
        } = *self;
        format!(in alloc; "{name}:{position}: found {found}, expected {expected}\n")
    }
}
