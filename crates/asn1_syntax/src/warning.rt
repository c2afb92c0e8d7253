//! Warnings of what is not checked or not compiled.

use crate::item::Item;
use crate::position::Position;
use std::alloc::{AllocError, Global};

/// A warning about something in a module that the generated Rust types do not check, or leave out.
#[derive(Drop)]
pub struct Warning<'a> {
    /// The index, in the text, of the first octet that the warning is about.
    pub offset: usize,
    /// The lexical item at `offset`.
    pub found: &'a str,
    /// A sentence that says what the compiler makes of this part of the module, or does not check
    /// in it.
    pub text: String,
}

impl<'a> Warning<'a> {
    /// A warning about this lexical item. `text` says what the compiler does.
    pub fn of(alloc: Global, item: Item<'a>, text: &str) -> Result<Self, AllocError> {
        Ok(Warning {
            offset: item.offset,
            found: item.text,
            text: String::from_str(alloc, text)?,
        })
    }

    /// The warning as one line to print, with a line end. `name` is the name of the file, and
    /// `position` is the position in the file that the line shows.
    pub fn line(
        &self,
        alloc: Global,
        name: &str,
        position: Position,
    ) -> Result<String, AllocError> {
        let (found, why) = (self.found, self.text.as_str());
        format!(in alloc; "warning: {name}:{position}: {found}: {why}\n")
    }
}
