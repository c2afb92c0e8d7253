//! Prints the paths of elements.

use crate::cursor::Cursor;
use crate::path::LEVELS;
use schema_types::NodeKind;
use std::fmt;

/// The path from the outermost element to an element. It is printed in the form that [`Cursor::at`]
/// reads. A part of the path is left out for an element without a name, and for a value inside an
/// EXPLICIT tag or a string. These elements have the path of the element around them.
#[derive(Clone, Copy)]
pub struct Place<'a> {
    element: Cursor<'a>,
}

impl<'a> Cursor<'a> {
    /// The path from the outermost element to this element, to be printed.
    pub fn place(self) -> Place<'a> {
        Place { element: self }
    }

    // The element around it that is so deep, or itself if it is not deeper.
    fn around(self, depth: u8) -> Self {
        let mut found = self;
        for _ in 0..LEVELS {
            if found.entry().depth <= depth {
                return found;
            }
            match found.parent() {
                Some(parent) => found = parent,
                None => return found,
            }
        }
        found
    }

    // How many values of a SEQUENCE OF or a SET OF are before it, if it is one.
    fn item_number(self) -> Option<usize> {
        let parent = self.parent()?;
        match parent.kind() {
            Some(NodeKind::SequenceOf | NodeKind::SetOf) => {}
            _ => return None,
        }
        let mut before: usize = 0;
        for child in parent.children() {
            if child.index == self.index {
                return Some(before);
            }
            before = before.saturating_add(1);
        }
        None
    }
}

impl<'a> fmt::Display for Place<'a> {
    fn fmt<W: fmt::Write>(&self, f: &mut fmt::Formatter<W>) -> fmt::Result {
        let mut is_first = true;
        for depth in 0..self.element.entry().depth {
            let element = self.element.around(depth + 1);
            if let Some(number) = element.item_number() {
                write!(f, "[{number}]")?;
                is_first = false;
            } else if let Some(name) = element.name() {
                if !is_first {
                    f.write_str(".")?;
                }
                f.write_str(name)?;
                is_first = false;
            }
        }
        Ok(())
    }
}
