//! A list of definitions.

use super::definition::Definition;
use std::alloc::{AllocError, Global};
use std::collections::HashSet;

/// The definitions of a module that are to be written as Rust files.
#[derive(Drop)]
pub struct Definitions {
    list: Vec<Definition>,
    // The names of the structs that stand for a CHOICE inside an explicit tag.
    tagged: HashSet<String>,
}

impl Definitions {
    /// A list without definitions.
    pub fn new(alloc: Global) -> Self {
        Definitions {
            list: Vec::new(alloc),
            tagged: HashSet::new(alloc),
        }
    }

    /// Adds a definition.
    pub fn add(&mut self, definition: Definition) -> Result<(), AllocError> {
        Ok(self.list.push(definition)?)
    }

    /// Returns true if this is the first call with this name. The names are those of structs that
    /// stand for a CHOICE inside an explicit tag. The caller writes each of these structs only
    /// once.
    pub fn begins(&mut self, alloc: Global, name: &str) -> Result<bool, AllocError> {
        Ok(self.tagged.insert(String::from_str(alloc, name)?)?)
    }

    /// Returns the definitions, sorted by the names of their files.
    pub fn in_order(self, alloc: Global) -> Result<Vec<Definition>, AllocError> {
        let mut list = self.list;
        list.sort_by(|one, two| one.file.as_str().cmp(two.file.as_str()))?;
        Ok(list)
    }
}
