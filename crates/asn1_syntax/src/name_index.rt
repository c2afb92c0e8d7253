//! A map from names to indices.

use std::alloc::{AllocError, Global};
use std::collections::HashMap;

/// A map from names to indices, which keeps the order in which the names were added.
#[derive(Drop)]
pub struct NameIndex<'a> {
    /// The names, in the order in which they were added.
    pub names: Vec<&'a str>,
    places: HashMap<&'a str, usize>,
}

impl<'a> NameIndex<'a> {
    /// A map without names.
    pub fn new(alloc: Global) -> Self {
        NameIndex {
            names: Vec::new(alloc),
            places: HashMap::new(alloc),
        }
    }

    /// Adds a name with its index, unless the map has this name already. Returns whether it was
    /// added.
    pub fn add(&mut self, name: &'a str, index: usize) -> Result<bool, AllocError> {
        if self.has(name) {
            return Ok(false);
        }
        self.places.insert(name, index)?;
        self.names.push(name)?;
        Ok(true)
    }

    /// The index that was added with this name; `None` if the map does not have the name.
    pub fn find(&self, name: &str) -> Option<usize> {
        self.places.get(name).copied()
    }

    /// Whether the map has this name.
    pub fn has(&self, name: &str) -> bool {
        self.places.contains_key(name)
    }
}
