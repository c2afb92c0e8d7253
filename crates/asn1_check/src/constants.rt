//! Values with names.

use crate::constant::{Constant, NamedConstant};
use asn1_syntax::NameIndex;
use std::alloc::{AllocError, Global};

/// A list of values with names.
#[derive(Drop)]
pub struct Constants<'a> {
    /// The values, in the order in which they were added.
    pub list: Vec<NamedConstant<'a>>,
    places: NameIndex<'a>,
}

impl<'a> Constants<'a> {
    /// A list without values.
    pub fn new(alloc: Global) -> Self {
        Constants {
            list: Vec::new(alloc),
            places: NameIndex::new(alloc),
        }
    }

    /// Adds a value at the end of the list.
    pub fn push(&mut self, named: NamedConstant<'a>) -> Result<(), AllocError> {
        self.places.add(named.name, self.list.len())?;
        self.list.push(named)?;
        Ok(())
    }

    /// The first value with this name.
    pub fn find(&self, name: &str) -> Option<&Constant> {
        match self.list.get(self.places.find(name)?) {
            Some(named) => Some(&named.constant),
            None => None,
        }
    }
}
