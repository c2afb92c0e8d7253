//! Lists of types that other crates contain.

use crate::external_type::ExternalType;
use asn1_syntax::NameIndex;
use std::alloc::{AllocError, Global};

/// A list of types that other crates contain.
#[derive(Drop)]
pub struct ExternalTypes<'a> {
    /// The types, in the order in which they were added.
    pub list: Vec<ExternalType<'a>>,
    places: NameIndex<'a>,
}

impl<'a> ExternalTypes<'a> {
    /// A list without types.
    pub fn new(alloc: Global) -> Self {
        ExternalTypes {
            list: Vec::new(alloc),
            places: NameIndex::new(alloc),
        }
    }

    /// Adds a type at the end of the list.
    pub fn push(&mut self, of: ExternalType<'a>) -> Result<(), AllocError> {
        self.places.add(of.name, self.list.len())?;
        self.list.push(of)?;
        Ok(())
    }

    /// The first type with this ASN.1 name.
    pub fn find(&self, name: &str) -> Option<&ExternalType<'a>> {
        self.list.get(self.places.find(name)?)
    }
}
