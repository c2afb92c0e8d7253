//! Checks that named numbers have different names and different numbers.

use asn1_syntax::{Endpoint, NameIndex, NamedNumber, Refusal};
use std::alloc::{AllocError, Global};
use std::collections::HashSet;

/// The names and the numbers that the named numbers of a type have, as far as they were added.
#[derive(Drop)]
pub struct SeenNumbers<'a> {
    names: NameIndex<'a>,
    // Those that are 0 or more.
    numbers: HashSet<u64>,
    // Those after a minus sign.
    negatives: HashSet<u64>,
    // Those that are names of values.
    values: NameIndex<'a>,
}

impl<'a> SeenNumbers<'a> {
    /// A set without named numbers.
    pub fn new(alloc: Global) -> Self {
        SeenNumbers {
            names: NameIndex::new(alloc),
            numbers: HashSet::new(alloc),
            negatives: HashSet::new(alloc),
            values: NameIndex::new(alloc),
        }
    }

    /// Adds a named number. Returns a refusal if an earlier one has the same name or the same
    /// number.
    pub fn add(&mut self, named: &NamedNumber<'a>) -> Result<Option<Refusal<'a>>, AllocError> {
        let name = named.name;
        if !self.names.add(name.text, 0)? {
            return Ok(Some(Refusal::of(name, "a name that no other number has")));
        }
        if !self.add_number(named.number)? {
            return Ok(Some(Refusal::of(name, "a number that no other name has")));
        }
        Ok(None)
    }

    // Adds a number; whether it was not there.
    fn add_number(&mut self, number: Option<Endpoint<'a>>) -> Result<bool, AllocError> {
        match number {
            Some(Endpoint::Number(number)) => Ok(self.numbers.insert(number)?),
            Some(Endpoint::Negative(number)) => Ok(self.negatives.insert(number)?),
            Some(Endpoint::Name(name)) => self.values.add(name.text, 0),
            _ => Ok(true),
        }
    }
}
