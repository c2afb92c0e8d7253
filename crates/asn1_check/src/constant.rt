//! Computed values.

use asn1_syntax::Endpoint;
use std::alloc::{AllocError, Global};

/// The value of a value assignment. The compiler computes only numbers, BOOLEANs and OBJECT
/// IDENTIFIERs.
#[derive(Drop)]
pub enum Constant {
    /// A number that is 0 or more.
    Number(u64),
    /// A number below 0. The `u64` is its absolute value.
    Negative(u64),
    /// A BOOLEAN value.
    Boolean(bool),
    /// An OBJECT IDENTIFIER, by its arcs.
    ObjectIdentifier(Vec<u64>),
    /// A value of any other type. The compiler does not compute it.
    Other,
}

impl Constant {
    /// A copy of this value.
    pub fn copy(&self, alloc: Global) -> Result<Self, AllocError> {
        match self {
            Constant::Number(number) => Ok(Constant::Number(*number)),
            Constant::Negative(number) => Ok(Constant::Negative(*number)),
            Constant::Boolean(is_true) => Ok(Constant::Boolean(*is_true)),
            Constant::ObjectIdentifier(arcs) => {
                Ok(Constant::ObjectIdentifier(copy_of(alloc, arcs)?))
            }
            Constant::Other => Ok(Constant::Other),
        }
    }

    /// The value as a number; `None` if the value is not a number.
    pub fn number<'a>(&self) -> Option<Endpoint<'a>> {
        match self {
            Constant::Number(number) => Some(Endpoint::Number(*number)),
            Constant::Negative(number) => Some(Endpoint::Negative(*number)),
            _ => None,
        }
    }
}

/// A copy of these arcs.
pub fn copy_of(alloc: Global, arcs: &Vec<u64>) -> Result<Vec<u64>, AllocError> {
    let mut copy = Vec::new(alloc);
    for arc in arcs.iter() {
        copy.push(*arc)?;
    }
    Ok(copy)
}

/// A value with its name.
#[derive(Drop)]
pub struct NamedConstant<'a> {
    /// The name of the value.
    pub name: &'a str,
    /// The value that has the name.
    pub constant: Constant,
}

impl<'a> NamedConstant<'a> {
    /// A copy of this value with its name.
    pub fn copy(&self, alloc: Global) -> Result<Self, AllocError> {
        Ok(NamedConstant {
            name: self.name,
            constant: self.constant.copy(alloc)?,
        })
    }
}
