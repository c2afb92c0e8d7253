//! Why no table is made.

use asn1_syntax::{Failure, Refusal};
use schema_types::Fault;
use std::alloc::{AllocError, AllocFailed};

/// Why the compiler makes no table of modules.
#[derive(Debug, Drop)]
pub enum Wrong<'a> {
    /// A module is not valid, or a type that is asked for is not supported or does not exist.
    Refused(Refusal<'a>),
    /// A type that others refer to is not supported.
    Unsupported(Refusal<'a>),
    /// The table has more than 1048576 nodes.
    TooLarge,
    /// The compiler wrote octets that are not a table. This is an error of the compiler.
    NoTable(Fault),
    /// A memory allocation failed.
    OutOfMemory,
}

impl<'a> From<Failure<'a>> for Wrong<'a> {
    fn from(failure: Failure<'a>) -> Self {
        match failure {
            Failure::Refused(refusal) => Wrong::Refused(refusal),
            Failure::Unsupported(refusal) => Wrong::Unsupported(refusal),
            Failure::OutOfMemory => Wrong::OutOfMemory,
        }
    }
}

impl<'a> From<AllocError> for Wrong<'a> {
    fn from(_error: AllocError) -> Self {
        Wrong::OutOfMemory
    }
}

impl<'a, T: Drop> From<AllocFailed<T>> for Wrong<'a> {
    fn from(_error: AllocFailed<T>) -> Self {
        Wrong::OutOfMemory
    }
}
