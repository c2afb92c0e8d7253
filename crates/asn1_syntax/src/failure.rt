//! Why no module is compiled.

use crate::refusal::Refusal;
use std::alloc::{AllocError, AllocFailed};

/// Why the compiler returns no result.
#[derive(Clone, Copy, Debug)]
pub enum Failure<'a> {
    /// The module is not valid ASN.1.
    Refused(Refusal<'a>),
    /// The module uses a form of ASN.1 that this compiler does not support.
    Unsupported(Refusal<'a>),
    /// A memory allocation failed.
    OutOfMemory,
}

impl<'a> From<Refusal<'a>> for Failure<'a> {
    fn from(refusal: Refusal<'a>) -> Self {
        Failure::Refused(refusal)
    }
}

impl<'a> From<AllocError> for Failure<'a> {
    fn from(_error: AllocError) -> Self {
        Failure::OutOfMemory
    }
}

impl<'a, T: Drop> From<AllocFailed<T>> for Failure<'a> {
    fn from(_error: AllocFailed<T>) -> Self {
        Failure::OutOfMemory
    }
}
