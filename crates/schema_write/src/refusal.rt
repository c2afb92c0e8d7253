//! Errors of rewriting a value.

use schema_read::Full;
use std::alloc::AllocError;

/// Why a value cannot be rewritten to DER.
#[derive(Debug, Clone, Copy, PartialEq, Eq)]
pub enum Refusal {
    /// There is not enough memory.
    OutOfMemory,
    /// The octets are not a BER encoding of a value of the type.
    NotBer,
    /// The value cannot be written in DER: the contents of an element would have more than
    /// 4294967295 octets.
    Unwritable,
}

impl From<AllocError> for Refusal {
    fn from(_: AllocError) -> Self {
        Refusal::OutOfMemory
    }
}

impl From<Full> for Refusal {
    fn from(_: Full) -> Self {
        Refusal::OutOfMemory
    }
}
