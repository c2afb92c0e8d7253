//! The error of memory that is full.

/// The error which says that memory given by the caller is too small.
#[derive(Debug, Clone, Copy, PartialEq, Eq)]
pub struct Full;
