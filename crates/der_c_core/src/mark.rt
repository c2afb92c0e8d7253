//! Marks of elements that were begun and not yet ended, for C.

/// The mark of an element that is being written: [`der_begin`](crate::der_begin) sets it, and
/// [`der_end`](crate::der_end) takes it. Positions are in octets from the start of the output.
#[repr(C)]
#[derive(Clone, Copy)]
pub struct DerMark {
    /// The position at which the contents of the element begin.
    pub start: usize,
    /// The position at which the contents of the enclosing open element begin. It is 0 if no
    /// element encloses this one.
    pub outer: usize,
}
