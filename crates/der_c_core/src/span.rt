//! The struct for octets in the C interface: a pointer and a length.

/// A span: octets that follow one another in memory. In C it is a pointer and a length.
#[repr(C)]
#[derive(Clone, Copy)]
pub struct DerSpan<'a> {
    /// The octets. They are borrowed, for example from the input of a reader.
    pub octets: &'a [u8],
}

impl DerSpan<'_> {
    /// The span without octets.
    pub const EMPTY: DerSpan<'static> = DerSpan { octets: &[] };
}
