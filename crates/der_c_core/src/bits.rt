//! The struct for BIT STRINGs in the C interface.

/// The bits of a BIT STRING (X.690 8.6).
#[repr(C)]
#[derive(Clone, Copy)]
pub struct DerBits<'a> {
    /// The octets that hold the bits, borrowed from the input. The first bit is the most significant
    /// bit of the first octet.
    pub octets: &'a [u8],
    /// The number of low bits of the last octet that are not part of the string: 0 to 7. It is 0 if
    /// there are no octets.
    pub unused: u8,
}

impl DerBits<'_> {
    /// The BIT STRING without bits.
    pub const EMPTY: DerBits<'static> = DerBits {
        octets: &[],
        unused: 0,
    };
}
