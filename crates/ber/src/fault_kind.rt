//! Kinds of faults of a header.

/// Why octets do not begin with a header.
#[derive(Debug, Clone, Copy, PartialEq, Eq)]
pub enum FaultKind {
    /// The octets end within the header.
    Truncated {
        /// The least number of octets that a header has if it begins with the octets given.
        needed: usize,
    },
    /// A tag number in the octets after the first one begins with `0x80`, a leading zero (X.690
    /// 8.1.2.4.2 c).
    TagNumberPadded,
    /// A tag number below 31 is encoded in the octets after the first one. It must be in the first
    /// octet (X.690 8.1.2.2).
    TagNumberTooSmall,
    /// A tag number is above 4294967295. The standard permits it; this crate does not read it.
    TagNumberTooLarge,
    /// The first octet of a length is `0xFF` (X.690 8.1.3.5 c).
    LengthReserved,
    /// A length is above 4294967295. The standard permits it; this crate does not read it.
    LengthTooLarge,
    /// The length of a primitive encoding is indefinite (X.690 8.1.3.2 a).
    PrimitiveIndefinite,
}
