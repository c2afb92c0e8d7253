//! The values that a call returns instead of a number of octets, an index or a number of a kind.

/// The value that a call returns instead of a number of octets if its output does not fit. It is
/// also returned instead of the index of an element if there is no such element. In C it is
/// `SIZE_MAX`.
pub const NO_ROOM: usize = usize::MAX;

/// The value that `der_kind_find` returns instead of the number of a kind if it has too little
/// memory. In C it is `DER_NO_ROOM`.
pub const FULL: u32 = 0xffff_fffe;

/// The value that a call returns instead of the index of a type, or instead of the number of a
/// kind, if there is no such type or kind. In C it is `DER_NO_TYPE`.
pub const NONE: u32 = 0xffff_ffff;
