//! The result of reading a value.

use crate::verdict::Verdict;

/// The result of reading octets as a value. It says how much was stored in the memory of the
/// caller, and which encoding rules the octets keep.
#[derive(Debug, Clone, Copy, PartialEq, Eq)]
pub struct Found {
    /// The number of elements stored in the memory of the caller.
    pub entries: usize,
    /// The number of departures stored in the memory of the caller.
    pub departures: usize,
    /// The number of further departures (broken rules) for which the memory of the caller had no room.
    pub lost: usize,
    /// Whether the octets are an encoding by DER, by BER alone, or by neither.
    pub verdict: Verdict,
}
