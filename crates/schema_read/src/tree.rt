//! The result of reading a value.

use crate::departure::Departure;
use crate::entry::Entry;

/// The result of reading a value: the elements of the input, and the departures, which are the
/// places where the octets break a rule.
#[derive(Drop)]
pub struct Tree {
    /// The elements in the order of the input. Each element comes after the element around it.
    pub entries: Vec<Entry>,
    /// The departures, in the order in which they were found.
    pub departures: Vec<Departure>,
}
