//! The elements and departures that are stored while a value is read.
ghost use Rattle.std.specs.Prelude.{◌≡◌, ◌≤◌, true, length, take};
ghost use Rattle.schema_read.specs.Departures.{are_inside};
ghost use Rattle.schema_read.specs.Entries.{are_placed};

use crate::departure::Departure;
use crate::entry::Entry;

/// The elements and departures (broken rules) that were found so far while a value is read. If
/// `kept` is true, they are stored in memory of the caller.
#[derive(Drop)]
pub(crate) struct Notes<'n> {
    pub entries: &'n mut [Entry],
    pub departures: &'n mut [Departure],
    /// The number of elements that are stored in `entries`.
    pub entry_count: usize,
    /// The number of departures that are stored in `departures`.
    pub departure_count: usize,
    /// The number of departures for which the memory had no room. It does not count beyond the
    /// greatest `usize`.
    pub lost: usize,
    /// Whether elements and departures are stored. If this is false, only the verdict is computed.
    pub kept: bool,
    /// The number of octets of the input.
    pub end: usize,
    ghost entries_fit: { entry_count ≤ length entries.now },
    ghost departures_fit: { departure_count ≤ length departures.now },
    ghost inside: { are_inside end (take departure_count departures.now) ≡ true },
    ghost placed: { are_placed end (take entry_count entries.now) ≡ true },
}
