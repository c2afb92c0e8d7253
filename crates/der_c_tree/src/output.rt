//! Counting the octets that a call printed.

use crate::answer::NO_ROOM;
use der_print::{Output, Space};

/// The number of octets that were printed to `out`, or [`NO_ROOM`] if not all of them fit.
pub fn printed(out: &Output<Space<'_>>) -> usize {
    if out.has_failed {
        NO_ROOM
    } else {
        out.target.len()
    }
}
