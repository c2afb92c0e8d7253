//! Ranges of rows, and of octets of the pool.
ghost use Rattle.std.specs.Prelude.{◌≡◌, ◌+◌, ◌≤◌, ◌↔◌, IsTrue, length};
ghost use Rattle.schema_types.specs.Span.{span_at, IsWithin};

use crate::numbers::number_at;

/// A range of rows of a section, or of octets of the pool.
#[derive(Debug, Clone, Copy, PartialEq, Eq)]
pub struct Span {
    /// The index, from 0, of the first row or octet.
    pub start: u32,
    /// The number of rows or octets.
    pub count: u32,
}

impl Span {
    // The range in the eight octets from `at` on.
    #[inline(always)]
    pub(crate) fn read(octets: &[u8], at: usize) -> Self
        requires { at + 8 ≤ length octets.now }
        ensures { result ≡ span_at octets.now at }
    {
        Span {
            start: number_at(octets, at),
            count: number_at(octets, at + 4),
        }
    }

    // Whether the range is one of so many rows or octets.
    #[inline(always)]
    pub(crate) fn is_within(self, room: usize) -> bool
        ensures { IsTrue result ↔ IsWithin self room }
    {
        self.start as usize + self.count as usize <= room
    }
    // The index after the last of the range, which is one of so many rows.
    #[inline(always)]
    pub(crate) fn end(self, room: u32) -> u32
        requires { IsWithin self room }
        ensures { result ≡ self.start + self.count }
    {
        self.count + self.start
    }
}
