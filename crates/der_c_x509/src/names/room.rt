//! Writing text into memory of the caller.
ghost use Rattle.std.specs.Prelude.{◌≤◌, length};

use std::fmt;

/// A writer that writes text to the start of memory of the caller. A write that does not fit fails
/// and writes nothing.
#[derive(Drop)]
pub(crate) struct Room<'a> {
    octets: &'a mut [u8],
    count: usize,
    ghost within: { count ≤ length octets.now },
}

impl<'a> Room<'a> {
    /// Creates a writer that begins at the start of `octets`.
    pub(crate) fn new(octets: &'a mut [u8]) -> Self {
        Room { octets, count: 0 }
    }

    /// The number of octets written so far.
    pub(crate) fn len(&self) -> usize {
        self.count
    }
}

impl fmt::Write for Room<'_> {
    fn write_str(&mut self, text: &str) -> fmt::Result {
        let octets = text.as_bytes();
        if octets.len() > self.octets.len() - self.count {
            return Err(fmt::Error);
        }
        let end = self.count + octets.len();
        self.octets[self.count..end].copy_from_slice(octets);
        self.count = end;
        Ok(())
    }
}
