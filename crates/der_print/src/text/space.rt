//! A target that writes text into memory of the caller.
ghost use Rattle.std.specs.Prelude.{◌≤◌, length};

use crate::text::target::Target;

/// A target that writes text into memory of the caller, from the front of the memory on. It fails
/// if a piece of text does not fit, and writes nothing of this piece.
#[derive(Drop)]
pub struct Space<'a> {
    octets: &'a mut [u8],
    count: usize,
    ghost within: { count ≤ length octets.now },
}

impl<'a> Space<'a> {
    /// Creates a target that writes into `octets`. No text is written yet.
    pub fn new(octets: &'a mut [u8]) -> Self {
        Space { octets, count: 0 }
    }

    /// The number of octets written so far.
    pub fn len(&self) -> usize {
        self.count
    }
}

impl Target for Space<'_> {
    fn push(&mut self, octets: &[u8]) -> bool {
        if octets.len() > self.octets.len() - self.count {
            return false;
        }
        let end = self.count + octets.len();
        self.octets[self.count..end].copy_from_slice(octets);
        self.count = end;
        true
    }

    fn last(&self) -> Option<u8> {
        match &self.octets[..self.count] {
            [.., octet] => Some(*octet),
            [] => None,
        }
    }
}
