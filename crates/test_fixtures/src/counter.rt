//! A writer for tests that counts its writes.
ghost use Rattle.std.specs.Prelude.{true, false, []};

use der::{Error, ErrorKind, Writer};
use std::alloc::Global;

/// A writer that appends to a vector and counts the calls of its method `write`.
#[derive(Drop)]
pub struct Counter {
    /// The octets written so far.
    pub octets: Vec<u8>,
    /// The number of calls of `write` so far. Calls that failed are counted too.
    pub writes: u32,
}

impl Writer for Counter {
    // a write may fail at any time for lack of memory, so the state is that of a failed writer
    ghost state = { λ w. record {
      octets = w.octets.items;
      following = [];
      start = 0;
      stop = 0;
      capacity = 0;
      failed = true;
      reference = 0;
    } };

    ghost reliable = { false };

    fn write(&mut self, octets: &[u8]) -> Result<(), Error> {
        self.writes = self.writes.saturating_add(1);
        match self.octets.extend_from_slice(octets) {
            Ok(()) => Ok(()),
            Err(_) => Err(ErrorKind::OutOfMemory.to_error()),
        }
    }
}

impl Counter {
    /// Creates a writer into a new, empty vector. No calls are counted yet.
    pub fn new(alloc: Global) -> Self {
        Counter {
            octets: Vec::new(alloc),
            writes: 0,
        }
    }
}
