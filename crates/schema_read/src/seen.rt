//! The fields of a SET that were already read.
ghost use Rattle.std.specs.Prelude.{◌≡◌, ◌++◌, ◌∷◌, ◌≤◌, [], if◌then◌else◌, length, is_ok};

use crate::full::Full;

/// The indices of the fields of a SET that were already read, in memory of the caller.
#[derive(Drop)]
pub(crate) struct Seen<'s> {
    places: &'s mut [u32],
    count: usize,
    ghost within: { count ≤ length places.now },
}

impl<'s> Seen<'s> {
    ghost use Rattle.schema_read.specs.Seen.{fields_of};

    /// An empty list of fields, with `places` as its memory.
    pub fn new(places: &'s mut [u32]) -> Self
        ensures none { fields_of result ≡ [] }
    {
        Seen { places, count: 0 }
    }

    /// The indices of the fields, in the order in which they were added.
    pub fn as_slice(&self) -> &[u32]
        ensures value { result.now ≡ fields_of self.now }
    {
        &self.places[..self.count]
    }

    /// Adds the index of a field. Fails if there is no room.
    pub fn push(&mut self, index: u32) -> Result<(), Full>
        ensures items { fields_of self.new
            ≡ (if is_ok result then fields_of self.old ++ index ∷ [] else fields_of self.old) }
    {
        if self.count >= self.places.len() {
            return Err(Full);
        }
        self.places[self.count] = index;
        self.count += 1;
        Ok(())
    }
}
