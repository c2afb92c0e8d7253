//! An example of a user-defined writer. It appends what is written to a vector.
ghost use Rattle.std.specs.Prelude.{◌≡◌, ◌++◌, true, false, [], OnOk};
ghost use Rattle.der.specs.Prelude.{tag_octets};

use der::{Encode, Error, ErrorKind, Tag, Writer};

/// A writer that appends all octets that are written to a growing vector.
#[derive(Drop)]
pub struct Collected {
    /// The octets written so far.
    pub octets: Vec<u8>,
}

impl Writer for Collected {
    // It has no buffer, and how much it can hold is unknown: so it begins at 0, stops at 0 and
    // counts as failed, which promises nothing about what fits.
    ghost state = { λ w. record {
      octets = w.octets.items;
      following = [];
      start = 0;
      stop = 0;
      capacity = 0;
      failed = true;
      reference = 0;
    } };

    ghost reliable = { false };

    fn write(&mut self, octets: &[u8]) -> Result<(), Error> {
        match self.octets.extend_from_slice(octets) {
            Ok(()) => Ok(()),
            Err(_) => Err(ErrorKind::OutOfMemory.to_error()),
        }
    }
}

/// Appends the identifier octets of `tag` to the octets in `out`.
pub fn collect_tag(tag: &Tag, out: &mut Collected) -> Result<(), Error>
    ensures { OnOk result (out.new.octets.items ≡ out.old.octets.items ++ tag_octets tag.now) }
{
    tag.encode(out)
}
