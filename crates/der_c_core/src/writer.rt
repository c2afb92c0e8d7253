//! The struct for writers in the C interface.
ghost use Rattle.std.specs.Prelude.{◌≡◌, ◌+◌, ◌^◌, ◌<◌, ◌≤◌, ◌↔◌, true, length, IsTrue, min};
ghost use Rattle.der_core.specs.Writer.{space_error};

use der_base::{Error, ErrorKind, Length};
use der_core::Writer;

pub mod calls;
pub mod part;
pub mod parts;
mod short;

/// A writer into a buffer of octets. A C program makes it with [`der_writer_init`], and changes it
/// only with functions of this crate.
#[repr(C)]
#[derive(Drop)]
pub struct DerWriter<'a> {
    pub(crate) octets: &'a mut [u8],
    // how many octets are written
    pub(crate) position: usize,
    // where the contents of the innermost open element begin; 0 if no element is open
    pub(crate) innermost: usize,
    pub(crate) failed: bool,
    ghost within: { position ≤ length octets.now },
    ghost countable: { position < 2 ^ 32 },
}

impl<'a> Writer for DerWriter<'a> {
    ghost use Rattle.std.specs.Prelude.{Result};
    ghost use Rattle.der_core.specs.Writer.{Keeps, Appends, Fits, Writes, write_outcome};
    ghost use Rattle.der_c_core.specs.CWriter.{writer_state, KeepsOpen};

    ghost state = { writer_state };

    ghost reliable = { true };

    #[inline(always)]
    fn has_space(&self, count: usize) -> bool {
        let stop = self.octets.len().min(u32::MAX as usize);
        !self.failed && count <= stop - self.position
    }

    #[inline(always)]
    fn write(&mut self, octets: &[u8]) -> Result<(), Error>
        ensures kept { Keeps (writer_state self.old) (writer_state self.new) }
        ensures ok { Appends (writer_state self.old) octets.now result (writer_state self.new) }
        ensures succeeds { Fits (writer_state self.old) octets.now result }
        ensures exact { Writes (write_outcome octets.now (writer_state self.old)) result
            (writer_state self.new) }
        ensures keeps_open { KeepsOpen self.old self.new }
    {
        let stop = self.octets.len().min(u32::MAX as usize);
        if self.failed || octets.len() > stop - self.position {
            let failed = self.failed;
            self.failed = true;
            return Err(refusal(failed, self.position as u32, octets.len()));
        }
        let following = self.position + octets.len();
        self.octets[self.position..following].copy_from_slice(octets);
        self.position = following;
        Ok(())
    }
}

// The error if `count` octets do not fit at `position`, or if the writer had failed before.
#[cold]
#[inline(never)]
pub(crate) fn refusal(failed: bool, position: u32, count: usize) -> Error
    ensures { result ≡ space_error failed position count }
{
    if failed {
        return ErrorKind::Failed.at(Length::new(position));
    }
    if count > (u32::MAX - position) as usize {
        return ErrorKind::Overflow.at(Length::new(position));
    }
    ErrorKind::Overlength.at(Length::new(position + count as u32))
}
