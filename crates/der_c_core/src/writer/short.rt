//! Fast writing of headers that have two octets.
ghost use Rattle.std.specs.Prelude.{◌≡◌, true, false};
ghost use Rattle.der_c_core.specs.CWriter.{writer_state, KeepsOpen};
ghost use Rattle.der_c_core.specs.WriterCalls.{WritesShort};

use crate::short::is_identifier;
use crate::writer::DerWriter;
use der_core::Writer;

/// Writes the header of an element, if the header has two octets and `writer` has space for them.
/// Returns true if the header was written. Otherwise writes nothing and returns false. The element
/// has the tag word `tag` and `length` octets of contents.
#[inline(always)]
pub(crate) fn write_short(writer: &mut DerWriter<'_>, tag: u64, length: usize) -> bool
    ensures written { result ≡ true → WritesShort tag length (writer_state writer.old)
        (writer_state writer.new) }
    ensures left { result ≡ false → writer.new ≡ writer.old }
    ensures keeps_open { KeepsOpen writer.old writer.new }
{
    if tag >= 256 {
        return false;
    }
    if length >= 128 {
        return false;
    }
    let first = tag as u8;
    if first % 32 == 31 {
        return false;
    }
    if !is_identifier(first) {
        return false;
    }
    if !writer.has_space(2) {
        return false;
    }
    match writer.write(&[first, length as u8]) {
        Ok(()) => true,
        Err(_) => false,
    }
}
