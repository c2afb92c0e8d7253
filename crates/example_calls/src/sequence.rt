//! An example that reads a SEQUENCE with a function.
ghost use Rattle.std.specs.Prelude.{◌≡◌};
ghost use Rattle.der.specs.Prelude.{Same, slice_state};

use der::{Error, Reader, ReaderExt, SliceReader, Tag, decode_header};

/// Reads the octets as exactly one SEQUENCE that contains exactly one OCTET STRING. Returns the
/// contents of the OCTET STRING.
pub fn wrapped_octets(octets: &[u8]) -> Result<&[u8], Error> {
    let mut reader = SliceReader::new(octets)?;
    let contents = reader.sequence(read_octet_string)?;
    reader.finish()?;
    Ok(contents)
}

// A named function, because the checker does not support a closure that returns a slice of the
// input. It only has to promise that it leaves the same reader.
fn read_octet_string<'a>(reader: &mut SliceReader<'a>) -> Result<&'a [u8], Error>
    ensures { Same (slice_state reader.old) (slice_state reader.new) }
{
    let header = decode_header(reader)?;
    header.tag().assert_eq(Tag::OctetString)?;
    reader.read_slice(header.length())
}
