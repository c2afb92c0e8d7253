//! An example that reads the contents of an element with calls of `enter_nested` and
//! `close_nested`.
ghost use Rattle.der.specs.Prelude.{Same, slice_state};

use der::{Error, Reader, ReaderExt, SliceReader, Tag, decode_header};

/// Counts the elements directly inside the SEQUENCE at the front of `octets`. Elements that are
/// nested deeper are not counted. Fails if the first element in `octets` is not a valid SEQUENCE.
pub fn count_of_elements(octets: &[u8]) -> Result<usize, Error> {
    let mut reader = SliceReader::new(octets)?;
    let header = decode_header(&mut reader)?;
    header.tag().assert_eq(Tag::Sequence)?;
    let outer = reader.enter_nested(header.length())?;
    let count = count_rest(&mut reader);
    reader.close_nested(outer, count)
}

// Counts the elements up to the end of the part; each has at least one octet.
fn count_rest(reader: &mut SliceReader<'_>) -> Result<usize, Error>
    ensures { Same (slice_state reader.old) (slice_state reader.new) }
{
    let mut count = 0;
    for _ in 0..reader.remaining()?.len() {
        if reader.is_finished() {
            break;
        }
        reader.tlv_bytes()?;
        count += 1;
    }
    Ok(count)
}
