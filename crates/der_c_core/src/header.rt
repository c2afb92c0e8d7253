//! Reading headers of elements, for C.
ghost use Rattle.std.specs.Prelude.{◌≡◌};
ghost use Rattle.der_core.specs.ReaderState.{Same};
ghost use Rattle.der_core.specs.Header.{head_of};
ghost use Rattle.der_c_core.specs.HeaderCall.{ReadsHeader, header_record};
ghost use Rattle.der_c_core.specs.CReader.{reader_state};

use crate::error::DerError;
use crate::reader::DerReader;
use crate::tag::word_of;
use der_core::{Header, decode_header};

/// The header of an element.
#[repr(C)]
#[derive(Clone, Copy)]
pub struct DerHeader {
    /// The tag word, `der_tag` in C: the first octet of the identifier, plus 256 times the tag
    /// number if the number is 31 or more.
    pub tag: u64,
    /// The number of contents octets. If the length was read in the indefinite form, the two
    /// end-of-contents octets are included.
    pub length: u32,
    /// Whether the constructed bit of the identifier is set.
    pub constructed: bool,
    /// Whether the length was read in the indefinite form.
    pub indefinite: bool,
}

// The C form of a header.
#[inline(always)]
fn c_header(header: Header) -> DerHeader
    ensures { result ≡ header_record (head_of header) }
{
    let length = header.length();
    DerHeader {
        tag: word_of(header.tag()),
        length: u32::from(length),
        constructed: header.is_constructed(),
        indefinite: length.is_indefinite(),
    }
}

/// Reads the header of the next element into `header`, as `der_core::decode_header` does. The
/// contents are not consumed. Under the Basic Encoding Rules, the contents of an indefinite length
/// are scanned to find their end.
///
/// A call that fails leaves `header` unchanged, and `reader` has failed after it. Fails with
/// `Failed`, `Overflow`, `Incomplete`, `TagUnknown`, `TagNumberInvalid`, `IndefiniteLength`,
/// `Length` and `NestingDepth`.
#[inline(always)]
pub fn der_read_header(reader: &mut DerReader<'_>, header: &mut DerHeader) -> DerError
    ensures same { Same (reader_state reader.old) (reader_state reader.new) }
    ensures reads { ReadsHeader (reader_state reader.old) result header.old header.new
        (reader_state reader.new) }
{
    match decode_header(reader) {
        Ok(read) => {
            *header = c_header(read);
            DerError::NONE
        }
        Err(error) => reader.fail(error),
    }
}
