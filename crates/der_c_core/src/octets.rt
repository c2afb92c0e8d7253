//! Finding all octets of an element, its header included, for C.
ghost use Rattle.std.specs.Prelude.{◌≡◌};
ghost use Rattle.der_c_core.specs.CReader.{reader_state};
ghost use Rattle.der_c_core.specs.Octets.{GivesOctets};

use crate::element::DerElement;
use crate::error::{DerError, foreign};
use crate::reader::DerReader;
use crate::span::DerSpan;

/// Sets `octets` to all octets of `element`: its header, its contents, and the end-of-contents
/// octets of an indefinite length. `octets` are borrowed from the input of `reader`. `element` must
/// have been read from this input.
///
/// A call that fails leaves `octets` unchanged. Fails with:
///
/// - `Failed` at the position of `reader`, if `reader` has failed;
/// - `Reader` without a position, if `element` does not lie in the input of `reader`.
#[inline(always)]
pub fn der_element_octets<'a>(
    reader: &DerReader<'a>,
    element: &DerElement<'a>,
    octets: &mut DerSpan<'a>,
) -> DerError
    ensures { GivesOctets (reader_state reader.now) element.now result octets.old octets.new }
{
    if reader.failed {
        return reader.refuse();
    }
    let start = element.start as usize;
    let contents = element.contents_start as usize;
    let length = element.contents.len();
    let closing = if element.indefinite { 2 } else { 0 };
    let space = reader.octets.len();
    if start > contents || contents + closing > space || length > space - contents - closing {
        return foreign();
    }
    *octets = DerSpan {
        octets: &reader.octets[start..contents + length + closing],
    };
    DerError::NONE
}
