//! Reading a NULL, for C.
ghost use Rattle.der_asn1.specs.Forms.{null_form};
ghost use Rattle.der_core.specs.ReaderState.{Same};
ghost use Rattle.der_c_core.specs.CReader.{reader_state};
ghost use Rattle.der_c_values.specs.ValueCalls.{ReadsValue, IsValueOf};
ghost use Rattle.der_c_values.specs.ValueContents.{null_contents};

use crate::contents::read_octets;
use crate::refusal::refuse_value;
use der_asn1::{ContentsGrammar, NullGrammar};
use der_c_core::{DerError, DerReader};

/// Reads a NULL (X.690 8.8). The next element must have the tag word `tag` (see `DerElement::tag`).
///
/// Fails with:
///
/// - the errors of `der_expect`;
/// - `Value` with the tag `tag`, at the position after the element, if the element has contents.
#[inline(always)]
pub fn der_read_null(reader: &mut DerReader<'_>, tag: u64) -> DerError
    ensures same { Same (reader_state reader.old) (reader_state reader.new) }
    ensures reads { ReadsValue null_form (IsValueOf null_contents) tag
        (reader_state reader.old) result tt tt (reader_state reader.new) }
{
    let octets = match read_octets(reader, tag) {
        Ok(octets) => octets,
        Err(error) => return error,
    };
    if !NullGrammar::matches_grammar(octets) {
        return refuse_value(reader, tag);
    }
    DerError::NONE
}
