//! Reading a BOOLEAN, for C.
ghost use Rattle.der_asn1.specs.Forms.{boolean_form};
ghost use Rattle.der_core.specs.ReaderState.{Same};
ghost use Rattle.der_c_core.specs.CReader.{reader_state};
ghost use Rattle.der_c_values.specs.ValueCalls.{ReadsValue, IsValueOf};
ghost use Rattle.der_c_values.specs.ValueContents.{boolean_contents};

use crate::contents::read_octets;
use crate::refusal::refuse_value;
use der_asn1::{BooleanGrammar, ContentsGrammar};
use der_c_core::{DerError, DerReader};

/// Reads a BOOLEAN (X.690 8.2, 11.1) into `value`. The next element must have the tag word `tag`
/// (see `DerElement::tag`).
///
/// A call that fails leaves `value` unchanged. Fails with:
///
/// - the errors of `der_expect`;
/// - `Value` with the tag `tag`, at the position after the element, if the contents are not exactly
///   one octet, `0x00` or `0xFF`.
#[inline(always)]
pub fn der_read_boolean(reader: &mut DerReader<'_>, tag: u64, value: &mut bool) -> DerError
    ensures same { Same (reader_state reader.old) (reader_state reader.new) }
    ensures reads { ReadsValue boolean_form (IsValueOf boolean_contents) tag
        (reader_state reader.old) result value.old value.new (reader_state reader.new) }
{
    let octets = match read_octets(reader, tag) {
        Ok(octets) => octets,
        Err(error) => return error,
    };
    if !BooleanGrammar::matches_grammar(octets) {
        return refuse_value(reader, tag);
    }
    *value = octets[0] == 0xFF;
    DerError::NONE
}
