//! Reading an OBJECT IDENTIFIER, for C.
ghost use Rattle.der_asn1.specs.Forms.{oid_form};
ghost use Rattle.der_core.specs.ReaderState.{Same};
ghost use Rattle.der_c_core.specs.CReader.{reader_state};
ghost use Rattle.der_c_values.specs.ValueCalls.{ReadsValue, IsValueOf};
ghost use Rattle.der_c_values.specs.ValueContents.{span_contents};

use crate::contents::read_octets;
use crate::refusal::refuse_value;
use der_asn1::{ContentsGrammar, ObjectIdentifierGrammar};
use der_c_core::{DerError, DerReader, DerSpan};

/// Reads an OBJECT IDENTIFIER (X.690 8.19), and sets `oid` to its contents octets. The next element
/// must have the tag word `tag` (see `DerElement::tag`).
///
/// A call that fails leaves `oid` unchanged. Fails with:
///
/// - the errors of `der_expect`;
/// - `Value` with the tag `tag`, at the position after the element, if the contents are empty, if
///   they end inside a subidentifier, or if a subidentifier begins with the octet `0x80`.
#[inline(always)]
pub fn der_read_oid<'a>(reader: &mut DerReader<'a>, tag: u64, oid: &mut DerSpan<'a>) -> DerError
    ensures same { Same (reader_state reader.old) (reader_state reader.new) }
    ensures reads { ReadsValue oid_form (IsValueOf span_contents) tag
        (reader_state reader.old) result oid.old oid.new (reader_state reader.new) }
{
    let octets = match read_octets(reader, tag) {
        Ok(octets) => octets,
        Err(error) => return error,
    };
    if !ObjectIdentifierGrammar::matches_grammar(octets) {
        return refuse_value(reader, tag);
    }
    *oid = DerSpan { octets };
    DerError::NONE
}
