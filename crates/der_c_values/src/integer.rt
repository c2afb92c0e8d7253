//! Reading an INTEGER, for C.
ghost use Rattle.std.specs.Prelude.{◌^◌, false};
ghost use Rattle.der_asn1.specs.Forms.{integer_form};
ghost use Rattle.der_asn1.specs.Integer.{signed_form, unsigned_form, integer_octets, signed_octets};
ghost use Rattle.der_core.specs.ReaderState.{Same};
ghost use Rattle.der_c_core.specs.CReader.{reader_state};
ghost use Rattle.der_c_values.specs.ValueCalls.{ReadsValue, IsValueOf};
ghost use Rattle.der_c_values.specs.ValueContents.{span_contents};

use crate::contents::read_octets;
use crate::refusal::refuse_value;
use der_asn1::{ContentsGrammar, IntegerGrammar, IntegerNumber};
use der_c_core::{DerError, DerReader, DerSpan};

/// Reads an INTEGER from 0 to 18446744073709551615 (X.690 8.3) into `value`. The next element must
/// have the tag word `tag` (see `DerElement::tag`).
///
/// A call that fails leaves `value` unchanged. Fails with:
///
/// - the errors of `der_expect`;
/// - `Value` with the tag `tag`, at the position after the element, if the contents are empty, if
///   they have more octets than the number needs, or if the number is out of range.
#[inline(always)]
pub fn der_read_uint64(reader: &mut DerReader<'_>, tag: u64, value: &mut u64) -> DerError
    ensures same { Same (reader_state reader.old) (reader_state reader.new) }
    ensures reads { ReadsValue (unsigned_form (2 ^ 64)) (IsValueOf (integer_octets false)) tag
        (reader_state reader.old) result value.old value.new (reader_state reader.new) }
{
    let octets = match read_octets(reader, tag) {
        Ok(octets) => octets,
        Err(error) => return error,
    };
    let Some(number) = u64::from_contents(octets) else {
        return refuse_value(reader, tag);
    };
    *value = number;
    DerError::NONE
}

/// Reads an INTEGER from -9223372036854775808 to 9223372036854775807 (X.690 8.3) into `value`. The
/// next element must have the tag word `tag` (see `DerElement::tag`). If `tag` is the tag word of
/// ENUMERATED, the function reads an ENUMERATED (X.690 8.4).
///
/// A call that fails leaves `value` unchanged. Fails with:
///
/// - the errors of `der_expect`;
/// - `Value` with the tag `tag`, at the position after the element, if the contents are empty, if
///   they have more octets than the number needs, or if the number is out of range.
#[inline(always)]
pub fn der_read_int64(reader: &mut DerReader<'_>, tag: u64, value: &mut i64) -> DerError
    ensures same { Same (reader_state reader.old) (reader_state reader.new) }
    ensures reads { ReadsValue (signed_form (2 ^ 63)) (IsValueOf signed_octets) tag
        (reader_state reader.old) result value.old value.new (reader_state reader.new) }
{
    let octets = match read_octets(reader, tag) {
        Ok(octets) => octets,
        Err(error) => return error,
    };
    let Some(number) = i64::from_contents(octets) else {
        return refuse_value(reader, tag);
    };
    *value = number;
    DerError::NONE
}

/// Reads an INTEGER of any size (X.690 8.3), and sets `value` to its contents. They are a number in
/// two's complement, the most significant octet first, with as few octets as possible, but at least
/// one. The next element must have the tag word `tag` (see `DerElement::tag`).
///
/// A call that fails leaves `value` unchanged. Fails with:
///
/// - the errors of `der_expect`;
/// - `Value` with the tag `tag`, at the position after the element, if the contents are empty or
///   have more octets than the number needs.
#[inline(always)]
pub fn der_read_integer<'a>(
    reader: &mut DerReader<'a>,
    tag: u64,
    value: &mut DerSpan<'a>,
) -> DerError
    ensures same { Same (reader_state reader.old) (reader_state reader.new) }
    ensures reads { ReadsValue integer_form (IsValueOf span_contents) tag
        (reader_state reader.old) result value.old value.new (reader_state reader.new) }
{
    let octets = match read_octets(reader, tag) {
        Ok(octets) => octets,
        Err(error) => return error,
    };
    if !IntegerGrammar::matches_grammar(octets) {
        return refuse_value(reader, tag);
    }
    *value = DerSpan { octets };
    DerError::NONE
}
