//! Writing values whose contents are passed as octets and are checked, for C.
ghost use Rattle.der_asn1.specs.Forms.{integer_form, oid_form};
ghost use Rattle.der_c_core.specs.CWriter.{KeepsOpen, writer_state};
ghost use Rattle.der_c_values.specs.StringTypes.{string_form};
ghost use Rattle.der_c_values.specs.WriteCalls.{WritesValue};

use crate::text::has_form;
use crate::write_refusal::refuse_no_value;
use der_asn1::{ContentsGrammar, IntegerGrammar, ObjectIdentifierGrammar};
use der_c_core::{DerError, DerWriter, der_write_element};

/// Writes an INTEGER of any size (X.690 8.3) with the tag word `tag` (see `DerElement::tag`).
/// `octets` are its contents: a number in two's complement, the most significant octet first, with
/// as few octets as possible.
///
/// After an error, `writer` has failed. Fails with:
///
/// - `Value` with the tag `tag`, without a position, if there are no `octets`, or more than the
///   number needs;
/// - the errors of `der_write_element`.
#[inline(always)]
pub fn der_write_integer(writer: &mut DerWriter<'_>, tag: u64, octets: &[u8]) -> DerError
    ensures writes { WritesValue (integer_form octets.now) octets.now tag
        (writer_state writer.old) result (writer_state writer.new) }
    ensures keeps_open { KeepsOpen writer.old writer.new }
{
    if !IntegerGrammar::matches_grammar(octets) {
        return refuse_no_value(writer, tag);
    }
    der_write_element(writer, tag, octets)
}

/// Writes an OBJECT IDENTIFIER (X.690 8.19) with the tag word `tag` (see `DerElement::tag`).
/// `octets` are its contents octets.
///
/// After an error, `writer` has failed. Fails with:
///
/// - `Value` with the tag `tag`, without a position, if `octets` are not contents of an OBJECT
///   IDENTIFIER;
/// - the errors of `der_write_element`.
#[inline(always)]
pub fn der_write_oid(writer: &mut DerWriter<'_>, tag: u64, octets: &[u8]) -> DerError
    ensures writes { WritesValue (oid_form octets.now) octets.now tag
        (writer_state writer.old) result (writer_state writer.new) }
    ensures keeps_open { KeepsOpen writer.old writer.new }
{
    if !ObjectIdentifierGrammar::matches_grammar(octets) {
        return refuse_no_value(writer, tag);
    }
    der_write_element(writer, tag, octets)
}

/// Writes a string of the type `string_type` (X.680 41, X.690 8.23) with the tag word `tag` (see
/// `DerElement::tag`). `string_type` is one of the tag words that `der_read_text` names, and
/// `octets` are the contents.
///
/// After an error, `writer` has failed. Fails with:
///
/// - `Value` with the tag `tag`, without a position, if `octets` are not characters of the type, or
///   if `string_type` is not the tag word of a string type;
/// - the errors of `der_write_element`.
#[inline(always)]
pub fn der_write_text(
    writer: &mut DerWriter<'_>,
    tag: u64,
    string_type: u64,
    octets: &[u8],
) -> DerError
    ensures writes { WritesValue (string_form string_type octets.now) octets.now tag
        (writer_state writer.old) result (writer_state writer.new) }
    ensures keeps_open { KeepsOpen writer.old writer.new }
{
    if !has_form(string_type, octets) {
        return refuse_no_value(writer, tag);
    }
    der_write_element(writer, tag, octets)
}
