//! Writing a RelativeDistinguishedName, for C.
ghost use Rattle.std.specs.Prelude.{◌&&◌};
ghost use Rattle.der_asn1.specs.Forms.{oid_form};
ghost use Rattle.der_c_x509.specs.Assembly.{attribute_octets, string_tag};
ghost use Rattle.der_c_core.specs.CWriter.{KeepsOpen, writer_state};
ghost use Rattle.der_c_values.specs.StringTypes.{string_form};
ghost use Rattle.der_c_values.specs.WriteCalls.{WritesValue};

use crate::assembly::length::{length_span, refuse_length};
use crate::assembly::span::span;
use der_asn1::{ContentsGrammar, ObjectIdentifierGrammar};
use der_c_core::{DerError, DerWriter, der_write_parts};
use der_c_values::{has_form, refuse_no_value};

/// Writes a RelativeDistinguishedName with one attribute (RFC 5280, 4.1.2.4). It is a SET of one
/// SEQUENCE, which has the type and the value of the attribute. A Name is a SEQUENCE of
/// RelativeDistinguishedNames.
///
/// `identifier` are the contents octets of the OBJECT IDENTIFIER that is the type. The value is a
/// string of the type `string_type`, and `text` are its contents octets. `string_type` is one of
/// the tag words that `der_read_text` names.
///
/// After an error, `writer` has failed. Fails with:
///
/// - `Value` with the tag SET, without a position, if `identifier` are not contents of an OBJECT
///   IDENTIFIER, if `text` are not characters of the type, or if `string_type` is not the tag word
///   of a string type;
/// - the errors of `der_write_element`.
pub fn der_write_name_attribute<'a>(
    writer: &mut DerWriter<'_>,
    identifier: &'a [u8],
    string_type: u64,
    text: &'a [u8],
) -> DerError
    ensures writes { WritesValue (oid_form identifier.now && string_form string_type text.now)
        (attribute_octets identifier.now (string_tag string_type) text.now) 0x31
        (writer_state writer.old) result (writer_state writer.new) }
    ensures keeps_open { KeepsOpen writer.old writer.new }
{
    if !ObjectIdentifierGrammar::matches_grammar(identifier) || !has_form(string_type, text) {
        return refuse_no_value(writer, 0x31);
    }
    let (mut first, mut second, mut third) = ([0u8; 5], [0u8; 5], [0u8; 5]);
    let Some(id_length) = length_span(identifier.len(), &mut first) else {
        return refuse_length(writer);
    };
    let Some(text_length) = length_span(text.len(), &mut second) else {
        return refuse_length(writer);
    };
    let lengths = 2 + id_length.octets.len() + text_length.octets.len();
    let Some(length) = length_span(lengths + identifier.len() + text.len(), &mut third) else {
        return refuse_length(writer);
    };
    let type_octet = [string_type as u8];
    let parts = [
        span(&[0x30]),
        length,
        span(&[0x06]),
        id_length,
        span(identifier),
        span(&type_octet),
        text_length,
        span(text),
    ];
    der_write_parts(writer, 0x31, &parts)
}
