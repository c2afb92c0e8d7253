//! Writing an extension, for C.
ghost use Rattle.std.specs.Prelude.{◌≡◌, ◌∷◌, [], if◌then◌else◌};
ghost use Rattle.der_base.specs.declared.tag.Tag.TheVariants.{Boolean};
ghost use Rattle.der_core.specs.Encode.{element_octets};
ghost use Rattle.der_asn1.specs.Forms.{oid_form};
ghost use Rattle.der_c_x509.specs.Assembly.{extension_contents};
ghost use Rattle.der_c_core.specs.CWriter.{KeepsOpen, writer_state};
ghost use Rattle.der_c_values.specs.WriteCalls.{WritesValue};

use crate::assembly::length::{length_span, refuse_length};
use crate::assembly::span::span;
use der_asn1::{ContentsGrammar, ObjectIdentifierGrammar};
use der_c_core::{DerError, DerWriter, der_write_parts};
use der_c_values::refuse_no_value;

/// Writes an extension of a certificate, a request or a revocation list (RFC 5280, 4.1). A list of
/// extensions is a SEQUENCE of elements that this function writes.
///
/// `identifier` are the contents octets of the OBJECT IDENTIFIER that is the type of the extension.
/// `value` is the encoding of the value of the extension. It becomes the contents of an OCTET
/// STRING, and is not checked.
///
/// After an error, `writer` has failed. Fails with:
///
/// - `Value` with the tag SEQUENCE, without a position, if `identifier` are not contents of an
///   OBJECT IDENTIFIER;
/// - the errors of `der_write_element`.
pub fn der_write_extension<'a>(
    writer: &mut DerWriter<'_>,
    identifier: &'a [u8],
    critical: bool,
    value: &'a [u8],
) -> DerError
    ensures writes { WritesValue (oid_form identifier.now)
        (extension_contents identifier.now critical value.now) 0x30 (writer_state writer.old) result
        (writer_state writer.new) }
    ensures keeps_open { KeepsOpen writer.old writer.new }
{
    if !ObjectIdentifierGrammar::matches_grammar(identifier) {
        return refuse_no_value(writer, 0x30);
    }
    let (mut first, mut second) = ([0u8; 5], [0u8; 5]);
    let Some(id_length) = length_span(identifier.len(), &mut first) else {
        return refuse_length(writer);
    };
    let Some(value_length) = length_span(value.len(), &mut second) else {
        return refuse_length(writer);
    };
    let parts = [
        span(&[0x06]),
        id_length,
        span(identifier),
        span(critical_octets(critical)),
        span(&[0x04]),
        value_length,
        span(value),
    ];
    der_write_parts(writer, 0x30, &parts)
}

// The field `critical`, which is absent if it is false (X.690 11.5).
fn critical_octets(critical: bool) -> &'static [u8]
    ensures { result.now ≡ (if critical then element_octets Boolean (255 ∷ []) else []) }
{
    if critical { &[0x01, 0x01, 0xFF] } else { &[] }
}
