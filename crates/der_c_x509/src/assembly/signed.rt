//! Writing an AlgorithmIdentifier, and signed certificates, lists and requests, for C.
ghost use Rattle.std.specs.Prelude.{◌≡◌, [], if◌then◌else◌};
ghost use Rattle.der_base.specs.declared.tag.Tag.TheVariants.{Null};
ghost use Rattle.der_core.specs.Encode.{element_octets};
ghost use Rattle.der_asn1.specs.Forms.{oid_form};
ghost use Rattle.der_c_x509.specs.Assembly.{algorithm_contents, signed_contents};
ghost use Rattle.der_c_core.specs.CWriter.{KeepsOpen, writer_state};
ghost use Rattle.der_c_core.specs.WriterCalls.{WritesElement};
ghost use Rattle.der_c_values.specs.WriteCalls.{WritesValue};

use crate::assembly::length::{length_span, refuse_length};
use crate::assembly::span::span;
use der_asn1::{ContentsGrammar, ObjectIdentifierGrammar};
use der_c_core::{DerError, DerWriter, der_write_parts};
use der_c_values::refuse_no_value;

/// Writes an AlgorithmIdentifier (RFC 5280, 4.1.1.2). `identifier` are the contents octets of the
/// OBJECT IDENTIFIER of the algorithm. If `null_parameters` is true, the parameters are NULL, which
/// is usual for RSA. Otherwise they are absent, which is usual for ECDSA and Ed25519.
///
/// After an error, `writer` has failed. Fails with:
///
/// - `Value` with the tag SEQUENCE, without a position, if `identifier` are not contents of an
///   OBJECT IDENTIFIER;
/// - the errors of `der_write_element`.
pub fn der_write_algorithm(
    writer: &mut DerWriter<'_>,
    identifier: &[u8],
    null_parameters: bool,
) -> DerError
    ensures writes { WritesValue (oid_form identifier.now)
        (algorithm_contents identifier.now null_parameters) 0x30 (writer_state writer.old) result
        (writer_state writer.new) }
    ensures keeps_open { KeepsOpen writer.old writer.new }
{
    if !ObjectIdentifierGrammar::matches_grammar(identifier) {
        return refuse_no_value(writer, 0x30);
    }
    let mut first = [0u8; 5];
    let Some(id_length) = length_span(identifier.len(), &mut first) else {
        return refuse_length(writer);
    };
    let parts = [
        span(&[0x06]),
        id_length,
        span(identifier),
        span(parameters_of(null_parameters)),
    ];
    der_write_parts(writer, 0x30, &parts)
}

// The parameters of an algorithm: a NULL, or none.
fn parameters_of(is_null: bool) -> &'static [u8]
    ensures { result.now ≡ (if is_null then element_octets Null [] else []) }
{
    if is_null { &[0x05, 0x00] } else { &[] }
}

/// Writes a signed value: a Certificate, a CertificateList (RFC 5280, 4.1 and 5.1) or a
/// CertificationRequest (RFC 2986, 4.2). Each is a SEQUENCE of the signed part, the algorithm, and
/// a BIT STRING with the octets of the signature.
///
/// `part` and `algorithm` must each be the encoding of one element, with its header. They are
/// written as they are, and are not checked.
///
/// Fails with the errors of `der_write_element`. After an error, `writer` has failed.
pub fn der_write_signed<'a>(
    writer: &mut DerWriter<'_>,
    part: &'a [u8],
    algorithm: &'a [u8],
    signature: &'a [u8],
) -> DerError
    ensures writes { WritesElement 0x30 (signed_contents part.now algorithm.now signature.now)
        (writer_state writer.old) result (writer_state writer.new) }
    ensures keeps_open { KeepsOpen writer.old writer.new }
{
    let mut first = [0u8; 5];
    let Some(length) = length_span(signature.len() + 1, &mut first) else {
        return refuse_length(writer);
    };
    let parts = [
        span(part),
        span(algorithm),
        span(&[0x03]),
        length,
        span(&[0x00]),
        span(signature),
    ];
    der_write_parts(writer, 0x30, &parts)
}
