//! Writing the signed part of a certificate, for C.
ghost use Rattle.std.specs.Prelude.{◌≡◌, ◌^◌, ◌≤◌, None, IfSome};
ghost use Rattle.der_asn1.specs.Forms.{integer_form};
ghost use Rattle.der_c_x509.specs.Assembly.{AreExtensionsHeader, certificate_contents};
ghost use Rattle.der_c_core.specs.CWriter.{KeepsOpen, writer_state};
ghost use Rattle.der_c_values.specs.WriteCalls.{WritesValue};

use crate::assembly::length::{length_span, refuse_length};
use crate::assembly::span::span;
use der_asn1::{ContentsGrammar, IntegerGrammar};
use der_c_core::{DerError, DerSpan, DerWriter, der_write_parts};
use der_c_values::refuse_no_value;

/// The parts from which a certificate is written. Each part except `serial_number` must be the
/// encoding of one element, with its header. This is not checked.
#[repr(C)]
#[derive(Clone, Copy)]
pub struct DerCertificateParts<'a> {
    /// The contents octets of the INTEGER that is the serial number, without a header.
    pub serial_number: DerSpan<'a>,
    /// The AlgorithmIdentifier of the algorithm with which the certificate will be signed.
    pub signature_algorithm: DerSpan<'a>,
    /// The Name of the issuer.
    pub issuer: DerSpan<'a>,
    /// The Validity: the period in which the certificate is valid.
    pub validity: DerSpan<'a>,
    /// The Name of the subject.
    pub subject: DerSpan<'a>,
    /// The SubjectPublicKeyInfo of the subject.
    pub public_key: DerSpan<'a>,
    /// The list of extensions: the SEQUENCE Extensions. If there are no octets, the certificate has
    /// no extensions.
    pub extensions: DerSpan<'a>,
}

impl DerCertificateParts<'_> {
    /// The value before the parts are set: all parts are empty.
    pub const EMPTY: DerCertificateParts<'static> = DerCertificateParts {
        serial_number: DerSpan::EMPTY,
        signature_algorithm: DerSpan::EMPTY,
        issuer: DerSpan::EMPTY,
        validity: DerSpan::EMPTY,
        subject: DerSpan::EMPTY,
        public_key: DerSpan::EMPTY,
        extensions: DerSpan::EMPTY,
    };
}

/// Writes a TBSCertificate of version 3 without unique identifiers (RFC 5280, 4.1). It is the part
/// of a certificate that is signed. The serial number is checked. All other `parts` are written as
/// they are, and are not checked.
///
/// After an error, `writer` has failed. Fails with:
///
/// - `Value` with the tag SEQUENCE, without a position, if the serial number has no octets, or more
///   than its number needs;
/// - the errors of `der_write_element`.
pub fn der_write_certificate_part(
    writer: &mut DerWriter<'_>,
    parts: &DerCertificateParts<'_>,
) -> DerError
    ensures writes { WritesValue (integer_form parts.now.serial_number.octets.now)
        (certificate_contents parts.now) 0x30 (writer_state writer.old) result
        (writer_state writer.new) }
    ensures keeps_open { KeepsOpen writer.old writer.new }
{
    let (number, extensions) = (parts.serial_number.octets, parts.extensions.octets);
    if !IntegerGrammar::matches_grammar(number) {
        return refuse_no_value(writer, 0x30);
    }
    let (mut first, mut second) = ([0u8; 5], [0u8; 5]);
    let Some(number_length) = length_span(number.len(), &mut first) else {
        return refuse_length(writer);
    };
    let Some((tag, length)) = extensions_header(extensions.len(), &mut second) else {
        return refuse_length(writer);
    };
    let all = [
        span(&VERSION),
        number_length,
        parts.serial_number,
        parts.signature_algorithm,
        parts.issuer,
        parts.validity,
        parts.subject,
        parts.public_key,
        tag,
        length,
        parts.extensions,
    ];
    der_write_parts(writer, 0x30, &all)
}

// The tag and the length octets before extensions of so many octets, or no octets if these are none;
// `None` if a length cannot count them.
fn extensions_header<'b>(count: usize, space: &'b mut [u8; 5]) -> Option<(DerSpan<'b>, DerSpan<'b>)>
    ensures some { IfSome result (λ h. AreExtensionsHeader h.0.octets.now h.1.octets.now count) }
    ensures none { result ≡ None → 2 ^ 32 ≤ count }
{
    if count == 0 {
        return Some((DerSpan::EMPTY, DerSpan::EMPTY));
    }
    let length = length_span(count, space)?;
    Some((span(&[0xA3]), length))
}

// The version with its tag, an INTEGER 2, and the tag of the serial number.
const VERSION: [u8; 6] = [0xA0, 0x03, 0x02, 0x01, 0x02, 0x02];
