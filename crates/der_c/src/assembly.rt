//! Names, extensions, requests and certificates that are written from parts, for C.
//!
//! Written by tools/c_interface: change the crates that der_c uses instead.
ghost use Rattle.der_asn1.specs.Forms.{integer_form, oid_form};
ghost use Rattle.der_c_core.specs.CWriter.{KeepsOpen, writer_state};
ghost use Rattle.der_c_core.specs.WriterCalls.{WritesElement};
ghost use Rattle.der_c_values.specs.StringTypes.{string_form};
ghost use Rattle.der_c_values.specs.WriteCalls.{WritesValue};
ghost use Rattle.der_c_x509.specs.Assembly.{algorithm_contents, attribute_octets, certificate_contents, extension_contents, request_contents, signed_contents, string_tag};
ghost use Rattle.der_c_x509.specs.Validities.{WritesValidity};
ghost use Rattle.std.specs.Prelude.{◌&&◌};

use der_c_core::{DerError, DerWriter};
use der_c_x509::DerCertificateParts;

/// Writes a RelativeDistinguishedName with one attribute (RFC 5280, 4.1.2.4). It is a SET of one
/// SEQUENCE, which has the type and the value of the attribute. A Name is a SEQUENCE of
/// RelativeDistinguishedNames.
///
/// `identifier` are the contents octets of the OBJECT IDENTIFIER that is the type. The value is a
/// string of the type `string_type`, and `text` are its contents octets. `string_type` is one of
/// the tag words that `der_read_text` names.
///
/// After an error, `writer` has failed. Fails with:
///
/// - `Value` with the tag SET, without a position, if `identifier` are not contents of an OBJECT
///   IDENTIFIER, if `text` are not characters of the type, or if `string_type` is not the tag word
///   of a string type;
/// - the errors of `der_write_element`.
#[unsafe(no_mangle)]
pub extern "C" fn der_write_name_attribute<'a>(
    writer: &mut DerWriter<'_>,
    identifier: &'a [u8],
    string_type: u64,
    text: &'a [u8],
) -> DerError
    ensures writes { WritesValue (oid_form identifier.now && string_form string_type text.now)
        (attribute_octets identifier.now (string_tag string_type) text.now) 0x31
        (writer_state writer.old) result (writer_state writer.new) }
    ensures keeps_open { KeepsOpen writer.old writer.new }
{
    der_c_x509::der_write_name_attribute(writer, identifier, string_type, text)
}

/// Writes an extension of a certificate, a request or a revocation list (RFC 5280, 4.1). A list of
/// extensions is a SEQUENCE of elements that this function writes.
///
/// `identifier` are the contents octets of the OBJECT IDENTIFIER that is the type of the extension.
/// `value` is the encoding of the value of the extension. It becomes the contents of an OCTET
/// STRING, and is not checked.
///
/// After an error, `writer` has failed. Fails with:
///
/// - `Value` with the tag SEQUENCE, without a position, if `identifier` are not contents of an
///   OBJECT IDENTIFIER;
/// - the errors of `der_write_element`.
#[unsafe(no_mangle)]
pub extern "C" fn der_write_extension<'a>(
    writer: &mut DerWriter<'_>,
    identifier: &'a [u8],
    critical: bool,
    value: &'a [u8],
) -> DerError
    ensures writes { WritesValue (oid_form identifier.now)
        (extension_contents identifier.now critical value.now) 0x30 (writer_state writer.old) result
        (writer_state writer.new) }
    ensures keeps_open { KeepsOpen writer.old writer.new }
{
    der_c_x509::der_write_extension(writer, identifier, critical, value)
}

/// Writes an AlgorithmIdentifier (RFC 5280, 4.1.1.2). `identifier` are the contents octets of the
/// OBJECT IDENTIFIER of the algorithm. If `null_parameters` is true, the parameters are NULL, which
/// is usual for RSA. Otherwise they are absent, which is usual for ECDSA and Ed25519.
///
/// After an error, `writer` has failed. Fails with:
///
/// - `Value` with the tag SEQUENCE, without a position, if `identifier` are not contents of an
///   OBJECT IDENTIFIER;
/// - the errors of `der_write_element`.
#[unsafe(no_mangle)]
pub extern "C" fn der_write_algorithm(
    writer: &mut DerWriter<'_>,
    identifier: &[u8],
    null_parameters: bool,
) -> DerError
    ensures writes { WritesValue (oid_form identifier.now)
        (algorithm_contents identifier.now null_parameters) 0x30 (writer_state writer.old) result
        (writer_state writer.new) }
    ensures keeps_open { KeepsOpen writer.old writer.new }
{
    der_c_x509::der_write_algorithm(writer, identifier, null_parameters)
}

/// Writes a CertificationRequestInfo (PKCS #10; RFC 2986, 4.1). It is the part of a request that is
/// signed. The arguments are encodings, which are written as they are and are not checked:
///
/// - `subject` is a Name.
/// - `public_key` is a SubjectPublicKeyInfo.
/// - `extensions` is the list of extensions that the certificate is to have (RFC 2985, 5.4.2). If
///   it has no octets, the request has no attributes.
///
/// Fails with the errors of `der_write_element`. After an error, `writer` has failed.
#[unsafe(no_mangle)]
pub extern "C" fn der_write_request_part<'a>(
    writer: &mut DerWriter<'_>,
    subject: &'a [u8],
    public_key: &'a [u8],
    extensions: &'a [u8],
) -> DerError
    ensures writes { WritesElement 0x30
        (request_contents subject.now public_key.now extensions.now) (writer_state writer.old) result
        (writer_state writer.new) }
    ensures keeps_open { KeepsOpen writer.old writer.new }
{
    der_c_x509::der_write_request_part(writer, subject, public_key, extensions)
}

/// Writes a Validity (RFC 5280, 4.1.2.5), which is a SEQUENCE of two times. `not_before` and
/// `not_after` are these times, in seconds since 1970-01-01T00:00:00Z. A time from 1950 to 2049 is
/// written as a UTCTime, and any other time as a GeneralizedTime. Does not check that `not_before`
/// is before `not_after`.
///
/// After an error, `writer` has failed, and the octets that were already written remain. Fails
/// with:
///
/// - the errors of `der_write_header`;
/// - the errors of `der_write_time_seconds` for each time.
#[unsafe(no_mangle)]
pub extern "C" fn der_write_validity(
    writer: &mut DerWriter<'_>,
    not_before: i64,
    not_after: i64,
) -> DerError
    ensures writes { WritesValidity not_before not_after (writer_state writer.old) result
        (writer_state writer.new) }
    ensures keeps_open { KeepsOpen writer.old writer.new }
{
    der_c_x509::der_write_validity(writer, not_before, not_after)
}

/// Writes a TBSCertificate of version 3 without unique identifiers (RFC 5280, 4.1). It is the part
/// of a certificate that is signed. The serial number is checked. All other `parts` are written as
/// they are, and are not checked.
///
/// After an error, `writer` has failed. Fails with:
///
/// - `Value` with the tag SEQUENCE, without a position, if the serial number has no octets, or more
///   than its number needs;
/// - the errors of `der_write_element`.
#[unsafe(no_mangle)]
pub extern "C" fn der_write_certificate_part(
    writer: &mut DerWriter<'_>,
    parts: &DerCertificateParts<'_>,
) -> DerError
    ensures writes { WritesValue (integer_form parts.now.serial_number.octets.now)
        (certificate_contents parts.now) 0x30 (writer_state writer.old) result
        (writer_state writer.new) }
    ensures keeps_open { KeepsOpen writer.old writer.new }
{
    der_c_x509::der_write_certificate_part(writer, parts)
}

/// Writes a signed value: a Certificate, a CertificateList (RFC 5280, 4.1 and 5.1) or a
/// CertificationRequest (RFC 2986, 4.2). Each is a SEQUENCE of the signed part, the algorithm, and
/// a BIT STRING with the octets of the signature.
///
/// `part` and `algorithm` must each be the encoding of one element, with its header. They are
/// written as they are, and are not checked.
///
/// Fails with the errors of `der_write_element`. After an error, `writer` has failed.
#[unsafe(no_mangle)]
pub extern "C" fn der_write_signed<'a>(
    writer: &mut DerWriter<'_>,
    part: &'a [u8],
    algorithm: &'a [u8],
    signature: &'a [u8],
) -> DerError
    ensures writes { WritesElement 0x30 (signed_contents part.now algorithm.now signature.now)
        (writer_state writer.old) result (writer_state writer.new) }
    ensures keeps_open { KeepsOpen writer.old writer.new }
{
    der_c_x509::der_write_signed(writer, part, algorithm, signature)
}
