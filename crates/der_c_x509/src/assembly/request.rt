//! Writing the signed part of a certification request, for C.
ghost use Rattle.der_c_x509.specs.Assembly.{request_contents};
ghost use Rattle.der_c_core.specs.CWriter.{KeepsOpen, writer_state};
ghost use Rattle.der_c_core.specs.WriterCalls.{WritesElement};

use crate::assembly::length::{length_span, refuse_length};
use crate::assembly::span::span;
use der_c_core::{DerError, DerWriter, der_write_parts};

/// Writes a CertificationRequestInfo (PKCS #10; RFC 2986, 4.1). It is the part of a request that is
/// signed. The arguments are encodings, which are written as they are and are not checked:
///
/// - `subject` is a Name.
/// - `public_key` is a SubjectPublicKeyInfo.
/// - `extensions` is the list of extensions that the certificate is to have (RFC 2985, 5.4.2). If
///   it has no octets, the request has no attributes.
///
/// Fails with the errors of `der_write_element`. After an error, `writer` has failed.
pub fn der_write_request_part<'a>(
    writer: &mut DerWriter<'_>,
    subject: &'a [u8],
    public_key: &'a [u8],
    extensions: &'a [u8],
) -> DerError
    ensures writes { WritesElement 0x30
        (request_contents subject.now public_key.now extensions.now) (writer_state writer.old) result
        (writer_state writer.new) }
    ensures keeps_open { KeepsOpen writer.old writer.new }
{
    if extensions.is_empty() {
        let parts = [
            span(&VERSION),
            span(subject),
            span(public_key),
            span(&[0xA0, 0x00]),
        ];
        return der_write_parts(writer, 0x30, &parts);
    }
    let (mut first, mut second, mut third) = ([0u8; 5], [0u8; 5], [0u8; 5]);
    let Some(values) = length_span(extensions.len(), &mut first) else {
        return refuse_length(writer);
    };
    let inner = EXTENSION_REQUEST.len() + 1 + values.octets.len() + extensions.len();
    let Some(attribute) = length_span(inner, &mut second) else {
        return refuse_length(writer);
    };
    let Some(attributes) = length_span(1 + attribute.octets.len() + inner, &mut third) else {
        return refuse_length(writer);
    };
    let parts = [
        span(&VERSION),
        span(subject),
        span(public_key),
        span(&[0xA0]),
        attributes,
        span(&[0x30]),
        attribute,
        span(&EXTENSION_REQUEST),
        span(&[0x31]),
        values,
        span(extensions),
    ];
    der_write_parts(writer, 0x30, &parts)
}

// The INTEGER 0: version 1.
const VERSION: [u8; 3] = [0x02, 0x01, 0x00];

// The OBJECT IDENTIFIER extensionRequest, 1.2.840.113549.1.9.14.
const EXTENSION_REQUEST: [u8; 11] = [
    0x06, 0x09, 0x2A, 0x86, 0x48, 0x86, 0xF7, 0x0D, 0x01, 0x09, 0x0E,
];
