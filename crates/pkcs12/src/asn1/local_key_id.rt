//! Written by asn1_compile from the module PKCS-12: change the module instead.
//!
//! LocalKeyId.

use der_asn1::OctetStringRef;

/// An identifier that a private key and its certificate share (RFC 2985, 5.5.2): the value of an
/// attribute.
pub type LocalKeyId<'a> = OctetStringRef<'a>;
