//! Written by asn1_compile from the module CMS: change the module instead.
//!
//! MessageDigest.

use der_asn1::OctetStringRef;

/// The digest of a content (RFC 5652, 11.2): the value of an attribute.
pub type MessageDigest<'a> = OctetStringRef<'a>;
