//! Written by asn1_compile from the module CMS: change the module instead.
//!
//! ContentType.

use der_asn1::ObjectIdentifierRef;

/// The type of a content (RFC 5652, 3 and 11.1).
pub type ContentType<'a> = ObjectIdentifierRef<'a>;
