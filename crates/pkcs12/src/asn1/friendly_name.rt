//! Written by asn1_compile from the module PKCS-12: change the module instead.
//!
//! FriendlyName.

use der_asn1::BmpStringRef;

/// A name for users (RFC 2985, 5.5.1): the value of an attribute.
pub type FriendlyName<'a> = BmpStringRef<'a>;
