//! Written by asn1_compile from the module OCSP: change the module instead.
//!
//! KeyHash.

use der_asn1::OctetStringRef;

/// The SHA-1 hash of a public key (RFC 6960, 4.2.1). The number of its octets is not checked.
pub type KeyHash<'a> = OctetStringRef<'a>;
