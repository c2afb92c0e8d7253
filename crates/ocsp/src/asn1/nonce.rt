//! Written by asn1_compile from the module OCSP: change the module instead.
//!
//! Nonce.

use der_asn1::OctetStringRef;

/// Octets of a request that its response repeats (RFC 6960, 4.4.1).
pub type Nonce<'a> = OctetStringRef<'a>;
