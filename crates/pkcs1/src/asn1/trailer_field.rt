//! Written by asn1_compile from the module PKCS-1: change the module instead.
//!
//! TrailerField.

use der_asn1::IntRef;

/// The trailer of a signature with PSS, as a number (RFC 8017, A.2.3).
pub type TrailerField<'a> = IntRef<'a>;
