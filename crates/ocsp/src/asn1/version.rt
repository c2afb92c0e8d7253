//! Written by asn1_compile from the module OCSP: change the module instead.
//!
//! Version.

use der_asn1::IntRef;

/// The version of a request or response (RFC 6960, 4.1.1).
pub type Version<'a> = IntRef<'a>;
