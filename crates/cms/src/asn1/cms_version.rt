//! Written by asn1_compile from the module CMS: change the module instead.
//!
//! CmsVersion.

use der_asn1::IntRef;

/// The version of the syntax of a structure (RFC 5652, 10.2.5). Decoding accepts every number, and
/// does not compare it with the other fields.
pub type CmsVersion<'a> = IntRef<'a>;
