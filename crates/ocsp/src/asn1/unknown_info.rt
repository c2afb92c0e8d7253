//! Written by asn1_compile from the module OCSP: change the module instead.
//!
//! UnknownInfo.

use der_asn1::Null;

/// The contents of the status `unknown` (RFC 6960, 4.2.1): a NULL, which says nothing more.
pub type UnknownInfo<'a> = Null<'a>;
