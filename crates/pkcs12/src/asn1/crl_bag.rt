//! Written by asn1_compile from the module PKCS-12: change the module instead.
//!
//! CrlBag.

use crate::asn1::cert_bag::CertBag;

/// A revocation list of any type (RFC 7292, 4.2.4). It has the same fields as a CertBag, so it is
/// the same type in Rust: `oid` is the type of the list.
pub type CrlBag<'a> = CertBag<'a>;
