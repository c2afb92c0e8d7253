//! Written by asn1_compile from the module PKCS-12: change the module instead.
//!
//! SecretBag.

use crate::asn1::cert_bag::CertBag;

/// A secret of any type (RFC 7292, 4.2.5). It has the same fields as a CertBag, so it is the same
/// type in Rust: `oid` is the type of the secret.
pub type SecretBag<'a> = CertBag<'a>;
