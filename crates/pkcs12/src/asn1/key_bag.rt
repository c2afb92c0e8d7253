//! Written by asn1_compile from the module PKCS-12: change the module instead.
//!
//! KeyBag.

use pkcs8::PrivateKeyInfo;

/// A private key (RFC 7292, 4.2.1).
pub type KeyBag<'a> = PrivateKeyInfo<'a>;
