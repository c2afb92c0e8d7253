//! Written by asn1_compile from the module PKCS-12: change the module instead.
//!
//! Pkcs8ShroudedKeyBag.

use pkcs8::EncryptedPrivateKeyInfo;

/// An encrypted private key (RFC 7292, 4.2.2).
pub type Pkcs8ShroudedKeyBag<'a> = EncryptedPrivateKeyInfo<'a>;
