//! Written by asn1_compile from the module PKCS-12: change the module instead.
//!
//! Pkcs12PbeParams.

use pkcs8::PbeParameter;

/// The parameters of encryption with a password (RFC 7292, C). They have the same fields as those
/// of PBES1, so they are the same type in Rust.
pub type Pkcs12PbeParams<'a> = PbeParameter<'a>;
