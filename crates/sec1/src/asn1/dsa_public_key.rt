//! Written by asn1_compile from the module SEC1: change the module instead.
//!
//! DsaPublicKey.

use der_asn1::IntRef;

/// A public key of DSA (RFC 3279, 2.3.2): the number y.
pub type DsaPublicKey<'a> = IntRef<'a>;
