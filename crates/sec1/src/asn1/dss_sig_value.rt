//! Written by asn1_compile from the module SEC1: change the module instead.
//!
//! DssSigValue.

use crate::asn1::ecdsa_sig_value::EcdsaSigValue;

/// A signature of DSA (RFC 3279, 2.2.2). It has the same fields as one of ECDSA, so it is the same
/// type in Rust.
pub type DssSigValue<'a> = EcdsaSigValue<'a>;
