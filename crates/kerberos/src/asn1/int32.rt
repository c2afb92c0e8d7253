//! Written by asn1_compile from the module KerberosV5Spec2: change the module instead.
//!
//! Int32.

use der_asn1::IntRef;

/// A signed number of 32 bits (RFC 4120, 5.2.4). Decoding does not check the range.
pub type Int32<'a> = IntRef<'a>;
