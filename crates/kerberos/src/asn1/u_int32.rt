//! Written by asn1_compile from the module KerberosV5Spec2: change the module instead.
//!
//! UInt32.

use der_asn1::IntegerIn;

/// An unsigned number of 32 bits (RFC 4120, 5.2.4).
pub type UInt32 = IntegerIn<0, 4294967295>;
