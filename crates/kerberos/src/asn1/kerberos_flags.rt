//! Written by asn1_compile from the module KerberosV5Spec2: change the module instead.
//!
//! KerberosFlags.

use der_asn1::BitStringRef;

/// Options, one for each bit (RFC 4120, 5.2.8).
pub type KerberosFlags<'a> = BitStringRef<'a>;
