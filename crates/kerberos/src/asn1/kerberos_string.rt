//! Written by asn1_compile from the module KerberosV5Spec2: change the module instead.
//!
//! KerberosString.

use der_asn1::GeneralStringRef;

/// A text in a message of Kerberos (RFC 4120, 5.2.1).
pub type KerberosString<'a> = GeneralStringRef<'a>;
