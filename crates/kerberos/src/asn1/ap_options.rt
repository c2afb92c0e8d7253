//! Written by asn1_compile from the module KerberosV5Spec2: change the module instead.
//!
//! ApOptions.

use crate::asn1::kerberos_flags::KerberosFlags;

/// The options of an AP-REQ (RFC 4120, 5.5.1). Bit 1 says that the ticket is encrypted with a
/// session key; bit 2 asks the server to prove its identity.
pub type ApOptions<'a> = KerberosFlags<'a>;
