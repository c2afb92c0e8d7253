//! Written by asn1_compile from the module KerberosV5Spec2: change the module instead.
//!
//! Realm.

use crate::asn1::kerberos_string::KerberosString;

/// The name of a realm (RFC 4120, 5.2.2).
pub type Realm<'a> = KerberosString<'a>;
