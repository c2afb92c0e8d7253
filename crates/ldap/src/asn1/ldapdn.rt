//! Written by asn1_compile from the module Lightweight-Directory-Access-Protocol-V3: change the module instead.
//!
//! Ldapdn.

use crate::asn1::ldap_string::LdapString;

/// A distinguished name in the form of RFC 4514.
pub type Ldapdn<'a> = LdapString<'a>;
