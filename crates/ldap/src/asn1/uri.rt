//! Written by asn1_compile from the module Lightweight-Directory-Access-Protocol-V3: change the module instead.
//!
//! Uri.

use crate::asn1::ldap_string::LdapString;

/// A URI in UTF-8 (RFC 4511, 4.1.10).
pub type Uri<'a> = LdapString<'a>;
