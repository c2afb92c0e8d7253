//! Written by asn1_compile from the module Lightweight-Directory-Access-Protocol-V3: change the module instead.
//!
//! AttributeDescription.

use crate::asn1::ldap_string::LdapString;

/// The type of an attribute, with options (RFC 4512, 2.5).
pub type AttributeDescription<'a> = LdapString<'a>;
