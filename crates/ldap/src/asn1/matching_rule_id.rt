//! Written by asn1_compile from the module Lightweight-Directory-Access-Protocol-V3: change the module instead.
//!
//! MatchingRuleId.

use crate::asn1::ldap_string::LdapString;

/// A matching rule, by the digits of its OBJECT IDENTIFIER or by a name (RFC 4511, 4.1.8).
pub type MatchingRuleId<'a> = LdapString<'a>;
