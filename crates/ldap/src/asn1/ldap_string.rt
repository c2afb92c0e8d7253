//! Written by asn1_compile from the module Lightweight-Directory-Access-Protocol-V3: change the module instead.
//!
//! LdapString.

use der_asn1::OctetStringRef;

/// A text in UTF-8 (RFC 4511, 4.1.2).
pub type LdapString<'a> = OctetStringRef<'a>;
