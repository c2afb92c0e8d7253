//! Written by asn1_compile from the module Lightweight-Directory-Access-Protocol-V3: change the module instead.
//!
//! AssertionValue.

use der_asn1::OctetStringRef;

/// A value that the values of an attribute are compared with (RFC 4511, 4.1.6).
pub type AssertionValue<'a> = OctetStringRef<'a>;
