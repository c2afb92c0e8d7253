//! Written by asn1_compile from the module Lightweight-Directory-Access-Protocol-V3: change the module instead.
//!
//! Referral.

use crate::asn1::uri::Uri;
use der_asn1::SequenceOf;

/// URIs of servers at which an operation may be tried again (RFC 4511, 4.1.10).
pub type Referral<'a> = SequenceOf<'a, Uri<'a>>;
