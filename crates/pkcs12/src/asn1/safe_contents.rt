//! Written by asn1_compile from the module PKCS-12: change the module instead.
//!
//! SafeContents.

use crate::asn1::safe_bag::SafeBag;
use der_asn1::SequenceOf;

/// The bags in one part of a file (RFC 7292, 4.2), first to last.
pub type SafeContents<'a> = SequenceOf<'a, SafeBag<'a>>;
