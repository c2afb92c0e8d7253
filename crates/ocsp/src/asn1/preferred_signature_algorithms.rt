//! Written by asn1_compile from the module OCSP: change the module instead.
//!
//! PreferredSignatureAlgorithms.

use crate::asn1::preferred_signature_algorithm::PreferredSignatureAlgorithm;
use der_asn1::SequenceOf;

/// The signature algorithms that a client prefers (RFC 6960, 4.4.7.1), best first.
pub type PreferredSignatureAlgorithms<'a> = SequenceOf<'a, PreferredSignatureAlgorithm<'a>>;
