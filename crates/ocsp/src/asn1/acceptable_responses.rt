//! Written by asn1_compile from the module OCSP: change the module instead.
//!
//! AcceptableResponses.

use der_asn1::{ObjectIdentifierRef, SequenceOf};

/// The types of responses that a client accepts (RFC 6960, 4.4.3).
pub type AcceptableResponses<'a> = SequenceOf<'a, ObjectIdentifierRef<'a>>;
