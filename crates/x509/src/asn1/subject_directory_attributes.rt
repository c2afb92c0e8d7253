//! Written by asn1_compile from the module X509: change the module instead.
//!
//! SubjectDirectoryAttributes.

use crate::asn1::attribute::Attribute;
use der_asn1::SequenceOf;

/// Attributes of the subject (RFC 5280, 4.2.1.8), borrowed from the input. That there is at least
/// one is not checked.
pub type SubjectDirectoryAttributes<'a> = SequenceOf<'a, Attribute<'a>>;
