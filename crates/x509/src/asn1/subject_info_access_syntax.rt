//! Written by asn1_compile from the module X509: change the module instead.
//!
//! SubjectInfoAccessSyntax.

use crate::asn1::access_description::AccessDescription;
use der_asn1::SequenceOf;

/// Where to find information about the subject (RFC 5280, 4.2.2.2), borrowed from the input. That
/// there is at least one place is not checked.
pub type SubjectInfoAccessSyntax<'a> = SequenceOf<'a, AccessDescription<'a>>;
