//! Written by asn1_compile from the module X509: change the module instead.
//!
//! AuthorityInfoAccessSyntax.

use crate::asn1::access_description::AccessDescription;
use der_asn1::SequenceOf;

/// Where to find information about the issuer (RFC 5280, 4.2.2.1 and 5.2.7), borrowed from the
/// input. That there is at least one place is not checked.
pub type AuthorityInfoAccessSyntax<'a> = SequenceOf<'a, AccessDescription<'a>>;
