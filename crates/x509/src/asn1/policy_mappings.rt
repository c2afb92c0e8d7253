//! Written by asn1_compile from the module X509: change the module instead.
//!
//! PolicyMappings.

use crate::asn1::policy_mapping::PolicyMapping;
use der_asn1::SequenceOf;

/// Pairs of a policy of the issuer and a policy of the subject that counts as equal (RFC 5280,
/// 4.2.1.5), borrowed from the input. That there is at least one pair is not checked.
pub type PolicyMappings<'a> = SequenceOf<'a, PolicyMapping<'a>>;
