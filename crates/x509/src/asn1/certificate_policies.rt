//! Written by asn1_compile from the module X509: change the module instead.
//!
//! CertificatePolicies.

use crate::asn1::policy_information::PolicyInformation;
use der_asn1::SequenceOf;

/// The policies under which a certificate was issued (RFC 5280, 4.2.1.4), borrowed from the input.
/// That there is at least one, and that no policy occurs twice, is not checked.
pub type CertificatePolicies<'a> = SequenceOf<'a, PolicyInformation<'a>>;
