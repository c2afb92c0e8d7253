//! Written by asn1_compile from the module X509: change the module instead.
//!
//! CrlDistributionPoints.

use crate::asn1::distribution_point::DistributionPoint;
use der_asn1::SequenceOf;

/// Places where revocation lists are found (RFC 5280, 4.2.1.13), borrowed from the input. That
/// there is at least one place is not checked.
pub type CrlDistributionPoints<'a> = SequenceOf<'a, DistributionPoint<'a>>;
