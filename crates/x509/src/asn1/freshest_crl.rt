//! Written by asn1_compile from the module X509: change the module instead.
//!
//! FreshestCrl.

use crate::asn1::crl_distribution_points::CrlDistributionPoints;

/// Places where delta lists, with the changes to a revocation list, are found (RFC 5280, 4.2.1.15
/// and 5.2.6).
pub type FreshestCrl<'a> = CrlDistributionPoints<'a>;
