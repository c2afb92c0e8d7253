//! Written by asn1_compile from the module X509: change the module instead.
//!
//! InhibitAnyPolicy.

use crate::asn1::skip_certs::SkipCerts;

/// The number of further certificates in a chain after which the policy anyPolicy is no longer
/// accepted (RFC 5280, 4.2.1.14).
pub type InhibitAnyPolicy<'a> = SkipCerts<'a>;
