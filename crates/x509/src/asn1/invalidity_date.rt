//! Written by asn1_compile from the module X509: change the module instead.
//!
//! InvalidityDate.

use der_asn1::GeneralizedTime;

/// When a private key is known or thought to have been compromised, or a certificate to have become
/// invalid (RFC 5280, 5.3.2).
pub type InvalidityDate = GeneralizedTime;
