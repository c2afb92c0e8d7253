//! Written by asn1_compile from the module X509: change the module instead.
//!
//! CertificateIssuer.

use crate::asn1::general_names::GeneralNames;

/// The issuer of a revoked certificate (RFC 5280, 5.3.3).
pub type CertificateIssuer<'a> = GeneralNames<'a>;
