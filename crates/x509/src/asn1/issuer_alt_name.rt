//! Written by asn1_compile from the module X509: change the module instead.
//!
//! IssuerAltName.

use crate::asn1::general_names::GeneralNames;

/// Alternative names of the issuer (RFC 5280, 4.2.1.7).
pub type IssuerAltName<'a> = GeneralNames<'a>;
