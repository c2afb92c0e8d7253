//! Written by asn1_compile from the module X509: change the module instead.
//!
//! SubjectAltName.

use crate::asn1::general_names::GeneralNames;

/// Alternative names of the subject (RFC 5280, 4.2.1.6).
pub type SubjectAltName<'a> = GeneralNames<'a>;
