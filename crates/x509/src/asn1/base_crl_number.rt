//! Written by asn1_compile from the module X509: change the module instead.
//!
//! BaseCrlNumber.

use crate::asn1::crl_number::CrlNumber;

/// The number of the complete list to which a delta list gives the changes (RFC 5280, 5.2.4).
pub type BaseCrlNumber<'a> = CrlNumber<'a>;
