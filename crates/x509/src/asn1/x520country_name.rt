//! Written by asn1_compile from the module X509: change the module instead.
//!
//! X520countryName.

use der_asn1::PrintableStringRef;

/// The code of a country, which should have two letters (RFC 5280, appendix A). Their number is not
/// checked.
pub type X520countryName<'a> = PrintableStringRef<'a>;
