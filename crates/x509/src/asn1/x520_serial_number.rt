//! Written by asn1_compile from the module X509: change the module instead.
//!
//! X520SerialNumber.

use der_asn1::PrintableStringRef;

/// The serial number of a device (RFC 5280, appendix A).
pub type X520SerialNumber<'a> = PrintableStringRef<'a>;
