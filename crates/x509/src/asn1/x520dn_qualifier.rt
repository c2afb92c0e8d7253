//! Written by asn1_compile from the module X509: change the module instead.
//!
//! X520dnQualifier.

use der_asn1::PrintableStringRef;

/// A text that distinguishes two names which are equal otherwise (RFC 5280, appendix A).
pub type X520dnQualifier<'a> = PrintableStringRef<'a>;
