//! Written by asn1_compile from the module X509: change the module instead.
//!
//! CpsUri.

use der_asn1::Ia5StringRef;

/// The URI of a certification practice statement (RFC 5280, 4.2.1.4).
pub type CpsUri<'a> = Ia5StringRef<'a>;
