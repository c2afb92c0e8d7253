//! Written by asn1_compile from the module X509: change the module instead.
//!
//! BaseDistance.

use der_asn1::IntRef;

/// A number of levels below a name (RFC 5280, 4.2.1.10).
pub type BaseDistance<'a> = IntRef<'a>;
