//! Written by asn1_compile from the module X509: change the module instead.
//!
//! CrlNumber.

use der_asn1::IntRef;

/// The number of a revocation list (RFC 5280, 5.2.3). That it is not negative is not checked.
pub type CrlNumber<'a> = IntRef<'a>;
