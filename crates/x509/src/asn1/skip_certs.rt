//! Written by asn1_compile from the module X509: change the module instead.
//!
//! SkipCerts.

use der_asn1::IntRef;

/// A number of certificates in a chain (RFC 5280, 4.2.1.11). That it is not negative is not
/// checked.
pub type SkipCerts<'a> = IntRef<'a>;
