//! Written by asn1_compile from the module X509: change the module instead.
//!
//! EmailAddress.

use der_asn1::Ia5StringRef;

/// An e-mail address (RFC 5280, appendix A).
pub type EmailAddress<'a> = Ia5StringRef<'a>;
