//! Written by asn1_compile from the module X509: change the module instead.
//!
//! DomainComponent.

use der_asn1::Ia5StringRef;

/// One label of a domain name (RFC 5280, appendix A).
pub type DomainComponent<'a> = Ia5StringRef<'a>;
