//! Written by asn1_compile from the module X509: change the module instead.
//!
//! KeyIdentifier.

use der_asn1::OctetStringRef;

/// The identifier of a public key (RFC 5280, 4.2.1.1): octets, which are not checked.
pub type KeyIdentifier<'a> = OctetStringRef<'a>;
