//! Written by asn1_compile from the module X509: change the module instead.
//!
//! KeyPurposeId.

use der_asn1::ObjectIdentifierRef;

/// A purpose of a public key, as an object identifier (RFC 5280, 4.2.1.12).
pub type KeyPurposeId<'a> = ObjectIdentifierRef<'a>;
