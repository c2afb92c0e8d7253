//! Written by asn1_compile from the module X509: change the module instead.
//!
//! SubjectKeyIdentifier.

use crate::asn1::key_identifier::KeyIdentifier;

/// The identifier of the subject's public key (RFC 5280, 4.2.1.2).
pub type SubjectKeyIdentifier<'a> = KeyIdentifier<'a>;
