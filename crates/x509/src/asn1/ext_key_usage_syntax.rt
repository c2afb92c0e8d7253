//! Written by asn1_compile from the module X509: change the module instead.
//!
//! ExtKeyUsageSyntax.

use crate::asn1::key_purpose_id::KeyPurposeId;
use der_asn1::SequenceOf;

/// What a public key may be used for, as object identifiers (RFC 5280, 4.2.1.12). That there is at
/// least one is not checked.
pub type ExtKeyUsageSyntax<'a> = SequenceOf<'a, KeyPurposeId<'a>>;
