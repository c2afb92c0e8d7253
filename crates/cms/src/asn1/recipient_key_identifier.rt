//! Written by asn1_compile from the module CMS: change the module instead.
//!
//! RecipientKeyIdentifier.

use crate::asn1::kek_identifier::KekIdentifier;

/// The identifier of a recipient's public key (RFC 5652, 6.2.2). It has the same fields as a
/// KEKIdentifier, so it is the same type in Rust: subjectKeyIdentifier of the RFC is the field
/// `key_identifier`.
pub type RecipientKeyIdentifier<'a> = KekIdentifier<'a>;
