//! Written by asn1_compile from the module CMS: change the module instead.
//!
//! RecipientIdentifier.

use crate::asn1::signer_identifier::SignerIdentifier;

/// What identifies the certificate of a recipient (RFC 5652, 6.2.1). It has the same alternatives
/// as a SignerIdentifier, so it is the same type in Rust.
pub type RecipientIdentifier<'a> = SignerIdentifier<'a>;
