//! Written by asn1_compile from the module CMS: change the module instead.
//!
//! OriginatorPublicKey.

use spki::SubjectPublicKeyInfoRef;

/// The public key of the originator (RFC 5652, 6.2.2). It has the same fields as the public key of
/// a certificate, so it is the same type in Rust.
pub type OriginatorPublicKey<'a> = SubjectPublicKeyInfoRef<'a>;
