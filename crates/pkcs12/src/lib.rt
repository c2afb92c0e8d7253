//! Files with private keys and certificates (RFC 7292), borrowed from the input. Each type is
//! lawful: decoding succeeds if and only if the octets are the encoding of a value. Nothing is
//! allocated. The types are compiled from `asn1/pkcs12.asn1`. `asn1::values` has the identifiers of
//! bags, attributes and encryptions.
//!
//! Decoding checks the syntax only. No authentication code or signature is verified, and nothing is
//! decrypted. A file is decoded in steps:
//!
//! - The file is decoded as a [`Pfx`].
//! - The octets in its authSafe are decoded as an [`AuthenticatedSafe`], which is a list of
//!   contents.
//! - The octets in each content are decoded as a [`SafeContents`]. If they are encrypted, the
//!   caller must decrypt them first.
//!
//! Only DER is read: a file that a program wrote with indefinite lengths is refused.
#![tactic(auto)]

pub mod asn1;

pub use asn1::{
    AuthenticatedSafe, CertBag, CertBagFields, CrlBag, FriendlyName, KeyBag, LocalKeyId, MacData,
    MacDataFields, Pfx, PfxFields, Pkcs8ShroudedKeyBag, Pkcs12PbeParams, SafeBag, SafeBagFields,
    SafeContents, SecretBag,
};
