//! Public keys and their algorithms (RFC 5280, 4.1), borrowed from the input. Each type is lawful:
//! decoding succeeds exactly if the octets are the encoding of a value. The types are compiled from
//! `asn1/spki.asn1`.
#![tactic(auto)]

mod asn1;

pub use asn1::{
    AlgorithmIdentifierRef, AlgorithmIdentifierRefFields as AlgorithmIdentifierFields,
    SubjectPublicKeyInfoRef, SubjectPublicKeyInfoRefFields as SubjectPublicKeyInfoFields,
};
