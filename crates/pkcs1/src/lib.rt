//! RSA keys and the parameters of algorithms with RSA (RFC 8017, RFC 4055), borrowed from the
//! input. Each type is lawful: decoding succeeds if and only if the octets are the encoding of a
//! value. Nothing is allocated. The types are compiled from `asn1/pkcs1.asn1`. `asn1::values` has
//! the identifiers of algorithms.
#![tactic(auto)]

pub mod asn1;
mod checks;
mod empty_label_default;
mod mgf1_sha1_default;
mod sha1_default;

pub use asn1::{
    DigestInfo, DigestInfoFields, OtherPrimeInfo, OtherPrimeInfoFields, OtherPrimeInfos,
    RsaOaepParams, RsaOaepParamsFields, RsaPrivateKey, RsaPrivateKeyFields, RsaPssParams,
    RsaPssParamsFields, RsaPublicKey, RsaPublicKeyFields, TrailerField,
};
pub use empty_label_default::EmptyLabelDefault;
pub use mgf1_sha1_default::Mgf1Sha1Default;
pub use sha1_default::Sha1Default;
