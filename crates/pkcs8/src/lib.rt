//! Private keys (RFC 5208, RFC 5958) and the parameters of their encryption (RFC 8018, RFC 7914),
//! borrowed from the input. Each type is lawful: decoding succeeds if and only if the octets are
//! the encoding of a value. Nothing is allocated. The types are compiled from `asn1/pkcs8.asn1`.
//! `asn1::values` has the identifiers of algorithms.
#![tactic(auto)]

pub mod asn1;
mod checks;
mod hmac_with_sha1_default;

pub use asn1::{
    EncryptedPrivateKeyInfo, EncryptedPrivateKeyInfoFields, PbeParameter, PbeParameterFields,
    Pbes2Params, Pbes2ParamsFields, Pbkdf2Params, Pbkdf2ParamsFields, Pbkdf2Salt,
    Pbkdf2SaltAlternatives, PrivateKeyAttribute, PrivateKeyAttributeFields, PrivateKeyAttributes,
    PrivateKeyInfo, PrivateKeyInfoFields, ScryptParams, ScryptParamsFields, Version,
};
pub use hmac_with_sha1_default::HmacWithSha1Default;
