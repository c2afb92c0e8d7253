//! Keys, parameters and signatures of elliptic curves (SEC 1, RFC 5480, RFC 5915) and of DSA (RFC
//! 3279), borrowed from the input. Each type is lawful: decoding succeeds if and only if the octets
//! are the encoding of a value. Nothing is allocated. The types are compiled from `asn1/sec1.asn1`.
//! `asn1::values` has the identifiers of curves and algorithms.
#![tactic(auto)]

pub mod asn1;

pub use asn1::{
    CharacteristicTwo, CharacteristicTwoFields, Curve, CurveFields, DsaPublicKey, DssParms,
    DssParmsFields, DssSigValue, EcParameters, EcParametersTagged, EcParametersTaggedFields,
    EcPoint, EcPrivateKey, EcPrivateKeyFields, EcdsaSigValue, EcdsaSigValueFields, FieldElement,
    FieldId, FieldIdFields, Pentanomial, PentanomialFields, PrimeP, SpecifiedEcDomain,
    SpecifiedEcDomainFields, Trinomial,
};
