//! Requests for the status of certificates, and the responses (RFC 6960), borrowed from the input.
//! Each type is lawful: decoding succeeds if and only if the octets are the encoding of a value.
//! Nothing is allocated. The types are compiled from `asn1/ocsp.asn1`. `asn1::values` has the
//! identifiers of responses and extensions.
#![tactic(auto)]

pub mod asn1;
mod checks;
mod parts;

pub use asn1::{
    AcceptableResponses, ArchiveCutoff, BasicOcspResponse, BasicOcspResponseFields, CertId,
    CertIdFields, CertStatus, Certificates, CrlId, CrlIdFields, GeneralNameTagged,
    GeneralNameTaggedFields, KeyHash, Nonce, OcspRequest, OcspRequestFields, OcspResponse,
    OcspResponseFields, OcspResponseStatus, PreferredSignatureAlgorithm,
    PreferredSignatureAlgorithmFields, PreferredSignatureAlgorithms, Request, RequestFields,
    ResponderId, ResponderIdAlternatives, ResponseBytes, ResponseBytesFields, ResponseData,
    ResponseDataFields, RevokedInfo, RevokedInfoFields, ServiceLocator, ServiceLocatorFields,
    Signature, SignatureFields, SingleResponse, SingleResponseFields, TbsRequest, TbsRequestFields,
    UnknownInfo, Version,
};
