//! Written by asn1_compile from the module OCSP: change the module instead.
//!
//! The types of the module.

mod acceptable_responses;
mod archive_cutoff;
mod basic_ocsp_response;
mod cert_id;
mod cert_status;
mod cert_status_part1;
mod cert_status_part2;
mod certificates;
mod crl_id;
mod general_name_tagged;
mod key_hash;
mod nonce;
mod ocsp_request;
mod ocsp_response;
mod ocsp_response_status;
mod preferred_signature_algorithm;
mod preferred_signature_algorithms;
mod request;
mod responder_id;
mod response_bytes;
mod response_data;
mod revoked_info;
mod service_locator;
mod signature;
mod single_response;
mod tbs_request;
mod unknown_info;
pub mod values;
mod version;

pub use acceptable_responses::AcceptableResponses;
pub use archive_cutoff::ArchiveCutoff;
pub use basic_ocsp_response::{BasicOcspResponse, BasicOcspResponseFields};
pub use cert_id::{CertId, CertIdFields};
pub use cert_status::CertStatus;
pub use certificates::Certificates;
pub use crl_id::{CrlId, CrlIdFields};
pub use general_name_tagged::{GeneralNameTagged, GeneralNameTaggedFields};
pub use key_hash::KeyHash;
pub use nonce::Nonce;
pub use ocsp_request::{OcspRequest, OcspRequestFields};
pub use ocsp_response::{OcspResponse, OcspResponseFields};
pub use ocsp_response_status::OcspResponseStatus;
pub use preferred_signature_algorithm::{
    PreferredSignatureAlgorithm, PreferredSignatureAlgorithmFields,
};
pub use preferred_signature_algorithms::PreferredSignatureAlgorithms;
pub use request::{Request, RequestFields};
pub use responder_id::{ResponderId, ResponderIdAlternatives};
pub use response_bytes::{ResponseBytes, ResponseBytesFields};
pub use response_data::{ResponseData, ResponseDataFields};
pub use revoked_info::{RevokedInfo, RevokedInfoFields};
pub use service_locator::{ServiceLocator, ServiceLocatorFields};
pub use signature::{Signature, SignatureFields};
pub use single_response::{SingleResponse, SingleResponseFields};
pub use tbs_request::{TbsRequest, TbsRequestFields};
pub use unknown_info::UnknownInfo;
pub use version::Version;
