//! Certificates, requests, keys and revocation lists for C: reading them into structs, writing them
//! from parts that are already encoded, and names as text. The crate `der_c` exports the calls.
//!
//! Nothing is validated: no signature, no chain of certificates, and no time of validity. No
//! function allocates memory.
#![tactic(auto)]

mod access;
mod algorithm;
mod any;
mod assembly;
mod attribute;
mod authority_key;
mod basic_constraints;
mod certificate;
mod distribution_point;
mod extension;
mod find;
mod found;
mod general_name;
mod key_identifier;
mod key_purposes;
mod key_usage;
mod lenient;
mod names;
mod next;
mod private_key;
mod public_key;
mod request;
mod revocation_list;
mod revoked;
mod shapes;
mod strings;
mod subject_names;
mod time;

pub use access::{
    DerAccessDescription, der_authority_information_access, der_next_access_description,
};
pub use algorithm::DerAlgorithm;
pub use any::DerAny;
pub use assembly::{
    DerCertificateParts, der_write_algorithm, der_write_certificate_part, der_write_extension,
    der_write_name_attribute, der_write_request_part, der_write_signed, der_write_validity,
};
pub use attribute::{DerAttribute, der_next_attribute};
pub use authority_key::{DerAuthorityKey, der_authority_key_identifier};
pub use basic_constraints::{DerBasicConstraints, der_basic_constraints};
pub use certificate::{DerCertificate, der_certificate_read};
pub use distribution_point::{
    DerDistributionPoint, der_distribution_points, der_next_distribution_point,
};
pub use extension::{DerExtension, der_next_extension};
pub use found::DerFound;
pub use general_name::{DerGeneralName, der_next_general_name};
pub use key_identifier::der_subject_key_identifier;
pub use key_purposes::{der_extended_key_usage, der_next_key_purpose};
pub use key_usage::{DerKeyUsage, der_key_usage};
pub use lenient::{der_basic_constraints_lenient, der_key_usage_lenient};
pub use names::{der_is_hidden, der_name_text};
pub use private_key::{DerPrivateKey, der_private_key_read};
pub use public_key::{DerPublicKey, der_public_key_read};
pub use request::{DerRequest, der_request_read};
pub use revocation_list::{DerRevocationList, der_revocation_list_read};
pub use revoked::{DerRevoked, der_next_revoked};
pub use subject_names::{DerGeneralNames, der_subject_alternative_name};
