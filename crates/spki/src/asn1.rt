//! Written by asn1_compile from the module PublicKeyInfo: change the module instead.
//!
//! The types of the module.

mod algorithm_identifier_ref;
mod subject_public_key_info_ref;

pub use algorithm_identifier_ref::{AlgorithmIdentifierRef, AlgorithmIdentifierRefFields};
pub use subject_public_key_info_ref::{SubjectPublicKeyInfoRef, SubjectPublicKeyInfoRefFields};
