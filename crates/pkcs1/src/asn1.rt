//! Written by asn1_compile from the module PKCS-1: change the module instead.
//!
//! The types of the module.

mod digest_info;
mod other_prime_info;
mod other_prime_infos;
mod rsa_oaep_params;
mod rsa_private_key;
mod rsa_pss_params;
mod rsa_public_key;
mod trailer_field;
pub mod values;

pub use digest_info::{DigestInfo, DigestInfoFields};
pub use other_prime_info::{OtherPrimeInfo, OtherPrimeInfoFields};
pub use other_prime_infos::OtherPrimeInfos;
pub use rsa_oaep_params::{RsaOaepParams, RsaOaepParamsFields};
pub use rsa_private_key::{RsaPrivateKey, RsaPrivateKeyFields};
pub use rsa_pss_params::{RsaPssParams, RsaPssParamsFields};
pub use rsa_public_key::{RsaPublicKey, RsaPublicKeyFields};
pub use trailer_field::TrailerField;
