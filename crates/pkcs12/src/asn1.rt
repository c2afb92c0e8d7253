//! Written by asn1_compile from the module PKCS-12: change the module instead.
//!
//! The types of the module.

mod authenticated_safe;
mod cert_bag;
mod crl_bag;
mod friendly_name;
mod key_bag;
mod local_key_id;
mod mac_data;
mod pfx;
mod pkcs12_pbe_params;
mod pkcs8_shrouded_key_bag;
mod safe_bag;
mod safe_contents;
mod secret_bag;
pub mod values;

pub use authenticated_safe::AuthenticatedSafe;
pub use cert_bag::{CertBag, CertBagFields};
pub use crl_bag::CrlBag;
pub use friendly_name::FriendlyName;
pub use key_bag::KeyBag;
pub use local_key_id::LocalKeyId;
pub use mac_data::{MacData, MacDataFields};
pub use pfx::{Pfx, PfxFields};
pub use pkcs8_shrouded_key_bag::Pkcs8ShroudedKeyBag;
pub use pkcs12_pbe_params::Pkcs12PbeParams;
pub use safe_bag::{SafeBag, SafeBagFields};
pub use safe_contents::SafeContents;
pub use secret_bag::SecretBag;
