//! Written by asn1_compile from the module SEC1: change the module instead.
//!
//! The types of the module.

mod characteristic_two;
mod curve;
mod dsa_public_key;
mod dss_parms;
mod dss_sig_value;
mod ec_parameters;
mod ec_parameters_part1;
mod ec_parameters_part2;
mod ec_parameters_tagged;
mod ec_point;
mod ec_private_key;
mod ecdsa_sig_value;
mod field_element;
mod field_id;
mod pentanomial;
mod prime_p;
mod specified_ec_domain;
mod trinomial;
pub mod values;

pub use characteristic_two::{CharacteristicTwo, CharacteristicTwoFields};
pub use curve::{Curve, CurveFields};
pub use dsa_public_key::DsaPublicKey;
pub use dss_parms::{DssParms, DssParmsFields};
pub use dss_sig_value::DssSigValue;
pub use ec_parameters::EcParameters;
pub use ec_parameters_tagged::{EcParametersTagged, EcParametersTaggedFields};
pub use ec_point::EcPoint;
pub use ec_private_key::{EcPrivateKey, EcPrivateKeyFields};
pub use ecdsa_sig_value::{EcdsaSigValue, EcdsaSigValueFields};
pub use field_element::FieldElement;
pub use field_id::{FieldId, FieldIdFields};
pub use pentanomial::{Pentanomial, PentanomialFields};
pub use prime_p::PrimeP;
pub use specified_ec_domain::{SpecifiedEcDomain, SpecifiedEcDomainFields};
pub use trinomial::Trinomial;
