//! Written by asn1_compile from the module CMS: change the module instead.
//!
//! Countersignature.

use crate::asn1::signer_info::SignerInfo;

/// A signature of another signature (RFC 5652, 11.4): the value of an attribute.
pub type Countersignature<'a> = SignerInfo<'a>;
