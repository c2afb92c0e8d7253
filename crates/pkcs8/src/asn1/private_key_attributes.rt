//! Written by asn1_compile from the module PrivateKeys: change the module instead.
//!
//! PrivateKeyAttributes.

use crate::asn1::private_key_attribute::PrivateKeyAttribute;
use der_asn1::SetOf;

/// The attributes of a private key, in ascending order of their encodings.
pub type PrivateKeyAttributes<'a> = SetOf<'a, PrivateKeyAttribute<'a>>;
