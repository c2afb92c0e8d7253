//! Written by asn1_compile from the module X509: change the module instead.
//!
//! Attributes.

use crate::asn1::attribute::Attribute;
use der_asn1::SetOf;

/// The attributes of a certification request (RFC 2986, 4.1), in ascending order of their
/// encodings.
pub type Attributes<'a> = SetOf<'a, Attribute<'a>>;
