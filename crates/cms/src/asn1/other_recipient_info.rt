//! Written by asn1_compile from the module CMS: change the module instead.
//!
//! OtherRecipientInfo.

use x509::AttributeTypeAndValue;

/// A key that is encrypted for a recipient in another way (RFC 5652, 6.2.5): `oid` names the way,
/// and `value` is not checked. It has the same fields as an attribute of a name, so it is the same
/// type in Rust.
pub type OtherRecipientInfo<'a> = AttributeTypeAndValue<'a>;
