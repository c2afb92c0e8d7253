//! Written by asn1_compile from the module CMS: change the module instead.
//!
//! OtherRevocationInfoFormat.

use x509::AttributeTypeAndValue;

/// Information about revoked certificates of another kind (RFC 5652, 10.2.1): `oid` names the kind,
/// and `value` is the information, which is not checked. It has the same fields as an attribute of
/// a name, so it is the same type in Rust.
pub type OtherRevocationInfoFormat<'a> = AttributeTypeAndValue<'a>;
