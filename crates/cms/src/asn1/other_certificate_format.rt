//! Written by asn1_compile from the module CMS: change the module instead.
//!
//! OtherCertificateFormat.

use x509::AttributeTypeAndValue;

/// A certificate of another kind (RFC 5652, 10.2.2): `oid` names the kind, and `value` is the
/// certificate, which is not checked. It has the same fields as an attribute of a name, so it is
/// the same type in Rust.
pub type OtherCertificateFormat<'a> = AttributeTypeAndValue<'a>;
