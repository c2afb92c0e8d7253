//! Written by asn1_compile from the module CMS: change the module instead.
//!
//! OtherKeyAttribute.

use spki::AlgorithmIdentifierRef;

/// Further information that identifies a key (RFC 5652, 10.2.7): `oid` names the kind of
/// information. It has the same fields as an algorithm with parameters, so it is the same type in
/// Rust: keyAttr of the RFC is the field `parameters`.
pub type OtherKeyAttribute<'a> = AlgorithmIdentifierRef<'a>;
