//! Written by asn1_compile from the module X509: change the module instead.
//!
//! AttributeValues.

use der_asn1::{AnyRef, SetOf};

/// The values of an attribute, of any type, in ascending order of their encodings. The contents of
/// the values are not checked.
pub type AttributeValues<'a> = SetOf<'a, AnyRef<'a>>;
