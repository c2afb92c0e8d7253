//! Written by asn1_compile from the module SEC1: change the module instead.
//!
//! FieldElement.

use der_asn1::OctetStringRef;

/// An element of a finite field, as octets (SEC 1, C.1; 2.3.5).
pub type FieldElement<'a> = OctetStringRef<'a>;
