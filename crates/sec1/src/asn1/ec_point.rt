//! Written by asn1_compile from the module SEC1: change the module instead.
//!
//! EcPoint.

use der_asn1::OctetStringRef;

/// A point of an elliptic curve, as octets (SEC 1, C.2; 2.3.3).
pub type EcPoint<'a> = OctetStringRef<'a>;
