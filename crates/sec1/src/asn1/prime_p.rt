//! Written by asn1_compile from the module SEC1: change the module instead.
//!
//! PrimeP.

use der_asn1::IntRef;

/// The number of elements of a prime field (SEC 1, C.1).
pub type PrimeP<'a> = IntRef<'a>;
