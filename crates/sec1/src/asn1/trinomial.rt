//! Written by asn1_compile from the module SEC1: change the module instead.
//!
//! Trinomial.

use der_asn1::IntRef;

/// The exponent k of the trinomial x^m + x^k + 1 (SEC 1, C.1).
pub type Trinomial<'a> = IntRef<'a>;
