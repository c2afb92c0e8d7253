//! Written by asn1_compile from the module PKCS-1: change the module instead.
//!
//! OtherPrimeInfos.

use crate::asn1::other_prime_info::OtherPrimeInfo;
use der_asn1::SequenceOf;

/// The third and further primes of a private key (RFC 8017, A.1.2), first to last. That there is at
/// least one is not checked.
pub type OtherPrimeInfos<'a> = SequenceOf<'a, OtherPrimeInfo<'a>>;
