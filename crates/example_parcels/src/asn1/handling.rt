//! Written by asn1_compile from the module Parcels: change the module instead.
//!
//! Handling.

use der_asn1::NamedBitsRef;

/// How a parcel is to be handled.
pub type Handling<'a> = NamedBitsRef<'a>;

/// The named bits of a [`Handling`], with their numbers.
#[derive(Clone, Copy, Debug, PartialEq, Eq)]
pub enum HandlingBit {
    Fragile = 0,
    ThisSideUp = 1,
    KeepDry = 2,
}
