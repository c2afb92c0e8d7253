//! Written by asn1_compile from the module Parcels: change the module instead.
//!
//! Version.
ghost use Rattle.std.specs.Prelude.{◌==◌, Option, Some, None, if◌then◌else◌};
ghost use Rattle.example_parcels.specs.declared.asn1.version.Version.TheVariants as variant;

use der_asn1::Enumeration;

/// The version of the format of a parcel.
#[derive(Clone, Copy, Debug, PartialEq, Eq)]
pub enum Version {
    V1 = 0,
    V2 = 1,
}

impl Enumeration for Version {
    ghost item_of = { λ n. if n == 0 then Some variant.V1 else if n == 1 then Some variant.V2 else None };

    ghost number_of = { elim [
      | variant.V1 ↦ 0
      | variant.V2 ↦ 1
    ] };

    fn from_number(number: u32) -> Option<Self> {
        match number {
            0 => Some(Version::V1),
            1 => Some(Version::V2),
            _ => None,
        }
    }

    fn to_number(self) -> u32 {
        self as u32
    }
}
