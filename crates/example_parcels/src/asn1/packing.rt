//! Written by asn1_compile from the module Parcels: change the module instead.
//!
//! Packing.
ghost use Rattle.std.specs.Prelude.{◌==◌, Option, Some, None, if◌then◌else◌};
ghost use Rattle.example_parcels.specs.declared.asn1.packing.Packing.TheVariants as variant;

use der_asn1::Enumeration;

/// What a parcel is packed in.
#[derive(Clone, Copy, Debug, PartialEq, Eq)]
pub enum Packing {
    Letter = 0,
    Box = 1,
    Tube = 2,
}

impl Enumeration for Packing {
    ghost item_of = { λ n. if n == 0 then Some variant.Letter else if n == 1 then Some variant.Box else if n == 2 then Some variant.Tube else None };

    ghost number_of = { elim [
      | variant.Letter ↦ 0
      | variant.Box ↦ 1
      | variant.Tube ↦ 2
    ] };

    fn from_number(number: u32) -> Option<Self> {
        match number {
            0 => Some(Packing::Letter),
            1 => Some(Packing::Box),
            2 => Some(Packing::Tube),
            _ => None,
        }
    }

    fn to_number(self) -> u32 {
        self as u32
    }
}
