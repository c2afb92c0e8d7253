//! Written by asn1_compile from the module Parcels: change the module instead.
//!
//! ParcelPart2.
ghost use Rattle.std.specs.Prelude.{false};
ghost use Rattle.der.specs.Prelude.{map_ok};

use crate::asn1::packing::Packing;
use crate::asn1::parcel::ParcelPackingDefault;
use der::{Decode, Error, FromFields, Lends, Reader, SliceReader, decode_fields};
use der_asn1::{Defaulted, Enumerated, IntegerIn, WithDefault};
use std::alloc::Global;

// Some fields of a Parcel.
#[derive(Drop)]
pub(crate) struct ParcelPart2 {
    pub(crate) weight: IntegerIn<1, 30000>,
    pub(crate) packing: Defaulted<WithDefault<Enumerated<Packing>, ParcelPackingDefault>>,
}

// The fields, in the order in which they are encoded.
pub(crate) type ParcelPart2Fields = (
    IntegerIn<1, 30000>,
    Defaulted<WithDefault<Enumerated<Packing>, ParcelPackingDefault>>,
);

impl FromFields<ParcelPart2Fields> for ParcelPart2 {
    ghost fields = { λ v. (v.weight, v.packing) };

    fn from_fields(fields: ParcelPart2Fields) -> Self {
        let (weight, packing) = fields;
        ParcelPart2 { weight, packing }
    }
}

impl<'a, R: Lends<Borrowed = &'a [u8]>> Decode<R> for ParcelPart2 {
    type Error = Error;

    ghost is_next = { λ v. ⟦<ParcelPart2Fields as Decode<SliceReader<'a>>>⟧.is_next
        (⟦<ParcelPart2 as FromFields<ParcelPart2Fields>>⟧.fields v) };

    ghost decode_levels = { ⟦<ParcelPart2Fields as Decode<SliceReader<'a>>>⟧.decode_levels };

    ghost allocates = { false };

    ghost decode_answers = { λ s result t.
        ⟦<ParcelPart2Fields as Decode<SliceReader<'a>>>⟧.decode_answers s
        (map_ok ⟦<ParcelPart2 as FromFields<ParcelPart2Fields>>⟧.fields result) t };

    fn decode(alloc: Global, reader: &mut R) -> Result<Self, Error>
    where
        R: Reader,
    {
        decode_fields::<R, ParcelPart2Fields, Self>(alloc, reader)
    }
}
