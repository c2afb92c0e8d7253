//! Written by asn1_compile from the module Parcels: change the module instead.
//!
//! ParcelPart4.
ghost use Rattle.std.specs.Prelude.{false};
ghost use Rattle.der.specs.Prelude.{map_ok};

use crate::asn1::journey::Journey;
use crate::asn1::label::Label;
use der::{Decode, Error, FromFields, Lends, Reader, SliceReader, decode_fields};
use der_asn1::{Implicit, Optional};
use std::alloc::Global;

// Some fields of a Parcel.
#[derive(Drop)]
pub(crate) struct ParcelPart4<'a> {
    pub(crate) journey: Journey<'a>,
    pub(crate) label: Optional<Implicit<Label<'a>, 4>>,
}

// The fields, in the order in which they are encoded.
pub(crate) type ParcelPart4Fields<'a> = (Journey<'a>, Optional<Implicit<Label<'a>, 4>>);

impl<'a> FromFields<ParcelPart4Fields<'a>> for ParcelPart4<'a> {
    ghost fields = { λ v. (v.journey, v.label) };

    fn from_fields(fields: ParcelPart4Fields<'a>) -> Self {
        let (journey, label) = fields;
        ParcelPart4 { journey, label }
    }
}

impl<'a, R: Lends<Borrowed = &'a [u8]>> Decode<R> for ParcelPart4<'a> {
    type Error = Error;

    ghost is_next = { λ v. ⟦<ParcelPart4Fields<'a> as Decode<SliceReader<'a>>>⟧.is_next
        (⟦<ParcelPart4<'a> as FromFields<ParcelPart4Fields<'a>>>⟧.fields v) };

    ghost decode_levels = { ⟦<ParcelPart4Fields<'a> as Decode<SliceReader<'a>>>⟧.decode_levels };

    ghost allocates = { false };

    ghost decode_answers = { λ s result t.
        ⟦<ParcelPart4Fields<'a> as Decode<SliceReader<'a>>>⟧.decode_answers s
        (map_ok ⟦<ParcelPart4<'a> as FromFields<ParcelPart4Fields<'a>>>⟧.fields result) t };

    fn decode(alloc: Global, reader: &mut R) -> Result<Self, Error>
    where
        R: Reader,
    {
        decode_fields::<R, ParcelPart4Fields<'a>, Self>(alloc, reader)
    }
}
