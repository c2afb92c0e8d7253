//! Written by asn1_compile from the module Parcels: change the module instead.
//!
//! ParcelPart3.
ghost use Rattle.std.specs.Prelude.{false};
ghost use Rattle.der.specs.Prelude.{map_ok};

use crate::asn1::handling::Handling;
use der::{Decode, Error, FromFields, Lends, Reader, SliceReader, decode_fields};
use der_asn1::{BooleanRef, Defaulted, Optional};
use std::alloc::Global;

// Some fields of a Parcel.
#[derive(Drop)]
pub(crate) struct ParcelPart3<'a> {
    pub(crate) handling: Optional<Handling<'a>>,
    pub(crate) opened: Defaulted<BooleanRef<'a>>,
}

// The fields, in the order in which they are encoded.
pub(crate) type ParcelPart3Fields<'a> = (Optional<Handling<'a>>, Defaulted<BooleanRef<'a>>);

impl<'a> FromFields<ParcelPart3Fields<'a>> for ParcelPart3<'a> {
    ghost fields = { λ v. (v.handling, v.opened) };

    fn from_fields(fields: ParcelPart3Fields<'a>) -> Self {
        let (handling, opened) = fields;
        ParcelPart3 { handling, opened }
    }
}

impl<'a, R: Lends<Borrowed = &'a [u8]>> Decode<R> for ParcelPart3<'a> {
    type Error = Error;

    ghost is_next = { λ v. ⟦<ParcelPart3Fields<'a> as Decode<SliceReader<'a>>>⟧.is_next
        (⟦<ParcelPart3<'a> as FromFields<ParcelPart3Fields<'a>>>⟧.fields v) };

    ghost decode_levels = { ⟦<ParcelPart3Fields<'a> as Decode<SliceReader<'a>>>⟧.decode_levels };

    ghost allocates = { false };

    ghost decode_answers = { λ s result t.
        ⟦<ParcelPart3Fields<'a> as Decode<SliceReader<'a>>>⟧.decode_answers s
        (map_ok ⟦<ParcelPart3<'a> as FromFields<ParcelPart3Fields<'a>>>⟧.fields result) t };

    fn decode(alloc: Global, reader: &mut R) -> Result<Self, Error>
    where
        R: Reader,
    {
        decode_fields::<R, ParcelPart3Fields<'a>, Self>(alloc, reader)
    }
}
