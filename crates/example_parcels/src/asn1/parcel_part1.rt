//! Written by asn1_compile from the module Parcels: change the module instead.
//!
//! ParcelPart1.
ghost use Rattle.std.specs.Prelude.{false};
ghost use Rattle.der.specs.Prelude.{map_ok};

use crate::asn1::parcel::ParcelVersionDefault;
use crate::asn1::version::Version;
use der::{Decode, Error, FromFields, Lends, Reader, SliceReader, decode_fields};
use der_asn1::{Defaulted, Explicit, IntRef, NamedInteger, WithDefault};
use std::alloc::Global;

// Some fields of a Parcel.
#[derive(Drop)]
pub(crate) struct ParcelPart1<'a> {
    pub(crate) version: Defaulted<
        Explicit<WithDefault<NamedInteger<Version>, ParcelVersionDefault>, 0>,
    >,
    pub(crate) number: IntRef<'a>,
}

// The fields, in the order in which they are encoded.
pub(crate) type ParcelPart1Fields<'a> = (
    Defaulted<Explicit<WithDefault<NamedInteger<Version>, ParcelVersionDefault>, 0>>,
    IntRef<'a>,
);

impl<'a> FromFields<ParcelPart1Fields<'a>> for ParcelPart1<'a> {
    ghost fields = { λ v. (v.version, v.number) };

    fn from_fields(fields: ParcelPart1Fields<'a>) -> Self {
        let (version, number) = fields;
        ParcelPart1 { version, number }
    }
}

impl<'a, R: Lends<Borrowed = &'a [u8]>> Decode<R> for ParcelPart1<'a> {
    type Error = Error;

    ghost is_next = { λ v. ⟦<ParcelPart1Fields<'a> as Decode<SliceReader<'a>>>⟧.is_next
        (⟦<ParcelPart1<'a> as FromFields<ParcelPart1Fields<'a>>>⟧.fields v) };

    ghost decode_levels = { ⟦<ParcelPart1Fields<'a> as Decode<SliceReader<'a>>>⟧.decode_levels };

    ghost allocates = { false };

    ghost decode_answers = { λ s result t.
        ⟦<ParcelPart1Fields<'a> as Decode<SliceReader<'a>>>⟧.decode_answers s
        (map_ok ⟦<ParcelPart1<'a> as FromFields<ParcelPart1Fields<'a>>>⟧.fields result) t };

    fn decode(alloc: Global, reader: &mut R) -> Result<Self, Error>
    where
        R: Reader,
    {
        decode_fields::<R, ParcelPart1Fields<'a>, Self>(alloc, reader)
    }
}
