//! Written by asn1_compile from the module Parcels: change the module instead.
//!
//! Stop.
ghost use Rattle.std.specs.Prelude.{◌≡◌};
ghost use Rattle.std.proofs.Common.{refl};
ghost use Rattle.der.specs.Prelude.{map_ok};
ghost use Rattle.der_asn1.specs.Meaning.{alternative, field, is_lawful_item, sequence, sequence_item, two_fields};

use crate::asn1::text::Text;
use crate::asn1::time::Time;
use der::{
    Decode, DecodeValue, Encode, Error, FieldsCall, FromFields, HasFields, Header, IsValue, Lends,
    Reader, Sequence, SliceReader, decode_sequence, field_refs,
};
use der_asn1::{Described, DescribedChoice, Item, LawfulItem};
use std::alloc::Global;

/// A place on the way of a parcel, and when the parcel was there.
#[derive(Clone, Copy, Debug, Drop, PartialEq, Eq)]
pub struct Stop<'a> {
    /// The name of the place.
    pub place: Text<'a>,
    /// When the parcel was at the place.
    pub time: Time<'a>,
}

/// The fields of [`Stop`] as one type, in the order in which they are encoded.
pub type StopFields<'a> = (Text<'a>, Time<'a>);

impl<'a> FromFields<StopFields<'a>> for Stop<'a> {
    ghost fields = { λ v. (v.place, v.time) };

    fn from_fields(fields: StopFields<'a>) -> Self {
        let (place, time) = fields;
        Stop { place, time }
    }
}

impl<'a> Sequence for Stop<'a> {
    ghost meaning = { sequence (two_fields (field ⟦<Text<'a> as DescribedChoice>⟧.alternative)
        (field ⟦<Time<'a> as DescribedChoice>⟧.alternative))
        ⟦<Stop<'a> as FromFields<StopFields<'a>>>⟧.fields };

    ghost fits = { (refl, refl) };
}

/// Decodes the fields, first to last. The errors are those that [`Sequence`] lists.
impl<'a, R: Lends<Borrowed = &'a [u8]>> DecodeValue<R> for Stop<'a> {
    type Error = Error;

    ghost decode_value_answers = { λ h s result t.
        ⟦<StopFields<'a> as Decode<SliceReader<'a>>>⟧.decode_answers s (map_ok
        ⟦<Stop<'a> as FromFields<StopFields<'a>>>⟧.fields result) t };

    fn decode_value(alloc: Global, reader: &mut R, header: Header) -> Result<Self, Error>
    where
        R: Reader,
    {
        decode_sequence::<R, StopFields<'a>, Self>(alloc, reader, header)
    }
}

impl<'a> IsValue for Stop<'a> {
    fn is_value(&self) {
        match &self.place {
            Text::Printable(value) => value.is_value(),
            Text::Utf8(value) => value.is_value(),
            Text::Teletex(value) => value.is_value(),
            Text::Visible(value) => value.is_value(),
        }
        match &self.time {
            Time::Utc(value) => value.is_value(),
            Time::General(value) => value.is_value(),
            Time::Unknown(value) => value.is_value(),
        }
    }
}

/// Writes the fields, first to last. The errors are those that [`Sequence`] lists.
impl<'a> HasFields for Stop<'a> {
    ghost fields_size = { λ v. ⟦<StopFields<'a> as Encode>⟧.size
        (⟦<Stop<'a> as FromFields<StopFields<'a>>>⟧.fields v) };

    ghost fields_answers = { λ v. ⟦<StopFields<'a> as Encode>⟧.encode_answers
        (⟦<Stop<'a> as FromFields<StopFields<'a>>>⟧.fields v) };

    fn call_fields<S, C: FieldsCall<S>>(
        &self,
        call: &C,
        state: &mut S,
        buf: &mut [u8],
    ) -> C::Output {
        call.call(&field_refs!(self, (place, time)), state, buf)
    }
}

impl<'a> Item for Stop<'a> {
    ghost item = { sequence_item ⟦<Stop<'a> as Described>⟧.element };
}

impl<'a> LawfulItem for Stop<'a> {
    ghost is_lawful_item = { is_lawful_item ⟦<Stop<'a> as Described>⟧.element refl };
}
