//! Written by asn1_compile from the module Parcels: change the module instead.
//!
//! TextTagged.
ghost use Rattle.std.specs.Prelude.{◌≡◌};
ghost use Rattle.std.proofs.Common.{refl};
ghost use Rattle.der.specs.Prelude.{map_ok};
ghost use Rattle.der_asn1.specs.Meaning.{alternative, field, is_lawful_item, sequence, sequence_item};

use crate::asn1::text::Text;
use der::{
    Decode, DecodeValue, Encode, Error, FieldsCall, FromFields, HasFields, Header, IsValue, Lends,
    Reader, Sequence, SliceReader, decode_sequence, field_refs,
};
use der_asn1::{Described, DescribedChoice, Item, LawfulItem};
use std::alloc::Global;

/// The contents of an element with an explicit tag: a [`Text`].
#[derive(Clone, Copy, Debug, Drop, PartialEq, Eq)]
pub struct TextTagged<'a> {
    /// The value inside the explicit tag.
    pub value: Text<'a>,
}

/// The fields of [`TextTagged`] as one type, in the order in which they are encoded.
pub type TextTaggedFields<'a> = Text<'a>;

impl<'a> FromFields<TextTaggedFields<'a>> for TextTagged<'a> {
    ghost fields = { λ v. v.value };

    fn from_fields(fields: TextTaggedFields<'a>) -> Self {
        let value = fields;
        TextTagged { value }
    }
}

impl<'a> Sequence for TextTagged<'a> {
    ghost meaning = { sequence (field ⟦<Text<'a> as DescribedChoice>⟧.alternative)
        ⟦<TextTagged<'a> as FromFields<TextTaggedFields<'a>>>⟧.fields };

    ghost fits = { (refl, refl) };
}

/// Decodes the fields, first to last. The errors are those that [`Sequence`] lists.
impl<'a, R: Lends<Borrowed = &'a [u8]>> DecodeValue<R> for TextTagged<'a> {
    type Error = Error;

    ghost decode_value_answers = { λ h s result t.
        ⟦<TextTaggedFields<'a> as Decode<SliceReader<'a>>>⟧.decode_answers s (map_ok
        ⟦<TextTagged<'a> as FromFields<TextTaggedFields<'a>>>⟧.fields result) t };

    fn decode_value(alloc: Global, reader: &mut R, header: Header) -> Result<Self, Error>
    where
        R: Reader,
    {
        decode_sequence::<R, TextTaggedFields<'a>, Self>(alloc, reader, header)
    }
}

impl<'a> IsValue for TextTagged<'a> {
    fn is_value(&self) {
        match &self.value {
            Text::Printable(value) => value.is_value(),
            Text::Utf8(value) => value.is_value(),
            Text::Teletex(value) => value.is_value(),
            Text::Visible(value) => value.is_value(),
        }
    }
}

/// Writes the fields, first to last. The errors are those that [`Sequence`] lists.
impl<'a> HasFields for TextTagged<'a> {
    ghost fields_size = { λ v. ⟦<TextTaggedFields<'a> as Encode>⟧.size
        (⟦<TextTagged<'a> as FromFields<TextTaggedFields<'a>>>⟧.fields v) };

    ghost fields_answers = { λ v. ⟦<TextTaggedFields<'a> as Encode>⟧.encode_answers
        (⟦<TextTagged<'a> as FromFields<TextTaggedFields<'a>>>⟧.fields v) };

    fn call_fields<S, C: FieldsCall<S>>(
        &self,
        call: &C,
        state: &mut S,
        buf: &mut [u8],
    ) -> C::Output {
        call.call(&field_refs!(self, value), state, buf)
    }
}

impl<'a> Item for TextTagged<'a> {
    ghost item = { sequence_item ⟦<TextTagged<'a> as Described>⟧.element };
}

impl<'a> LawfulItem for TextTagged<'a> {
    ghost is_lawful_item = { is_lawful_item ⟦<TextTagged<'a> as Described>⟧.element refl };
}
