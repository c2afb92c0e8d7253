//! Written by asn1_compile from the module Lightweight-Directory-Access-Protocol-V3: change the module instead.
//!
//! SubstringFilter.
ghost use Rattle.std.specs.Prelude.{◌≡◌};
ghost use Rattle.std.proofs.Common.{refl};
ghost use Rattle.der.specs.Prelude.{map_ok};
ghost use Rattle.der_asn1.specs.Meaning.{alternative, field, is_lawful_item, sequence, sequence_item, two_fields};

use crate::asn1::attribute_description::AttributeDescription;
use crate::asn1::substring_filter_substrings_item::SubstringFilterSubstringsItem;
use der::{
    Decode, DecodeValue, Encode, Error, FieldsCall, FromFields, HasFields, Header, IsValue, Lends,
    Reader, Sequence, SliceReader, decode_sequence, field_refs,
};
use der_asn1::{Described, Item, LawfulItem, SequenceOf};
use std::alloc::Global;

/// An attribute, and parts that its value must have (RFC 4511, 4.5.1.7.2).
#[derive(Clone, Copy, Debug, Drop, PartialEq, Eq)]
pub struct SubstringFilter<'a> {
    /// The type of the attribute.
    pub type_: AttributeDescription<'a>,
    /// The parts, in the order in which the value has them. Only the first may be `initial`, and
    /// only the last may be `final`; decoding does not check this.
    pub substrings: SequenceOf<'a, SubstringFilterSubstringsItem<'a>>,
}

/// The fields of [`SubstringFilter`] as one type, in the order in which they are encoded.
pub type SubstringFilterFields<'a> = (
    AttributeDescription<'a>,
    SequenceOf<'a, SubstringFilterSubstringsItem<'a>>,
);

impl<'a> FromFields<SubstringFilterFields<'a>> for SubstringFilter<'a> {
    ghost fields = { λ v. (v.type_, v.substrings) };

    fn from_fields(fields: SubstringFilterFields<'a>) -> Self {
        let (type_, substrings) = fields;
        SubstringFilter { type_, substrings }
    }
}

impl<'a> Sequence for SubstringFilter<'a> {
    ghost meaning = { sequence (two_fields (field (alternative
        ⟦<AttributeDescription<'a> as Described>⟧.element)) (field (alternative
        ⟦<SequenceOf<'a, SubstringFilterSubstringsItem<'a>> as Described>⟧.element)))
        ⟦<SubstringFilter<'a> as FromFields<SubstringFilterFields<'a>>>⟧.fields };

    ghost fits = { (refl, refl) };
}

/// Decodes the fields, first to last. The errors are those that [`Sequence`] lists.
impl<'a, R: Lends<Borrowed = &'a [u8]>> DecodeValue<R> for SubstringFilter<'a> {
    type Error = Error;

    ghost decode_value_answers = { λ h s result t.
        ⟦<SubstringFilterFields<'a> as Decode<SliceReader<'a>>>⟧.decode_answers s (map_ok
        ⟦<SubstringFilter<'a> as FromFields<SubstringFilterFields<'a>>>⟧.fields result) t };

    fn decode_value(alloc: Global, reader: &mut R, header: Header) -> Result<Self, Error>
    where
        R: Reader,
    {
        decode_sequence::<R, SubstringFilterFields<'a>, Self>(alloc, reader, header)
    }
}

impl<'a> IsValue for SubstringFilter<'a> {
    fn is_value(&self) {
        self.type_.is_value();
        self.substrings.is_value();
    }
}

/// Writes the fields, first to last. The errors are those that [`Sequence`] lists.
impl<'a> HasFields for SubstringFilter<'a> {
    ghost fields_size = { λ v. ⟦<SubstringFilterFields<'a> as Encode>⟧.size
        (⟦<SubstringFilter<'a> as FromFields<SubstringFilterFields<'a>>>⟧.fields v) };

    ghost fields_answers = { λ v. ⟦<SubstringFilterFields<'a> as Encode>⟧.encode_answers
        (⟦<SubstringFilter<'a> as FromFields<SubstringFilterFields<'a>>>⟧.fields v) };

    fn call_fields<S, C: FieldsCall<S>>(
        &self,
        call: &C,
        state: &mut S,
        buf: &mut [u8],
    ) -> C::Output {
        call.call(&field_refs!(self, (type_, substrings)), state, buf)
    }
}

impl<'a> Item for SubstringFilter<'a> {
    ghost item = { sequence_item ⟦<SubstringFilter<'a> as Described>⟧.element };
}

impl<'a> LawfulItem for SubstringFilter<'a> {
    ghost is_lawful_item = { is_lawful_item ⟦<SubstringFilter<'a> as Described>⟧.element refl };
}
