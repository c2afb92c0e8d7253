//! Written by asn1_compile from the module CMS: change the module instead.
//!
//! OriginatorIdentifierOrKeyTagged.
ghost use Rattle.std.specs.Prelude.{◌≡◌};
ghost use Rattle.std.proofs.Common.{refl};
ghost use Rattle.der.specs.Prelude.{map_ok};
ghost use Rattle.der_asn1.specs.Meaning.{alternative, field, is_lawful_item, sequence, sequence_item};

use crate::asn1::originator_identifier_or_key::OriginatorIdentifierOrKey;
use der::{
    Decode, DecodeValue, Encode, Error, FieldsCall, FromFields, HasFields, Header, IsValue, Lends,
    Reader, Sequence, SliceReader, decode_sequence, field_refs,
};
use der_asn1::{Described, DescribedChoice, Item, LawfulItem};
use std::alloc::Global;

/// The contents of an element with an explicit tag: a [`OriginatorIdentifierOrKey`].
#[derive(Clone, Copy, Debug, Drop, PartialEq, Eq)]
pub struct OriginatorIdentifierOrKeyTagged<'a> {
    /// The value inside the explicit tag.
    pub value: OriginatorIdentifierOrKey<'a>,
}

/// The fields of [`OriginatorIdentifierOrKeyTagged`] as one type, in the order in which they are encoded.
pub type OriginatorIdentifierOrKeyTaggedFields<'a> = OriginatorIdentifierOrKey<'a>;

impl<'a> FromFields<OriginatorIdentifierOrKeyTaggedFields<'a>>
    for OriginatorIdentifierOrKeyTagged<'a> {
    ghost fields = { λ v. v.value };

    fn from_fields(fields: OriginatorIdentifierOrKeyTaggedFields<'a>) -> Self {
        let value = fields;
        OriginatorIdentifierOrKeyTagged { value }
    }
}

impl<'a> Sequence for OriginatorIdentifierOrKeyTagged<'a> {
    ghost meaning = { sequence (field
        ⟦<OriginatorIdentifierOrKey<'a> as DescribedChoice>⟧.alternative)
        ⟦<OriginatorIdentifierOrKeyTagged<'a> as FromFields<OriginatorIdentifierOrKeyTaggedFields<'a>>>⟧.fields };

    ghost fits = { (refl, refl) };
}

/// Decodes the fields, first to last. The errors are those that [`Sequence`] lists.
impl<'a, R: Lends<Borrowed = &'a [u8]>> DecodeValue<R> for OriginatorIdentifierOrKeyTagged<'a> {
    type Error = Error;

    ghost decode_value_answers = { λ h s result t.
        ⟦<OriginatorIdentifierOrKeyTaggedFields<'a> as Decode<SliceReader<'a>>>⟧.decode_answers s (map_ok
        ⟦<OriginatorIdentifierOrKeyTagged<'a> as FromFields<OriginatorIdentifierOrKeyTaggedFields<'a>>>⟧.fields result) t };

    fn decode_value(alloc: Global, reader: &mut R, header: Header) -> Result<Self, Error>
    where
        R: Reader,
    {
        decode_sequence::<R, OriginatorIdentifierOrKeyTaggedFields<'a>, Self>(alloc, reader, header)
    }
}

impl<'a> IsValue for OriginatorIdentifierOrKeyTagged<'a> {
    fn is_value(&self) {
        match &self.value {
            OriginatorIdentifierOrKey::IssuerAndSerialNumber(value) => value.is_value(),
            OriginatorIdentifierOrKey::SubjectKeyIdentifier(value) => value.is_value(),
            OriginatorIdentifierOrKey::OriginatorKey(value) => value.is_value(),
        }
    }
}

/// Writes the fields, first to last. The errors are those that [`Sequence`] lists.
impl<'a> HasFields for OriginatorIdentifierOrKeyTagged<'a> {
    ghost fields_size = { λ v. ⟦<OriginatorIdentifierOrKeyTaggedFields<'a> as Encode>⟧.size
        (⟦<OriginatorIdentifierOrKeyTagged<'a> as FromFields<OriginatorIdentifierOrKeyTaggedFields<'a>>>⟧.fields v) };

    ghost fields_answers = { λ v.
        ⟦<OriginatorIdentifierOrKeyTaggedFields<'a> as Encode>⟧.encode_answers
        (⟦<OriginatorIdentifierOrKeyTagged<'a> as FromFields<OriginatorIdentifierOrKeyTaggedFields<'a>>>⟧.fields v) };

    fn call_fields<S, C: FieldsCall<S>>(
        &self,
        call: &C,
        state: &mut S,
        buf: &mut [u8],
    ) -> C::Output {
        call.call(&field_refs!(self, value), state, buf)
    }
}

impl<'a> Item for OriginatorIdentifierOrKeyTagged<'a> {
    ghost item = { sequence_item ⟦<OriginatorIdentifierOrKeyTagged<'a> as Described>⟧.element };
}

impl<'a> LawfulItem for OriginatorIdentifierOrKeyTagged<'a> {
    ghost is_lawful_item = { is_lawful_item
        ⟦<OriginatorIdentifierOrKeyTagged<'a> as Described>⟧.element refl };
}
