//! Written by asn1_compile from the module X509: change the module instead.
//!
//! DirectoryStringTagged.
ghost use Rattle.std.specs.Prelude.{◌≡◌};
ghost use Rattle.std.proofs.Common.{refl};
ghost use Rattle.der.specs.Prelude.{map_ok};
ghost use Rattle.der_asn1.specs.Meaning.{alternative, field, is_lawful_item, sequence, sequence_item};

use crate::asn1::directory_string::DirectoryString;
use der::{
    Decode, DecodeValue, Encode, Error, FieldsCall, FromFields, HasFields, Header, IsValue, Lends,
    Reader, Sequence, SliceReader, decode_sequence, field_refs,
};
use der_asn1::{Described, DescribedChoice, Item, LawfulItem};
use std::alloc::Global;

/// The contents of an element with an explicit tag: a [`DirectoryString`].
#[derive(Clone, Copy, Debug, Drop, PartialEq, Eq)]
pub struct DirectoryStringTagged<'a> {
    /// The value inside the explicit tag.
    pub value: DirectoryString<'a>,
}

/// The fields of [`DirectoryStringTagged`] as one type, in the order in which they are encoded.
pub type DirectoryStringTaggedFields<'a> = DirectoryString<'a>;

impl<'a> FromFields<DirectoryStringTaggedFields<'a>> for DirectoryStringTagged<'a> {
    ghost fields = { λ v. v.value };

    fn from_fields(fields: DirectoryStringTaggedFields<'a>) -> Self {
        let value = fields;
        DirectoryStringTagged { value }
    }
}

impl<'a> Sequence for DirectoryStringTagged<'a> {
    ghost meaning = { sequence (field ⟦<DirectoryString<'a> as DescribedChoice>⟧.alternative)
        ⟦<DirectoryStringTagged<'a> as FromFields<DirectoryStringTaggedFields<'a>>>⟧.fields };

    ghost fits = { (refl, refl) };
}

/// Decodes the fields, first to last. The errors are those that [`Sequence`] lists.
impl<'a, R: Lends<Borrowed = &'a [u8]>> DecodeValue<R> for DirectoryStringTagged<'a> {
    type Error = Error;

    ghost decode_value_answers = { λ h s result t.
        ⟦<DirectoryStringTaggedFields<'a> as Decode<SliceReader<'a>>>⟧.decode_answers s (map_ok
        ⟦<DirectoryStringTagged<'a> as FromFields<DirectoryStringTaggedFields<'a>>>⟧.fields result) t };

    fn decode_value(alloc: Global, reader: &mut R, header: Header) -> Result<Self, Error>
    where
        R: Reader,
    {
        decode_sequence::<R, DirectoryStringTaggedFields<'a>, Self>(alloc, reader, header)
    }
}

impl<'a> IsValue for DirectoryStringTagged<'a> {
    fn is_value(&self) {
        match &self.value {
            DirectoryString::TeletexString(value) => value.is_value(),
            DirectoryString::PrintableString(value) => value.is_value(),
            DirectoryString::Utf8String(value) => value.is_value(),
            DirectoryString::BmpString(value) => value.is_value(),
        }
    }
}

/// Writes the fields, first to last. The errors are those that [`Sequence`] lists.
impl<'a> HasFields for DirectoryStringTagged<'a> {
    ghost fields_size = { λ v. ⟦<DirectoryStringTaggedFields<'a> as Encode>⟧.size
        (⟦<DirectoryStringTagged<'a> as FromFields<DirectoryStringTaggedFields<'a>>>⟧.fields v) };

    ghost fields_answers = { λ v. ⟦<DirectoryStringTaggedFields<'a> as Encode>⟧.encode_answers
        (⟦<DirectoryStringTagged<'a> as FromFields<DirectoryStringTaggedFields<'a>>>⟧.fields v) };

    fn call_fields<S, C: FieldsCall<S>>(
        &self,
        call: &C,
        state: &mut S,
        buf: &mut [u8],
    ) -> C::Output {
        call.call(&field_refs!(self, value), state, buf)
    }
}

impl<'a> Item for DirectoryStringTagged<'a> {
    ghost item = { sequence_item ⟦<DirectoryStringTagged<'a> as Described>⟧.element };
}

impl<'a> LawfulItem for DirectoryStringTagged<'a> {
    ghost is_lawful_item = { is_lawful_item
        ⟦<DirectoryStringTagged<'a> as Described>⟧.element refl };
}
