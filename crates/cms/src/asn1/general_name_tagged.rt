//! Written by asn1_compile from the module CMS: change the module instead.
//!
//! GeneralNameTagged.
ghost use Rattle.std.specs.Prelude.{◌≡◌};
ghost use Rattle.std.proofs.Common.{refl};
ghost use Rattle.der.specs.Prelude.{map_ok};
ghost use Rattle.der_asn1.specs.Meaning.{alternative, field, is_lawful_item, sequence, sequence_item};

use der::{
    Decode, DecodeValue, Encode, Error, FieldsCall, FromFields, HasFields, Header, IsValue, Lends,
    Reader, Sequence, SliceReader, decode_sequence, field_refs,
};
use der_asn1::{Described, DescribedChoice, Item, LawfulItem};
use std::alloc::Global;
use x509::GeneralName;

/// The contents of an element with an explicit tag: a [`GeneralName`].
#[derive(Clone, Copy, Debug, Drop, PartialEq, Eq)]
pub struct GeneralNameTagged<'a> {
    /// The value inside the explicit tag.
    pub value: GeneralName<'a>,
}

/// The fields of [`GeneralNameTagged`] as one type, in the order in which they are encoded.
pub type GeneralNameTaggedFields<'a> = GeneralName<'a>;

impl<'a> FromFields<GeneralNameTaggedFields<'a>> for GeneralNameTagged<'a> {
    ghost fields = { λ v. v.value };

    fn from_fields(fields: GeneralNameTaggedFields<'a>) -> Self {
        let value = fields;
        GeneralNameTagged { value }
    }
}

impl<'a> Sequence for GeneralNameTagged<'a> {
    ghost meaning = { sequence (field ⟦<GeneralName<'a> as DescribedChoice>⟧.alternative)
        ⟦<GeneralNameTagged<'a> as FromFields<GeneralNameTaggedFields<'a>>>⟧.fields };

    ghost fits = { (refl, refl) };
}

/// Decodes the fields, first to last. The errors are those that [`Sequence`] lists.
impl<'a, R: Lends<Borrowed = &'a [u8]>> DecodeValue<R> for GeneralNameTagged<'a> {
    type Error = Error;

    ghost decode_value_answers = { λ h s result t.
        ⟦<GeneralNameTaggedFields<'a> as Decode<SliceReader<'a>>>⟧.decode_answers s (map_ok
        ⟦<GeneralNameTagged<'a> as FromFields<GeneralNameTaggedFields<'a>>>⟧.fields result) t };

    fn decode_value(alloc: Global, reader: &mut R, header: Header) -> Result<Self, Error>
    where
        R: Reader,
    {
        decode_sequence::<R, GeneralNameTaggedFields<'a>, Self>(alloc, reader, header)
    }
}

impl<'a> IsValue for GeneralNameTagged<'a> {
    fn is_value(&self) {
        match &self.value {
            x509::GeneralName::OtherName(value) => value.is_value(),
            x509::GeneralName::Rfc822Name(value) => value.is_value(),
            x509::GeneralName::DnsName(value) => value.is_value(),
            x509::GeneralName::X400Address(value) => value.is_value(),
            x509::GeneralName::DirectoryName(value) => value.is_value(),
            x509::GeneralName::EdiPartyName(value) => value.is_value(),
            x509::GeneralName::UniformResourceIdentifier(value) => value.is_value(),
            x509::GeneralName::IpAddress(value) => value.is_value(),
            x509::GeneralName::RegisteredId(value) => value.is_value(),
        }
    }
}

/// Writes the fields, first to last. The errors are those that [`Sequence`] lists.
impl<'a> HasFields for GeneralNameTagged<'a> {
    ghost fields_size = { λ v. ⟦<GeneralNameTaggedFields<'a> as Encode>⟧.size
        (⟦<GeneralNameTagged<'a> as FromFields<GeneralNameTaggedFields<'a>>>⟧.fields v) };

    ghost fields_answers = { λ v. ⟦<GeneralNameTaggedFields<'a> as Encode>⟧.encode_answers
        (⟦<GeneralNameTagged<'a> as FromFields<GeneralNameTaggedFields<'a>>>⟧.fields v) };

    fn call_fields<S, C: FieldsCall<S>>(
        &self,
        call: &C,
        state: &mut S,
        buf: &mut [u8],
    ) -> C::Output {
        call.call(&field_refs!(self, value), state, buf)
    }
}

impl<'a> Item for GeneralNameTagged<'a> {
    ghost item = { sequence_item ⟦<GeneralNameTagged<'a> as Described>⟧.element };
}

impl<'a> LawfulItem for GeneralNameTagged<'a> {
    ghost is_lawful_item = { is_lawful_item ⟦<GeneralNameTagged<'a> as Described>⟧.element refl };
}
