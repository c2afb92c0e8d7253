//! Written by asn1_compile from the module SEC1: change the module instead.
//!
//! EcParametersTagged.
ghost use Rattle.std.specs.Prelude.{◌≡◌};
ghost use Rattle.std.proofs.Common.{refl};
ghost use Rattle.der.specs.Prelude.{map_ok};
ghost use Rattle.der_asn1.specs.Meaning.{alternative, field, is_lawful_item, sequence, sequence_item};

use crate::asn1::ec_parameters::EcParameters;
use der::{
    Decode, DecodeValue, Encode, Error, FieldsCall, FromFields, HasFields, Header, IsValue, Lends,
    Reader, Sequence, SliceReader, decode_sequence, field_refs,
};
use der_asn1::{Described, DescribedChoice, Item, LawfulItem};
use std::alloc::Global;

/// The contents of an element with an explicit tag: a [`EcParameters`].
#[derive(Clone, Copy, Debug, Drop, PartialEq, Eq)]
pub struct EcParametersTagged<'a> {
    /// The value inside the explicit tag.
    pub value: EcParameters<'a>,
}

/// The fields of [`EcParametersTagged`] as one type, in the order in which they are encoded.
pub type EcParametersTaggedFields<'a> = EcParameters<'a>;

impl<'a> FromFields<EcParametersTaggedFields<'a>> for EcParametersTagged<'a> {
    ghost fields = { λ v. v.value };

    fn from_fields(fields: EcParametersTaggedFields<'a>) -> Self {
        let value = fields;
        EcParametersTagged { value }
    }
}

impl<'a> Sequence for EcParametersTagged<'a> {
    ghost meaning = { sequence (field ⟦<EcParameters<'a> as DescribedChoice>⟧.alternative)
        ⟦<EcParametersTagged<'a> as FromFields<EcParametersTaggedFields<'a>>>⟧.fields };

    ghost fits = { (refl, refl) };
}

/// Decodes the fields, first to last. The errors are those that [`Sequence`] lists.
impl<'a, R: Lends<Borrowed = &'a [u8]>> DecodeValue<R> for EcParametersTagged<'a> {
    type Error = Error;

    ghost decode_value_answers = { λ h s result t.
        ⟦<EcParametersTaggedFields<'a> as Decode<SliceReader<'a>>>⟧.decode_answers s (map_ok
        ⟦<EcParametersTagged<'a> as FromFields<EcParametersTaggedFields<'a>>>⟧.fields result) t };

    fn decode_value(alloc: Global, reader: &mut R, header: Header) -> Result<Self, Error>
    where
        R: Reader,
    {
        decode_sequence::<R, EcParametersTaggedFields<'a>, Self>(alloc, reader, header)
    }
}

impl<'a> IsValue for EcParametersTagged<'a> {
    fn is_value(&self) {
        match &self.value {
            EcParameters::NamedCurve(value) => value.is_value(),
            EcParameters::ImplicitCurve(value) => value.is_value(),
            EcParameters::SpecifiedCurve(value) => value.is_value(),
        }
    }
}

/// Writes the fields, first to last. The errors are those that [`Sequence`] lists.
impl<'a> HasFields for EcParametersTagged<'a> {
    ghost fields_size = { λ v. ⟦<EcParametersTaggedFields<'a> as Encode>⟧.size
        (⟦<EcParametersTagged<'a> as FromFields<EcParametersTaggedFields<'a>>>⟧.fields v) };

    ghost fields_answers = { λ v. ⟦<EcParametersTaggedFields<'a> as Encode>⟧.encode_answers
        (⟦<EcParametersTagged<'a> as FromFields<EcParametersTaggedFields<'a>>>⟧.fields v) };

    fn call_fields<S, C: FieldsCall<S>>(
        &self,
        call: &C,
        state: &mut S,
        buf: &mut [u8],
    ) -> C::Output {
        call.call(&field_refs!(self, value), state, buf)
    }
}

impl<'a> Item for EcParametersTagged<'a> {
    ghost item = { sequence_item ⟦<EcParametersTagged<'a> as Described>⟧.element };
}

impl<'a> LawfulItem for EcParametersTagged<'a> {
    ghost is_lawful_item = { is_lawful_item ⟦<EcParametersTagged<'a> as Described>⟧.element refl };
}
