//! Written by asn1_compile from the module X509: change the module instead.
//!
//! DistributionPointNameTagged.
ghost use Rattle.std.specs.Prelude.{◌≡◌};
ghost use Rattle.std.proofs.Common.{refl};
ghost use Rattle.der.specs.Prelude.{map_ok};
ghost use Rattle.der_asn1.specs.Meaning.{alternative, field, is_lawful_item, sequence, sequence_item};

use crate::asn1::distribution_point_name::DistributionPointName;
use der::{
    Decode, DecodeValue, Encode, Error, FieldsCall, FromFields, HasFields, Header, IsValue, Lends,
    Reader, Sequence, SliceReader, decode_sequence, field_refs,
};
use der_asn1::{Described, DescribedChoice, Item, LawfulItem};
use std::alloc::Global;

/// The contents of an element with an explicit tag: a [`DistributionPointName`].
#[derive(Clone, Copy, Debug, Drop, PartialEq, Eq)]
pub struct DistributionPointNameTagged<'a> {
    /// The value inside the explicit tag.
    pub value: DistributionPointName<'a>,
}

/// The fields of [`DistributionPointNameTagged`] as one type, in the order in which they are encoded.
pub type DistributionPointNameTaggedFields<'a> = DistributionPointName<'a>;

impl<'a> FromFields<DistributionPointNameTaggedFields<'a>> for DistributionPointNameTagged<'a> {
    ghost fields = { λ v. v.value };

    fn from_fields(fields: DistributionPointNameTaggedFields<'a>) -> Self {
        let value = fields;
        DistributionPointNameTagged { value }
    }
}

impl<'a> Sequence for DistributionPointNameTagged<'a> {
    ghost meaning = { sequence (field ⟦<DistributionPointName<'a> as DescribedChoice>⟧.alternative)
        ⟦<DistributionPointNameTagged<'a> as FromFields<DistributionPointNameTaggedFields<'a>>>⟧.fields };

    ghost fits = { (refl, refl) };
}

/// Decodes the fields, first to last. The errors are those that [`Sequence`] lists.
impl<'a, R: Lends<Borrowed = &'a [u8]>> DecodeValue<R> for DistributionPointNameTagged<'a> {
    type Error = Error;

    ghost decode_value_answers = { λ h s result t.
        ⟦<DistributionPointNameTaggedFields<'a> as Decode<SliceReader<'a>>>⟧.decode_answers s (map_ok
        ⟦<DistributionPointNameTagged<'a> as FromFields<DistributionPointNameTaggedFields<'a>>>⟧.fields result) t };

    fn decode_value(alloc: Global, reader: &mut R, header: Header) -> Result<Self, Error>
    where
        R: Reader,
    {
        decode_sequence::<R, DistributionPointNameTaggedFields<'a>, Self>(alloc, reader, header)
    }
}

impl<'a> IsValue for DistributionPointNameTagged<'a> {
    fn is_value(&self) {
        match &self.value {
            DistributionPointName::FullName(value) => value.is_value(),
            DistributionPointName::NameRelativeToCrlIssuer(value) => value.is_value(),
        }
    }
}

/// Writes the fields, first to last. The errors are those that [`Sequence`] lists.
impl<'a> HasFields for DistributionPointNameTagged<'a> {
    ghost fields_size = { λ v. ⟦<DistributionPointNameTaggedFields<'a> as Encode>⟧.size
        (⟦<DistributionPointNameTagged<'a> as FromFields<DistributionPointNameTaggedFields<'a>>>⟧.fields v) };

    ghost fields_answers = { λ v. ⟦<DistributionPointNameTaggedFields<'a> as Encode>⟧.encode_answers
        (⟦<DistributionPointNameTagged<'a> as FromFields<DistributionPointNameTaggedFields<'a>>>⟧.fields v) };

    fn call_fields<S, C: FieldsCall<S>>(
        &self,
        call: &C,
        state: &mut S,
        buf: &mut [u8],
    ) -> C::Output {
        call.call(&field_refs!(self, value), state, buf)
    }
}

impl<'a> Item for DistributionPointNameTagged<'a> {
    ghost item = { sequence_item ⟦<DistributionPointNameTagged<'a> as Described>⟧.element };
}

impl<'a> LawfulItem for DistributionPointNameTagged<'a> {
    ghost is_lawful_item = { is_lawful_item
        ⟦<DistributionPointNameTagged<'a> as Described>⟧.element refl };
}
