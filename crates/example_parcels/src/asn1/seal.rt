//! Written by asn1_compile from the module Parcels: change the module instead.
//!
//! Seal.
ghost use Rattle.std.specs.Prelude.{◌≡◌};
ghost use Rattle.std.proofs.Common.{refl};
ghost use Rattle.der.specs.Prelude.{map_ok};
ghost use Rattle.der_asn1.specs.Meaning.{alternative, any_element, field, is_lawful_item, optional, sequence, sequence_item};
ghost use Rattle.der_asn1.specs.TupleFields.{three_fields};

use crate::asn1::text_tagged::TextTagged;
use der::{
    Decode, DecodeValue, Encode, Error, FieldsCall, FromFields, HasFields, Header, IsValue, Lends,
    Reader, Sequence, SliceReader, decode_sequence, field_refs,
};
use der_asn1::{AnyRef, Described, Implicit, Item, LawfulItem, Optional};
use spki::AlgorithmIdentifierRef;
use std::alloc::Global;

/// A seal on a label: a text, and the algorithm with which the seal was made.
#[derive(Clone, Copy, Debug, Drop, PartialEq, Eq)]
pub struct Seal<'a> {
    /// The algorithm with which the seal was made.
    pub algorithm: AlgorithmIdentifierRef<'a>,
    /// The text on the seal.
    pub text: Implicit<TextTagged<'a>, 0>,
    /// Further information of any type, if present.
    pub extra: Optional<AnyRef<'a>>,
}

/// The fields of [`Seal`] as one type, in the order in which they are encoded.
pub type SealFields<'a> = (
    AlgorithmIdentifierRef<'a>,
    Implicit<TextTagged<'a>, 0>,
    Optional<AnyRef<'a>>,
);

impl<'a> FromFields<SealFields<'a>> for Seal<'a> {
    ghost fields = { λ v. (v.algorithm, v.text, v.extra) };

    fn from_fields(fields: SealFields<'a>) -> Self {
        let (algorithm, text, extra) = fields;
        Seal {
            algorithm,
            text,
            extra,
        }
    }
}

impl<'a> Sequence for Seal<'a> {
    ghost meaning = { sequence (three_fields (field (alternative
        ⟦<AlgorithmIdentifierRef<'a> as Described>⟧.element)) (field (alternative
        ⟦<Implicit<TextTagged<'a>, 0> as Described>⟧.element)) (optional any_element))
        ⟦<Seal<'a> as FromFields<SealFields<'a>>>⟧.fields };

    ghost fits = { (refl, refl) };
}

/// Decodes the fields, first to last. The errors are those that [`Sequence`] lists.
impl<'a, R: Lends<Borrowed = &'a [u8]>> DecodeValue<R> for Seal<'a> {
    type Error = Error;

    ghost decode_value_answers = { λ h s result t.
        ⟦<SealFields<'a> as Decode<SliceReader<'a>>>⟧.decode_answers s (map_ok
        ⟦<Seal<'a> as FromFields<SealFields<'a>>>⟧.fields result) t };

    fn decode_value(alloc: Global, reader: &mut R, header: Header) -> Result<Self, Error>
    where
        R: Reader,
    {
        decode_sequence::<R, SealFields<'a>, Self>(alloc, reader, header)
    }
}

impl<'a> IsValue for Seal<'a> {
    fn is_value(&self) {
        self.algorithm.is_value();
        self.text.is_value();
        if let Some(value) = &self.extra.0 {
            value.is_value();
        }
    }
}

/// Writes the fields, first to last. The errors are those that [`Sequence`] lists.
impl<'a> HasFields for Seal<'a> {
    ghost fields_size = { λ v. ⟦<SealFields<'a> as Encode>⟧.size
        (⟦<Seal<'a> as FromFields<SealFields<'a>>>⟧.fields v) };

    ghost fields_answers = { λ v. ⟦<SealFields<'a> as Encode>⟧.encode_answers
        (⟦<Seal<'a> as FromFields<SealFields<'a>>>⟧.fields v) };

    fn call_fields<S, C: FieldsCall<S>>(
        &self,
        call: &C,
        state: &mut S,
        buf: &mut [u8],
    ) -> C::Output {
        call.call(&field_refs!(self, (algorithm, text, extra)), state, buf)
    }
}

impl<'a> Item for Seal<'a> {
    ghost item = { sequence_item ⟦<Seal<'a> as Described>⟧.element };
}

impl<'a> LawfulItem for Seal<'a> {
    ghost is_lawful_item = { is_lawful_item ⟦<Seal<'a> as Described>⟧.element refl };
}
