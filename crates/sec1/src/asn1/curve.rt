//! Written by asn1_compile from the module SEC1: change the module instead.
//!
//! Curve.
ghost use Rattle.std.specs.Prelude.{◌≡◌};
ghost use Rattle.std.proofs.Common.{refl};
ghost use Rattle.der.specs.Prelude.{map_ok};
ghost use Rattle.der_asn1.specs.Meaning.{alternative, field, is_lawful_item, optional, sequence, sequence_item};
ghost use Rattle.der_asn1.specs.TupleFields.{three_fields};

use crate::asn1::field_element::FieldElement;
use der::{
    Decode, DecodeValue, Encode, Error, FieldsCall, FromFields, HasFields, Header, IsValue, Lends,
    Reader, Sequence, SliceReader, decode_sequence, field_refs,
};
use der_asn1::{BitStringRef, Described, Item, LawfulItem, Optional};
use std::alloc::Global;

/// The coefficients of an elliptic curve (SEC 1, C.2; RFC 3279, 2.3.5), borrowed from the input.
#[derive(Clone, Copy, Debug, Drop, PartialEq, Eq)]
pub struct Curve<'a> {
    /// The coefficient a.
    pub a: FieldElement<'a>,
    /// The coefficient b.
    pub b: FieldElement<'a>,
    /// The octets from which the coefficients were made, if present.
    pub seed: Optional<BitStringRef<'a>>,
}

/// The fields of [`Curve`] as one type, in the order in which they are encoded.
pub type CurveFields<'a> = (
    FieldElement<'a>,
    FieldElement<'a>,
    Optional<BitStringRef<'a>>,
);

impl<'a> FromFields<CurveFields<'a>> for Curve<'a> {
    ghost fields = { λ v. (v.a, v.b, v.seed) };

    fn from_fields(fields: CurveFields<'a>) -> Self {
        let (a, b, seed) = fields;
        Curve { a, b, seed }
    }
}

impl<'a> Sequence for Curve<'a> {
    ghost meaning = { sequence (three_fields (field (alternative
        ⟦<FieldElement<'a> as Described>⟧.element)) (field (alternative
        ⟦<FieldElement<'a> as Described>⟧.element)) (optional (alternative
        ⟦<BitStringRef<'a> as Described>⟧.element)))
        ⟦<Curve<'a> as FromFields<CurveFields<'a>>>⟧.fields };

    ghost fits = { (refl, refl) };
}

/// Decodes the fields, first to last. The errors are those that [`Sequence`] lists.
impl<'a, R: Lends<Borrowed = &'a [u8]>> DecodeValue<R> for Curve<'a> {
    type Error = Error;

    ghost decode_value_answers = { λ h s result t.
        ⟦<CurveFields<'a> as Decode<SliceReader<'a>>>⟧.decode_answers s (map_ok
        ⟦<Curve<'a> as FromFields<CurveFields<'a>>>⟧.fields result) t };

    fn decode_value(alloc: Global, reader: &mut R, header: Header) -> Result<Self, Error>
    where
        R: Reader,
    {
        decode_sequence::<R, CurveFields<'a>, Self>(alloc, reader, header)
    }
}

impl<'a> IsValue for Curve<'a> {
    fn is_value(&self) {
        self.a.is_value();
        self.b.is_value();
        if let Some(value) = &self.seed.0 {
            value.is_value();
        }
    }
}

/// Writes the fields, first to last. The errors are those that [`Sequence`] lists.
impl<'a> HasFields for Curve<'a> {
    ghost fields_size = { λ v. ⟦<CurveFields<'a> as Encode>⟧.size
        (⟦<Curve<'a> as FromFields<CurveFields<'a>>>⟧.fields v) };

    ghost fields_answers = { λ v. ⟦<CurveFields<'a> as Encode>⟧.encode_answers
        (⟦<Curve<'a> as FromFields<CurveFields<'a>>>⟧.fields v) };

    fn call_fields<S, C: FieldsCall<S>>(
        &self,
        call: &C,
        state: &mut S,
        buf: &mut [u8],
    ) -> C::Output {
        call.call(&field_refs!(self, (a, b, seed)), state, buf)
    }
}

impl<'a> Item for Curve<'a> {
    ghost item = { sequence_item ⟦<Curve<'a> as Described>⟧.element };
}

impl<'a> LawfulItem for Curve<'a> {
    ghost is_lawful_item = { is_lawful_item ⟦<Curve<'a> as Described>⟧.element refl };
}
