//! Written by asn1_compile from the module SEC1: change the module instead.
//!
//! Pentanomial.
ghost use Rattle.std.specs.Prelude.{◌≡◌};
ghost use Rattle.std.proofs.Common.{refl};
ghost use Rattle.der.specs.Prelude.{map_ok};
ghost use Rattle.der_asn1.specs.Meaning.{alternative, field, is_lawful_item, sequence, sequence_item};
ghost use Rattle.der_asn1.specs.TupleFields.{three_fields};

use der::{
    Decode, DecodeValue, Encode, Error, FieldsCall, FromFields, HasFields, Header, IsValue, Lends,
    Reader, Sequence, SliceReader, decode_sequence, field_refs,
};
use der_asn1::{Described, IntRef, Item, LawfulItem};
use std::alloc::Global;

/// The exponents of the pentanomial x^m + x^k3 + x^k2 + x^k1 + 1 (SEC 1, C.1), borrowed from the
/// input.
#[derive(Clone, Copy, Debug, Drop, PartialEq, Eq)]
pub struct Pentanomial<'a> {
    /// The exponent k1, the least of the three.
    pub k1: IntRef<'a>,
    /// The exponent k2.
    pub k2: IntRef<'a>,
    /// The exponent k3, the greatest of the three.
    pub k3: IntRef<'a>,
}

/// The fields of [`Pentanomial`] as one type, in the order in which they are encoded.
pub type PentanomialFields<'a> = (IntRef<'a>, IntRef<'a>, IntRef<'a>);

impl<'a> FromFields<PentanomialFields<'a>> for Pentanomial<'a> {
    ghost fields = { λ v. (v.k1, v.k2, v.k3) };

    fn from_fields(fields: PentanomialFields<'a>) -> Self {
        let (k1, k2, k3) = fields;
        Pentanomial { k1, k2, k3 }
    }
}

impl<'a> Sequence for Pentanomial<'a> {
    ghost meaning = { sequence (three_fields (field (alternative
        ⟦<IntRef<'a> as Described>⟧.element)) (field (alternative
        ⟦<IntRef<'a> as Described>⟧.element)) (field (alternative
        ⟦<IntRef<'a> as Described>⟧.element)))
        ⟦<Pentanomial<'a> as FromFields<PentanomialFields<'a>>>⟧.fields };

    ghost fits = { (refl, refl) };
}

/// Decodes the fields, first to last. The errors are those that [`Sequence`] lists.
impl<'a, R: Lends<Borrowed = &'a [u8]>> DecodeValue<R> for Pentanomial<'a> {
    type Error = Error;

    ghost decode_value_answers = { λ h s result t.
        ⟦<PentanomialFields<'a> as Decode<SliceReader<'a>>>⟧.decode_answers s (map_ok
        ⟦<Pentanomial<'a> as FromFields<PentanomialFields<'a>>>⟧.fields result) t };

    fn decode_value(alloc: Global, reader: &mut R, header: Header) -> Result<Self, Error>
    where
        R: Reader,
    {
        decode_sequence::<R, PentanomialFields<'a>, Self>(alloc, reader, header)
    }
}

impl<'a> IsValue for Pentanomial<'a> {
    fn is_value(&self) {
        self.k1.is_value();
        self.k2.is_value();
        self.k3.is_value();
    }
}

/// Writes the fields, first to last. The errors are those that [`Sequence`] lists.
impl<'a> HasFields for Pentanomial<'a> {
    ghost fields_size = { λ v. ⟦<PentanomialFields<'a> as Encode>⟧.size
        (⟦<Pentanomial<'a> as FromFields<PentanomialFields<'a>>>⟧.fields v) };

    ghost fields_answers = { λ v. ⟦<PentanomialFields<'a> as Encode>⟧.encode_answers
        (⟦<Pentanomial<'a> as FromFields<PentanomialFields<'a>>>⟧.fields v) };

    fn call_fields<S, C: FieldsCall<S>>(
        &self,
        call: &C,
        state: &mut S,
        buf: &mut [u8],
    ) -> C::Output {
        call.call(&field_refs!(self, (k1, k2, k3)), state, buf)
    }
}

impl<'a> Item for Pentanomial<'a> {
    ghost item = { sequence_item ⟦<Pentanomial<'a> as Described>⟧.element };
}

impl<'a> LawfulItem for Pentanomial<'a> {
    ghost is_lawful_item = { is_lawful_item ⟦<Pentanomial<'a> as Described>⟧.element refl };
}
