//! Written by asn1_compile from the module SEC1: change the module instead.
//!
//! DssParms.
ghost use Rattle.std.specs.Prelude.{◌≡◌};
ghost use Rattle.std.proofs.Common.{refl};
ghost use Rattle.der.specs.Prelude.{map_ok};
ghost use Rattle.der_asn1.specs.Meaning.{alternative, field, is_lawful_item, sequence, sequence_item};
ghost use Rattle.der_asn1.specs.TupleFields.{three_fields};

use der::{
    Decode, DecodeValue, Encode, Error, FieldsCall, FromFields, HasFields, Header, IsValue, Lends,
    Reader, Sequence, SliceReader, decode_sequence, field_refs,
};
use der_asn1::{Described, IntRef, Item, LawfulItem};
use std::alloc::Global;

/// The parameters of DSA keys (RFC 3279, 2.3.2), borrowed from the input.
#[derive(Clone, Copy, Debug, Drop, PartialEq, Eq)]
pub struct DssParms<'a> {
    /// The prime p, the modulus.
    pub p: IntRef<'a>,
    /// The prime q, the order of g.
    pub q: IntRef<'a>,
    /// The generator g.
    pub g: IntRef<'a>,
}

/// The fields of [`DssParms`] as one type, in the order in which they are encoded.
pub type DssParmsFields<'a> = (IntRef<'a>, IntRef<'a>, IntRef<'a>);

impl<'a> FromFields<DssParmsFields<'a>> for DssParms<'a> {
    ghost fields = { λ v. (v.p, v.q, v.g) };

    fn from_fields(fields: DssParmsFields<'a>) -> Self {
        let (p, q, g) = fields;
        DssParms { p, q, g }
    }
}

impl<'a> Sequence for DssParms<'a> {
    ghost meaning = { sequence (three_fields (field (alternative
        ⟦<IntRef<'a> as Described>⟧.element)) (field (alternative
        ⟦<IntRef<'a> as Described>⟧.element)) (field (alternative
        ⟦<IntRef<'a> as Described>⟧.element)))
        ⟦<DssParms<'a> as FromFields<DssParmsFields<'a>>>⟧.fields };

    ghost fits = { (refl, refl) };
}

/// Decodes the fields, first to last. The errors are those that [`Sequence`] lists.
impl<'a, R: Lends<Borrowed = &'a [u8]>> DecodeValue<R> for DssParms<'a> {
    type Error = Error;

    ghost decode_value_answers = { λ h s result t.
        ⟦<DssParmsFields<'a> as Decode<SliceReader<'a>>>⟧.decode_answers s (map_ok
        ⟦<DssParms<'a> as FromFields<DssParmsFields<'a>>>⟧.fields result) t };

    fn decode_value(alloc: Global, reader: &mut R, header: Header) -> Result<Self, Error>
    where
        R: Reader,
    {
        decode_sequence::<R, DssParmsFields<'a>, Self>(alloc, reader, header)
    }
}

impl<'a> IsValue for DssParms<'a> {
    fn is_value(&self) {
        self.p.is_value();
        self.q.is_value();
        self.g.is_value();
    }
}

/// Writes the fields, first to last. The errors are those that [`Sequence`] lists.
impl<'a> HasFields for DssParms<'a> {
    ghost fields_size = { λ v. ⟦<DssParmsFields<'a> as Encode>⟧.size
        (⟦<DssParms<'a> as FromFields<DssParmsFields<'a>>>⟧.fields v) };

    ghost fields_answers = { λ v. ⟦<DssParmsFields<'a> as Encode>⟧.encode_answers
        (⟦<DssParms<'a> as FromFields<DssParmsFields<'a>>>⟧.fields v) };

    fn call_fields<S, C: FieldsCall<S>>(
        &self,
        call: &C,
        state: &mut S,
        buf: &mut [u8],
    ) -> C::Output {
        call.call(&field_refs!(self, (p, q, g)), state, buf)
    }
}

impl<'a> Item for DssParms<'a> {
    ghost item = { sequence_item ⟦<DssParms<'a> as Described>⟧.element };
}

impl<'a> LawfulItem for DssParms<'a> {
    ghost is_lawful_item = { is_lawful_item ⟦<DssParms<'a> as Described>⟧.element refl };
}
