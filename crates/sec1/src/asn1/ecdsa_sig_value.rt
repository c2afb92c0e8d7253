//! Written by asn1_compile from the module SEC1: change the module instead.
//!
//! EcdsaSigValue.
ghost use Rattle.std.specs.Prelude.{◌≡◌};
ghost use Rattle.std.proofs.Common.{refl};
ghost use Rattle.der.specs.Prelude.{map_ok};
ghost use Rattle.der_asn1.specs.Meaning.{alternative, field, is_lawful_item, sequence, sequence_item, two_fields};

use der::{
    Decode, DecodeValue, Encode, Error, FieldsCall, FromFields, HasFields, Header, IsValue, Lends,
    Reader, Sequence, SliceReader, decode_sequence, field_refs,
};
use der_asn1::{Described, IntRef, Item, LawfulItem};
use std::alloc::Global;

/// A signature of ECDSA (RFC 3279, 2.2.3), borrowed from the input.
#[derive(Clone, Copy, Debug, Drop, PartialEq, Eq)]
pub struct EcdsaSigValue<'a> {
    /// The first number of the signature, r.
    pub r: IntRef<'a>,
    /// The second number of the signature, s.
    pub s: IntRef<'a>,
}

/// The fields of [`EcdsaSigValue`] as one type, in the order in which they are encoded.
pub type EcdsaSigValueFields<'a> = (IntRef<'a>, IntRef<'a>);

impl<'a> FromFields<EcdsaSigValueFields<'a>> for EcdsaSigValue<'a> {
    ghost fields = { λ v. (v.r, v.s) };

    fn from_fields(fields: EcdsaSigValueFields<'a>) -> Self {
        let (r, s) = fields;
        EcdsaSigValue { r, s }
    }
}

impl<'a> Sequence for EcdsaSigValue<'a> {
    ghost meaning = { sequence (two_fields (field (alternative ⟦<IntRef<'a> as Described>⟧.element))
        (field (alternative ⟦<IntRef<'a> as Described>⟧.element)))
        ⟦<EcdsaSigValue<'a> as FromFields<EcdsaSigValueFields<'a>>>⟧.fields };

    ghost fits = { (refl, refl) };
}

/// Decodes the fields, first to last. The errors are those that [`Sequence`] lists.
impl<'a, R: Lends<Borrowed = &'a [u8]>> DecodeValue<R> for EcdsaSigValue<'a> {
    type Error = Error;

    ghost decode_value_answers = { λ h s result t.
        ⟦<EcdsaSigValueFields<'a> as Decode<SliceReader<'a>>>⟧.decode_answers s (map_ok
        ⟦<EcdsaSigValue<'a> as FromFields<EcdsaSigValueFields<'a>>>⟧.fields result) t };

    fn decode_value(alloc: Global, reader: &mut R, header: Header) -> Result<Self, Error>
    where
        R: Reader,
    {
        decode_sequence::<R, EcdsaSigValueFields<'a>, Self>(alloc, reader, header)
    }
}

impl<'a> IsValue for EcdsaSigValue<'a> {
    fn is_value(&self) {
        self.r.is_value();
        self.s.is_value();
    }
}

/// Writes the fields, first to last. The errors are those that [`Sequence`] lists.
impl<'a> HasFields for EcdsaSigValue<'a> {
    ghost fields_size = { λ v. ⟦<EcdsaSigValueFields<'a> as Encode>⟧.size
        (⟦<EcdsaSigValue<'a> as FromFields<EcdsaSigValueFields<'a>>>⟧.fields v) };

    ghost fields_answers = { λ v. ⟦<EcdsaSigValueFields<'a> as Encode>⟧.encode_answers
        (⟦<EcdsaSigValue<'a> as FromFields<EcdsaSigValueFields<'a>>>⟧.fields v) };

    fn call_fields<S, C: FieldsCall<S>>(
        &self,
        call: &C,
        state: &mut S,
        buf: &mut [u8],
    ) -> C::Output {
        call.call(&field_refs!(self, (r, s)), state, buf)
    }
}

impl<'a> Item for EcdsaSigValue<'a> {
    ghost item = { sequence_item ⟦<EcdsaSigValue<'a> as Described>⟧.element };
}

impl<'a> LawfulItem for EcdsaSigValue<'a> {
    ghost is_lawful_item = { is_lawful_item ⟦<EcdsaSigValue<'a> as Described>⟧.element refl };
}
