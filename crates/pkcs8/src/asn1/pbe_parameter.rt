//! Written by asn1_compile from the module PrivateKeys: change the module instead.
//!
//! PbeParameter.
ghost use Rattle.std.specs.Prelude.{◌≡◌};
ghost use Rattle.std.proofs.Common.{refl};
ghost use Rattle.der.specs.Prelude.{map_ok};
ghost use Rattle.der_asn1.specs.Meaning.{alternative, field, is_lawful_item, sequence, sequence_item, two_fields};

use der::{
    Decode, DecodeValue, Encode, Error, FieldsCall, FromFields, HasFields, Header, IsValue, Lends,
    Reader, Sequence, SliceReader, decode_sequence, field_refs,
};
use der_asn1::{Described, IntRef, Item, LawfulItem, OctetStringRef};
use std::alloc::Global;

/// The parameters of encryption with a password by PBES1 (RFC 8018, A.3), borrowed from the input.
#[derive(Clone, Copy, Debug, Drop, PartialEq, Eq)]
pub struct PbeParameter<'a> {
    /// The salt, which should have eight octets. Their number is not checked.
    pub salt: OctetStringRef<'a>,
    /// The number of iterations. That it is positive is not checked.
    pub iteration_count: IntRef<'a>,
}

/// The fields of [`PbeParameter`] as one type, in the order in which they are encoded.
pub type PbeParameterFields<'a> = (OctetStringRef<'a>, IntRef<'a>);

impl<'a> FromFields<PbeParameterFields<'a>> for PbeParameter<'a> {
    ghost fields = { λ v. (v.salt, v.iteration_count) };

    fn from_fields(fields: PbeParameterFields<'a>) -> Self {
        let (salt, iteration_count) = fields;
        PbeParameter {
            salt,
            iteration_count,
        }
    }
}

impl<'a> Sequence for PbeParameter<'a> {
    ghost meaning = { sequence (two_fields (field (alternative
        ⟦<OctetStringRef<'a> as Described>⟧.element)) (field (alternative
        ⟦<IntRef<'a> as Described>⟧.element)))
        ⟦<PbeParameter<'a> as FromFields<PbeParameterFields<'a>>>⟧.fields };

    ghost fits = { (refl, refl) };
}

/// Decodes the fields, first to last. The errors are those that [`Sequence`] lists.
impl<'a, R: Lends<Borrowed = &'a [u8]>> DecodeValue<R> for PbeParameter<'a> {
    type Error = Error;

    ghost decode_value_answers = { λ h s result t.
        ⟦<PbeParameterFields<'a> as Decode<SliceReader<'a>>>⟧.decode_answers s (map_ok
        ⟦<PbeParameter<'a> as FromFields<PbeParameterFields<'a>>>⟧.fields result) t };

    fn decode_value(alloc: Global, reader: &mut R, header: Header) -> Result<Self, Error>
    where
        R: Reader,
    {
        decode_sequence::<R, PbeParameterFields<'a>, Self>(alloc, reader, header)
    }
}

impl<'a> IsValue for PbeParameter<'a> {
    fn is_value(&self) {
        self.salt.is_value();
        self.iteration_count.is_value();
    }
}

/// Writes the fields, first to last. The errors are those that [`Sequence`] lists.
impl<'a> HasFields for PbeParameter<'a> {
    ghost fields_size = { λ v. ⟦<PbeParameterFields<'a> as Encode>⟧.size
        (⟦<PbeParameter<'a> as FromFields<PbeParameterFields<'a>>>⟧.fields v) };

    ghost fields_answers = { λ v. ⟦<PbeParameterFields<'a> as Encode>⟧.encode_answers
        (⟦<PbeParameter<'a> as FromFields<PbeParameterFields<'a>>>⟧.fields v) };

    fn call_fields<S, C: FieldsCall<S>>(
        &self,
        call: &C,
        state: &mut S,
        buf: &mut [u8],
    ) -> C::Output {
        call.call(&field_refs!(self, (salt, iteration_count)), state, buf)
    }
}

impl<'a> Item for PbeParameter<'a> {
    ghost item = { sequence_item ⟦<PbeParameter<'a> as Described>⟧.element };
}

impl<'a> LawfulItem for PbeParameter<'a> {
    ghost is_lawful_item = { is_lawful_item ⟦<PbeParameter<'a> as Described>⟧.element refl };
}
