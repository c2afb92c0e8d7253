//! Written by asn1_compile from the module PrivateKeys: change the module instead.
//!
//! Pbkdf2Params.
ghost use Rattle.std.specs.Prelude.{◌≡◌};
ghost use Rattle.std.proofs.Common.{refl};
ghost use Rattle.der.specs.Prelude.{map_ok};
ghost use Rattle.der_asn1.specs.DefaultedTo.{defaulted_to};
ghost use Rattle.der_asn1.specs.Meaning.{alternative, field, is_lawful_item, optional, sequence, sequence_item};
ghost use Rattle.der_asn1.specs.TupleFields.{four_fields};

use crate::HmacWithSha1Default;
use crate::asn1::pbkdf2_salt::Pbkdf2Salt;
use der::{
    Decode, DecodeValue, Encode, Error, FieldsCall, FromFields, HasFields, Header, IsValue, Lends,
    Reader, Sequence, SliceReader, decode_sequence, field_refs,
};
use der_asn1::{
    DefaultOf, DefaultedTo, Described, DescribedChoice, IntRef, Item, LawfulItem, Optional,
};
use spki::AlgorithmIdentifierRef;
use std::alloc::Global;

/// The parameters of PBKDF2 (RFC 8018, A.2), borrowed from the input. The RFC requires that the
/// numbers are positive, which decoding does not check.
#[derive(Debug, Drop, PartialEq, Eq)]
pub struct Pbkdf2Params<'a> {
    /// The salt of the key derivation.
    pub salt: Pbkdf2Salt<'a>,
    /// The number of iterations of the key derivation.
    pub iteration_count: IntRef<'a>,
    /// The number of octets of the derived key, if present.
    pub key_length: Optional<IntRef<'a>>,
    /// The pseudorandom function. The default is HMAC with SHA-1.
    pub prf: DefaultedTo<AlgorithmIdentifierRef<'a>, HmacWithSha1Default>,
}

/// The fields of [`Pbkdf2Params`] as one type, in the order in which they are encoded.
pub type Pbkdf2ParamsFields<'a> = (
    Pbkdf2Salt<'a>,
    IntRef<'a>,
    Optional<IntRef<'a>>,
    DefaultedTo<AlgorithmIdentifierRef<'a>, HmacWithSha1Default>,
);

impl<'a> FromFields<Pbkdf2ParamsFields<'a>> for Pbkdf2Params<'a> {
    ghost fields = { λ v. (v.salt, v.iteration_count, v.key_length, v.prf) };

    fn from_fields(fields: Pbkdf2ParamsFields<'a>) -> Self {
        let (salt, iteration_count, key_length, prf) = fields;
        Pbkdf2Params {
            salt,
            iteration_count,
            key_length,
            prf,
        }
    }
}

impl<'a> Sequence for Pbkdf2Params<'a> {
    ghost meaning = { sequence (four_fields (field
        ⟦<Pbkdf2Salt<'a> as DescribedChoice>⟧.alternative) (field (alternative
        ⟦<IntRef<'a> as Described>⟧.element)) (optional (alternative
        ⟦<IntRef<'a> as Described>⟧.element)) (defaulted_to
        ⟦<HmacWithSha1Default as DefaultOf<AlgorithmIdentifierRef<'a>>>⟧.default_contents
        ⟦<AlgorithmIdentifierRef<'a> as Described>⟧.element (λ v. v.0)))
        ⟦<Pbkdf2Params<'a> as FromFields<Pbkdf2ParamsFields<'a>>>⟧.fields };

    ghost fits = { (refl, refl) };
}

/// Decodes the fields, first to last. The errors are those that [`Sequence`] lists.
impl<'a, R: Lends<Borrowed = &'a [u8]>> DecodeValue<R> for Pbkdf2Params<'a> {
    type Error = Error;

    ghost decode_value_answers = { λ h s result t.
        ⟦<Pbkdf2ParamsFields<'a> as Decode<SliceReader<'a>>>⟧.decode_answers s (map_ok
        ⟦<Pbkdf2Params<'a> as FromFields<Pbkdf2ParamsFields<'a>>>⟧.fields result) t };

    fn decode_value(alloc: Global, reader: &mut R, header: Header) -> Result<Self, Error>
    where
        R: Reader,
    {
        decode_sequence::<R, Pbkdf2ParamsFields<'a>, Self>(alloc, reader, header)
    }
}

impl<'a> IsValue for Pbkdf2Params<'a> {
    fn is_value(&self) {
        match &self.salt {
            Pbkdf2Salt::Specified(value) => value.is_value(),
            Pbkdf2Salt::OtherSource(value) => value.is_value(),
        }
        self.iteration_count.is_value();
        if let Some(value) = &self.key_length.0 {
            value.is_value();
        }
        self.prf.0.is_value();
    }
}

/// Writes the fields, first to last. The errors are those that [`Sequence`] lists.
impl<'a> HasFields for Pbkdf2Params<'a> {
    ghost fields_size = { λ v. ⟦<Pbkdf2ParamsFields<'a> as Encode>⟧.size
        (⟦<Pbkdf2Params<'a> as FromFields<Pbkdf2ParamsFields<'a>>>⟧.fields v) };

    ghost fields_answers = { λ v. ⟦<Pbkdf2ParamsFields<'a> as Encode>⟧.encode_answers
        (⟦<Pbkdf2Params<'a> as FromFields<Pbkdf2ParamsFields<'a>>>⟧.fields v) };

    fn call_fields<S, C: FieldsCall<S>>(
        &self,
        call: &C,
        state: &mut S,
        buf: &mut [u8],
    ) -> C::Output {
        call.call(
            &field_refs!(self, (salt, iteration_count, key_length, prf)),
            state,
            buf,
        )
    }
}

impl<'a> Item for Pbkdf2Params<'a> {
    ghost item = { sequence_item ⟦<Pbkdf2Params<'a> as Described>⟧.element };
}

impl<'a> LawfulItem for Pbkdf2Params<'a> {
    ghost is_lawful_item = { is_lawful_item ⟦<Pbkdf2Params<'a> as Described>⟧.element refl };
}
