//! Written by asn1_compile from the module PrivateKeys: change the module instead.
//!
//! Pbes2Params.
ghost use Rattle.std.specs.Prelude.{◌≡◌};
ghost use Rattle.std.proofs.Common.{refl};
ghost use Rattle.der.specs.Prelude.{map_ok};
ghost use Rattle.der_asn1.specs.Meaning.{alternative, field, is_lawful_item, sequence, sequence_item, two_fields};

use der::{
    Decode, DecodeValue, Encode, Error, FieldsCall, FromFields, HasFields, Header, IsValue, Lends,
    Reader, Sequence, SliceReader, decode_sequence, field_refs,
};
use der_asn1::{Described, Item, LawfulItem};
use spki::AlgorithmIdentifierRef;
use std::alloc::Global;

/// The parameters of encryption with a password by PBES2 (RFC 8018, A.4), borrowed from the input.
#[derive(Clone, Copy, Debug, Drop, PartialEq, Eq)]
pub struct Pbes2Params<'a> {
    /// The algorithm that derives the key from the password.
    pub key_derivation_func: AlgorithmIdentifierRef<'a>,
    /// The algorithm of the encryption.
    pub encryption_scheme: AlgorithmIdentifierRef<'a>,
}

/// The fields of [`Pbes2Params`] as one type, in the order in which they are encoded.
pub type Pbes2ParamsFields<'a> = (AlgorithmIdentifierRef<'a>, AlgorithmIdentifierRef<'a>);

impl<'a> FromFields<Pbes2ParamsFields<'a>> for Pbes2Params<'a> {
    ghost fields = { λ v. (v.key_derivation_func, v.encryption_scheme) };

    fn from_fields(fields: Pbes2ParamsFields<'a>) -> Self {
        let (key_derivation_func, encryption_scheme) = fields;
        Pbes2Params {
            key_derivation_func,
            encryption_scheme,
        }
    }
}

impl<'a> Sequence for Pbes2Params<'a> {
    ghost meaning = { sequence (two_fields (field (alternative
        ⟦<AlgorithmIdentifierRef<'a> as Described>⟧.element)) (field (alternative
        ⟦<AlgorithmIdentifierRef<'a> as Described>⟧.element)))
        ⟦<Pbes2Params<'a> as FromFields<Pbes2ParamsFields<'a>>>⟧.fields };

    ghost fits = { (refl, refl) };
}

/// Decodes the fields, first to last. The errors are those that [`Sequence`] lists.
impl<'a, R: Lends<Borrowed = &'a [u8]>> DecodeValue<R> for Pbes2Params<'a> {
    type Error = Error;

    ghost decode_value_answers = { λ h s result t.
        ⟦<Pbes2ParamsFields<'a> as Decode<SliceReader<'a>>>⟧.decode_answers s (map_ok
        ⟦<Pbes2Params<'a> as FromFields<Pbes2ParamsFields<'a>>>⟧.fields result) t };

    fn decode_value(alloc: Global, reader: &mut R, header: Header) -> Result<Self, Error>
    where
        R: Reader,
    {
        decode_sequence::<R, Pbes2ParamsFields<'a>, Self>(alloc, reader, header)
    }
}

impl<'a> IsValue for Pbes2Params<'a> {
    fn is_value(&self) {
        self.key_derivation_func.is_value();
        self.encryption_scheme.is_value();
    }
}

/// Writes the fields, first to last. The errors are those that [`Sequence`] lists.
impl<'a> HasFields for Pbes2Params<'a> {
    ghost fields_size = { λ v. ⟦<Pbes2ParamsFields<'a> as Encode>⟧.size
        (⟦<Pbes2Params<'a> as FromFields<Pbes2ParamsFields<'a>>>⟧.fields v) };

    ghost fields_answers = { λ v. ⟦<Pbes2ParamsFields<'a> as Encode>⟧.encode_answers
        (⟦<Pbes2Params<'a> as FromFields<Pbes2ParamsFields<'a>>>⟧.fields v) };

    fn call_fields<S, C: FieldsCall<S>>(
        &self,
        call: &C,
        state: &mut S,
        buf: &mut [u8],
    ) -> C::Output {
        call.call(
            &field_refs!(self, (key_derivation_func, encryption_scheme)),
            state,
            buf,
        )
    }
}

impl<'a> Item for Pbes2Params<'a> {
    ghost item = { sequence_item ⟦<Pbes2Params<'a> as Described>⟧.element };
}

impl<'a> LawfulItem for Pbes2Params<'a> {
    ghost is_lawful_item = { is_lawful_item ⟦<Pbes2Params<'a> as Described>⟧.element refl };
}
