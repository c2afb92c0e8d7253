//! Written by asn1_compile from the module PKCS-1: change the module instead.
//!
//! RsaOaepParams.
ghost use Rattle.std.specs.Prelude.{◌≡◌};
ghost use Rattle.std.proofs.Common.{refl};
ghost use Rattle.der.specs.Prelude.{map_ok};
ghost use Rattle.der_asn1.specs.DefaultedTo.{defaulted_to};
ghost use Rattle.der_asn1.specs.Meaning.{is_lawful_item, sequence, sequence_item};
ghost use Rattle.der_asn1.specs.TupleFields.{three_fields};

use crate::{EmptyLabelDefault, Mgf1Sha1Default, Sha1Default};
use der::{
    Decode, DecodeValue, Encode, Error, FieldsCall, FromFields, HasFields, Header, IsValue, Lends,
    Reader, Sequence, SliceReader, decode_sequence, field_refs,
};
use der_asn1::{DefaultOf, DefaultedTo, Described, Explicit, Item, LawfulItem};
use spki::AlgorithmIdentifierRef;
use std::alloc::Global;

/// The parameters of encryption with OAEP (RFC 8017, A.2.1; RFC 4055, 4.1), borrowed from the
/// input.
#[derive(Debug, Drop, PartialEq, Eq)]
pub struct RsaOaepParams<'a> {
    /// The hash algorithm. The default is SHA-1.
    pub hash: DefaultedTo<Explicit<AlgorithmIdentifierRef<'a>, 0>, Sha1Default>,
    /// The mask generation function. The default is MGF1 with SHA-1.
    pub mask_gen: DefaultedTo<Explicit<AlgorithmIdentifierRef<'a>, 1>, Mgf1Sha1Default>,
    /// The source of the label. The default is the empty label.
    pub p_source: DefaultedTo<Explicit<AlgorithmIdentifierRef<'a>, 2>, EmptyLabelDefault>,
}

/// The fields of [`RsaOaepParams`] as one type, in the order in which they are encoded.
pub type RsaOaepParamsFields<'a> = (
    DefaultedTo<Explicit<AlgorithmIdentifierRef<'a>, 0>, Sha1Default>,
    DefaultedTo<Explicit<AlgorithmIdentifierRef<'a>, 1>, Mgf1Sha1Default>,
    DefaultedTo<Explicit<AlgorithmIdentifierRef<'a>, 2>, EmptyLabelDefault>,
);

impl<'a> FromFields<RsaOaepParamsFields<'a>> for RsaOaepParams<'a> {
    ghost fields = { λ v. (v.hash, v.mask_gen, v.p_source) };

    fn from_fields(fields: RsaOaepParamsFields<'a>) -> Self {
        let (hash, mask_gen, p_source) = fields;
        RsaOaepParams {
            hash,
            mask_gen,
            p_source,
        }
    }
}

impl<'a> Sequence for RsaOaepParams<'a> {
    ghost meaning = { sequence (three_fields (defaulted_to
        ⟦<Sha1Default as DefaultOf<Explicit<AlgorithmIdentifierRef<'a>, 0>>>⟧.default_contents
        ⟦<Explicit<AlgorithmIdentifierRef<'a>, 0> as Described>⟧.element (λ v. v.0)) (defaulted_to
        ⟦<Mgf1Sha1Default as DefaultOf<Explicit<AlgorithmIdentifierRef<'a>, 1>>>⟧.default_contents
        ⟦<Explicit<AlgorithmIdentifierRef<'a>, 1> as Described>⟧.element (λ v. v.0)) (defaulted_to
        ⟦<EmptyLabelDefault as DefaultOf<Explicit<AlgorithmIdentifierRef<'a>, 2>>>⟧.default_contents
        ⟦<Explicit<AlgorithmIdentifierRef<'a>, 2> as Described>⟧.element (λ v. v.0)))
        ⟦<RsaOaepParams<'a> as FromFields<RsaOaepParamsFields<'a>>>⟧.fields };

    ghost fits = { (refl, refl) };
}

/// Decodes the fields, first to last. The errors are those that [`Sequence`] lists.
impl<'a, R: Lends<Borrowed = &'a [u8]>> DecodeValue<R> for RsaOaepParams<'a> {
    type Error = Error;

    ghost decode_value_answers = { λ h s result t.
        ⟦<RsaOaepParamsFields<'a> as Decode<SliceReader<'a>>>⟧.decode_answers s (map_ok
        ⟦<RsaOaepParams<'a> as FromFields<RsaOaepParamsFields<'a>>>⟧.fields result) t };

    fn decode_value(alloc: Global, reader: &mut R, header: Header) -> Result<Self, Error>
    where
        R: Reader,
    {
        decode_sequence::<R, RsaOaepParamsFields<'a>, Self>(alloc, reader, header)
    }
}

impl<'a> IsValue for RsaOaepParams<'a> {
    fn is_value(&self) {
        self.hash.0.is_value();
        self.mask_gen.0.is_value();
        self.p_source.0.is_value();
    }
}

/// Writes the fields, first to last. The errors are those that [`Sequence`] lists.
impl<'a> HasFields for RsaOaepParams<'a> {
    ghost fields_size = { λ v. ⟦<RsaOaepParamsFields<'a> as Encode>⟧.size
        (⟦<RsaOaepParams<'a> as FromFields<RsaOaepParamsFields<'a>>>⟧.fields v) };

    ghost fields_answers = { λ v. ⟦<RsaOaepParamsFields<'a> as Encode>⟧.encode_answers
        (⟦<RsaOaepParams<'a> as FromFields<RsaOaepParamsFields<'a>>>⟧.fields v) };

    fn call_fields<S, C: FieldsCall<S>>(
        &self,
        call: &C,
        state: &mut S,
        buf: &mut [u8],
    ) -> C::Output {
        call.call(&field_refs!(self, (hash, mask_gen, p_source)), state, buf)
    }
}

impl<'a> Item for RsaOaepParams<'a> {
    ghost item = { sequence_item ⟦<RsaOaepParams<'a> as Described>⟧.element };
}

impl<'a> LawfulItem for RsaOaepParams<'a> {
    ghost is_lawful_item = { is_lawful_item ⟦<RsaOaepParams<'a> as Described>⟧.element refl };
}
