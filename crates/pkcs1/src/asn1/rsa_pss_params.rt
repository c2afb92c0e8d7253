//! Written by asn1_compile from the module PKCS-1: change the module instead.
//!
//! RsaPssParams.
ghost use Rattle.std.specs.Prelude.{◌≡◌};
ghost use Rattle.std.proofs.Common.{refl};
ghost use Rattle.der.specs.Prelude.{map_ok};
ghost use Rattle.der_asn1.specs.DefaultedTo.{defaulted_to};
ghost use Rattle.der_asn1.specs.Meaning.{alternative, defaulted, is_lawful_item, sequence, sequence_item};
ghost use Rattle.der_asn1.specs.TupleFields.{four_fields};

use crate::{Mgf1Sha1Default, Sha1Default};
use der::{
    Decode, DecodeValue, Encode, Error, FieldsCall, FromFields, HasFields, Header, IsValue, Lends,
    Reader, Sequence, SliceReader, decode_sequence, field_refs,
};
use der_asn1::{
    DefaultOf, DefaultU64, DefaultValue, Defaulted, DefaultedTo, Described, Explicit, IntegerOf,
    Item, LawfulItem, WithDefault,
};
use spki::AlgorithmIdentifierRef;
use std::alloc::Global;

/// The parameters of signatures with PSS (RFC 8017, A.2.3; RFC 4055, 3.1), borrowed from the input.
#[derive(Debug, Drop, PartialEq, Eq)]
pub struct RsaPssParams<'a> {
    /// The hash algorithm. The default is SHA-1.
    pub hash: DefaultedTo<Explicit<AlgorithmIdentifierRef<'a>, 0>, Sha1Default>,
    /// The mask generation function. The default is MGF1 with SHA-1.
    pub mask_gen: DefaultedTo<Explicit<AlgorithmIdentifierRef<'a>, 1>, Mgf1Sha1Default>,
    /// The number of octets of the salt. The default is 20. Decoding accepts every number from 0 to
    /// 2^64 - 1.
    pub salt_len: Defaulted<Explicit<WithDefault<IntegerOf<u64>, DefaultU64<20>>, 2>>,
    /// The trailer, as a number. The default is 1, which stands for the octet 0xBC. Decoding
    /// accepts every number from 0 to 2^64 - 1.
    pub trailer_field: Defaulted<Explicit<WithDefault<IntegerOf<u64>, DefaultU64<1>>, 3>>,
}

/// The fields of [`RsaPssParams`] as one type, in the order in which they are encoded.
pub type RsaPssParamsFields<'a> = (
    DefaultedTo<Explicit<AlgorithmIdentifierRef<'a>, 0>, Sha1Default>,
    DefaultedTo<Explicit<AlgorithmIdentifierRef<'a>, 1>, Mgf1Sha1Default>,
    Defaulted<Explicit<WithDefault<IntegerOf<u64>, DefaultU64<20>>, 2>>,
    Defaulted<Explicit<WithDefault<IntegerOf<u64>, DefaultU64<1>>, 3>>,
);

impl<'a> FromFields<RsaPssParamsFields<'a>> for RsaPssParams<'a> {
    ghost fields = { λ v. (v.hash, v.mask_gen, v.salt_len, v.trailer_field) };

    fn from_fields(fields: RsaPssParamsFields<'a>) -> Self {
        let (hash, mask_gen, salt_len, trailer_field) = fields;
        RsaPssParams {
            hash,
            mask_gen,
            salt_len,
            trailer_field,
        }
    }
}

impl<'a> Sequence for RsaPssParams<'a> {
    ghost meaning = { sequence (four_fields (defaulted_to
        ⟦<Sha1Default as DefaultOf<Explicit<AlgorithmIdentifierRef<'a>, 0>>>⟧.default_contents
        ⟦<Explicit<AlgorithmIdentifierRef<'a>, 0> as Described>⟧.element (λ v. v.0)) (defaulted_to
        ⟦<Mgf1Sha1Default as DefaultOf<Explicit<AlgorithmIdentifierRef<'a>, 1>>>⟧.default_contents
        ⟦<Explicit<AlgorithmIdentifierRef<'a>, 1> as Described>⟧.element (λ v. v.0)) (defaulted
        ⟦<Explicit<WithDefault<IntegerOf<u64>, DefaultU64<20>>, 2> as DefaultValue>⟧.is_default
        (alternative
        ⟦<Explicit<WithDefault<IntegerOf<u64>, DefaultU64<20>>, 2> as Described>⟧.element))
        (defaulted
        ⟦<Explicit<WithDefault<IntegerOf<u64>, DefaultU64<1>>, 3> as DefaultValue>⟧.is_default
        (alternative
        ⟦<Explicit<WithDefault<IntegerOf<u64>, DefaultU64<1>>, 3> as Described>⟧.element)))
        ⟦<RsaPssParams<'a> as FromFields<RsaPssParamsFields<'a>>>⟧.fields };

    ghost fits = { (refl, refl) };
}

/// Decodes the fields, first to last. The errors are those that [`Sequence`] lists.
impl<'a, R: Lends<Borrowed = &'a [u8]>> DecodeValue<R> for RsaPssParams<'a> {
    type Error = Error;

    ghost decode_value_answers = { λ h s result t.
        ⟦<RsaPssParamsFields<'a> as Decode<SliceReader<'a>>>⟧.decode_answers s (map_ok
        ⟦<RsaPssParams<'a> as FromFields<RsaPssParamsFields<'a>>>⟧.fields result) t };

    fn decode_value(alloc: Global, reader: &mut R, header: Header) -> Result<Self, Error>
    where
        R: Reader,
    {
        decode_sequence::<R, RsaPssParamsFields<'a>, Self>(alloc, reader, header)
    }
}

impl<'a> IsValue for RsaPssParams<'a> {
    fn is_value(&self) {
        self.hash.0.is_value();
        self.mask_gen.0.is_value();
        self.salt_len.0.is_value();
        self.trailer_field.0.is_value();
    }
}

/// Writes the fields, first to last. The errors are those that [`Sequence`] lists.
impl<'a> HasFields for RsaPssParams<'a> {
    ghost fields_size = { λ v. ⟦<RsaPssParamsFields<'a> as Encode>⟧.size
        (⟦<RsaPssParams<'a> as FromFields<RsaPssParamsFields<'a>>>⟧.fields v) };

    ghost fields_answers = { λ v. ⟦<RsaPssParamsFields<'a> as Encode>⟧.encode_answers
        (⟦<RsaPssParams<'a> as FromFields<RsaPssParamsFields<'a>>>⟧.fields v) };

    fn call_fields<S, C: FieldsCall<S>>(
        &self,
        call: &C,
        state: &mut S,
        buf: &mut [u8],
    ) -> C::Output {
        call.call(
            &field_refs!(self, (hash, mask_gen, salt_len, trailer_field)),
            state,
            buf,
        )
    }
}

impl<'a> Item for RsaPssParams<'a> {
    ghost item = { sequence_item ⟦<RsaPssParams<'a> as Described>⟧.element };
}

impl<'a> LawfulItem for RsaPssParams<'a> {
    ghost is_lawful_item = { is_lawful_item ⟦<RsaPssParams<'a> as Described>⟧.element refl };
}
