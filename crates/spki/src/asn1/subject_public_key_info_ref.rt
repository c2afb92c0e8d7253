//! Written by asn1_compile from the module PublicKeyInfo: change the module instead.
//!
//! SubjectPublicKeyInfoRef.
ghost use Rattle.std.specs.Prelude.{◌≡◌};
ghost use Rattle.std.proofs.Common.{refl};
ghost use Rattle.der.specs.Prelude.{map_ok};
ghost use Rattle.der_asn1.specs.Meaning.{alternative, field, is_lawful_item, sequence, sequence_item, two_fields};

use crate::asn1::algorithm_identifier_ref::AlgorithmIdentifierRef;
use der::{
    Decode, DecodeValue, Encode, Error, FieldsCall, FromFields, HasFields, Header, IsValue, Lends,
    Reader, Sequence, SliceReader, decode_sequence, field_refs,
};
use der_asn1::{BitStringRef, Described, Item, LawfulItem};
use std::alloc::Global;

/// A public key with its algorithm (RFC 5280, 4.1.2.7), borrowed from the input.
#[derive(Clone, Copy, Debug, Drop, PartialEq, Eq)]
pub struct SubjectPublicKeyInfoRef<'a> {
    /// The algorithm of the key.
    pub algorithm: AlgorithmIdentifierRef<'a>,
    /// The octets of the key, as a BIT STRING.
    pub subject_public_key: BitStringRef<'a>,
}

/// The fields of [`SubjectPublicKeyInfoRef`] as one type, in the order in which they are encoded.
pub type SubjectPublicKeyInfoRefFields<'a> = (AlgorithmIdentifierRef<'a>, BitStringRef<'a>);

impl<'a> FromFields<SubjectPublicKeyInfoRefFields<'a>> for SubjectPublicKeyInfoRef<'a> {
    ghost fields = { λ v. (v.algorithm, v.subject_public_key) };

    fn from_fields(fields: SubjectPublicKeyInfoRefFields<'a>) -> Self {
        let (algorithm, subject_public_key) = fields;
        SubjectPublicKeyInfoRef {
            algorithm,
            subject_public_key,
        }
    }
}

impl<'a> Sequence for SubjectPublicKeyInfoRef<'a> {
    ghost meaning = { sequence (two_fields (field (alternative
        ⟦<AlgorithmIdentifierRef<'a> as Described>⟧.element)) (field (alternative
        ⟦<BitStringRef<'a> as Described>⟧.element)))
        ⟦<SubjectPublicKeyInfoRef<'a> as FromFields<SubjectPublicKeyInfoRefFields<'a>>>⟧.fields };

    ghost fits = { (refl, refl) };
}

/// Decodes the fields, first to last. The errors are those that [`Sequence`] lists.
impl<'a, R: Lends<Borrowed = &'a [u8]>> DecodeValue<R> for SubjectPublicKeyInfoRef<'a> {
    type Error = Error;

    ghost decode_value_answers = { λ h s result t.
        ⟦<SubjectPublicKeyInfoRefFields<'a> as Decode<SliceReader<'a>>>⟧.decode_answers s (map_ok
        ⟦<SubjectPublicKeyInfoRef<'a> as FromFields<SubjectPublicKeyInfoRefFields<'a>>>⟧.fields result) t };

    fn decode_value(alloc: Global, reader: &mut R, header: Header) -> Result<Self, Error>
    where
        R: Reader,
    {
        decode_sequence::<R, SubjectPublicKeyInfoRefFields<'a>, Self>(alloc, reader, header)
    }
}

impl<'a> IsValue for SubjectPublicKeyInfoRef<'a> {
    fn is_value(&self) {
        self.algorithm.is_value();
        self.subject_public_key.is_value();
    }
}

/// Writes the fields, first to last. The errors are those that [`Sequence`] lists.
impl<'a> HasFields for SubjectPublicKeyInfoRef<'a> {
    ghost fields_size = { λ v. ⟦<SubjectPublicKeyInfoRefFields<'a> as Encode>⟧.size
        (⟦<SubjectPublicKeyInfoRef<'a> as FromFields<SubjectPublicKeyInfoRefFields<'a>>>⟧.fields v) };

    ghost fields_answers = { λ v. ⟦<SubjectPublicKeyInfoRefFields<'a> as Encode>⟧.encode_answers
        (⟦<SubjectPublicKeyInfoRef<'a> as FromFields<SubjectPublicKeyInfoRefFields<'a>>>⟧.fields v) };

    fn call_fields<S, C: FieldsCall<S>>(
        &self,
        call: &C,
        state: &mut S,
        buf: &mut [u8],
    ) -> C::Output {
        call.call(
            &field_refs!(self, (algorithm, subject_public_key)),
            state,
            buf,
        )
    }
}

impl<'a> Item for SubjectPublicKeyInfoRef<'a> {
    ghost item = { sequence_item ⟦<SubjectPublicKeyInfoRef<'a> as Described>⟧.element };
}

impl<'a> LawfulItem for SubjectPublicKeyInfoRef<'a> {
    ghost is_lawful_item = { is_lawful_item
        ⟦<SubjectPublicKeyInfoRef<'a> as Described>⟧.element refl };
}
