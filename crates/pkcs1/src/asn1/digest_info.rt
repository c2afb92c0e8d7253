//! Written by asn1_compile from the module PKCS-1: change the module instead.
//!
//! DigestInfo.
ghost use Rattle.std.specs.Prelude.{◌≡◌};
ghost use Rattle.std.proofs.Common.{refl};
ghost use Rattle.der.specs.Prelude.{map_ok};
ghost use Rattle.der_asn1.specs.Meaning.{alternative, field, is_lawful_item, sequence, sequence_item, two_fields};

use der::{
    Decode, DecodeValue, Encode, Error, FieldsCall, FromFields, HasFields, Header, IsValue, Lends,
    Reader, Sequence, SliceReader, decode_sequence, field_refs,
};
use der_asn1::{Described, Item, LawfulItem, OctetStringRef};
use spki::AlgorithmIdentifierRef;
use std::alloc::Global;

/// A digest with its algorithm (RFC 8017, A.2.4), which a signature of PKCS #1 v1.5 covers,
/// borrowed from the input.
#[derive(Clone, Copy, Debug, Drop, PartialEq, Eq)]
pub struct DigestInfo<'a> {
    /// The hash algorithm.
    pub digest_algorithm: AlgorithmIdentifierRef<'a>,
    /// The octets of the digest. Their number is not checked.
    pub digest: OctetStringRef<'a>,
}

/// The fields of [`DigestInfo`] as one type, in the order in which they are encoded.
pub type DigestInfoFields<'a> = (AlgorithmIdentifierRef<'a>, OctetStringRef<'a>);

impl<'a> FromFields<DigestInfoFields<'a>> for DigestInfo<'a> {
    ghost fields = { λ v. (v.digest_algorithm, v.digest) };

    fn from_fields(fields: DigestInfoFields<'a>) -> Self {
        let (digest_algorithm, digest) = fields;
        DigestInfo {
            digest_algorithm,
            digest,
        }
    }
}

impl<'a> Sequence for DigestInfo<'a> {
    ghost meaning = { sequence (two_fields (field (alternative
        ⟦<AlgorithmIdentifierRef<'a> as Described>⟧.element)) (field (alternative
        ⟦<OctetStringRef<'a> as Described>⟧.element)))
        ⟦<DigestInfo<'a> as FromFields<DigestInfoFields<'a>>>⟧.fields };

    ghost fits = { (refl, refl) };
}

/// Decodes the fields, first to last. The errors are those that [`Sequence`] lists.
impl<'a, R: Lends<Borrowed = &'a [u8]>> DecodeValue<R> for DigestInfo<'a> {
    type Error = Error;

    ghost decode_value_answers = { λ h s result t.
        ⟦<DigestInfoFields<'a> as Decode<SliceReader<'a>>>⟧.decode_answers s (map_ok
        ⟦<DigestInfo<'a> as FromFields<DigestInfoFields<'a>>>⟧.fields result) t };

    fn decode_value(alloc: Global, reader: &mut R, header: Header) -> Result<Self, Error>
    where
        R: Reader,
    {
        decode_sequence::<R, DigestInfoFields<'a>, Self>(alloc, reader, header)
    }
}

impl<'a> IsValue for DigestInfo<'a> {
    fn is_value(&self) {
        self.digest_algorithm.is_value();
        self.digest.is_value();
    }
}

/// Writes the fields, first to last. The errors are those that [`Sequence`] lists.
impl<'a> HasFields for DigestInfo<'a> {
    ghost fields_size = { λ v. ⟦<DigestInfoFields<'a> as Encode>⟧.size
        (⟦<DigestInfo<'a> as FromFields<DigestInfoFields<'a>>>⟧.fields v) };

    ghost fields_answers = { λ v. ⟦<DigestInfoFields<'a> as Encode>⟧.encode_answers
        (⟦<DigestInfo<'a> as FromFields<DigestInfoFields<'a>>>⟧.fields v) };

    fn call_fields<S, C: FieldsCall<S>>(
        &self,
        call: &C,
        state: &mut S,
        buf: &mut [u8],
    ) -> C::Output {
        call.call(&field_refs!(self, (digest_algorithm, digest)), state, buf)
    }
}

impl<'a> Item for DigestInfo<'a> {
    ghost item = { sequence_item ⟦<DigestInfo<'a> as Described>⟧.element };
}

impl<'a> LawfulItem for DigestInfo<'a> {
    ghost is_lawful_item = { is_lawful_item ⟦<DigestInfo<'a> as Described>⟧.element refl };
}
