//! Written by asn1_compile from the module OCSP: change the module instead.
//!
//! Signature.
ghost use Rattle.std.specs.Prelude.{◌≡◌};
ghost use Rattle.std.proofs.Common.{refl};
ghost use Rattle.der.specs.Prelude.{map_ok};
ghost use Rattle.der_asn1.specs.Meaning.{alternative, field, is_lawful_item, optional, sequence, sequence_item};
ghost use Rattle.der_asn1.specs.TupleFields.{three_fields};

use crate::asn1::certificates::Certificates;
use der::{
    Decode, DecodeValue, Encode, Error, FieldsCall, FromFields, HasFields, Header, IsValue, Lends,
    Reader, Sequence, SliceReader, decode_sequence, field_refs,
};
use der_asn1::{BitStringRef, Described, Explicit, Item, LawfulItem, Optional};
use spki::AlgorithmIdentifierRef;
use std::alloc::Global;

/// The signature of a request (RFC 6960, 4.1.1), borrowed from the input.
#[derive(Clone, Copy, Debug, Drop, PartialEq, Eq)]
pub struct Signature<'a> {
    /// The algorithm of `signature`.
    pub signature_algorithm: AlgorithmIdentifierRef<'a>,
    /// The signature, as a BIT STRING.
    pub signature: BitStringRef<'a>,
    /// The certificates that help to verify the signature, if present.
    pub certs: Optional<Explicit<Certificates<'a>, 0>>,
}

/// The fields of [`Signature`] as one type, in the order in which they are encoded.
pub type SignatureFields<'a> = (
    AlgorithmIdentifierRef<'a>,
    BitStringRef<'a>,
    Optional<Explicit<Certificates<'a>, 0>>,
);

impl<'a> FromFields<SignatureFields<'a>> for Signature<'a> {
    ghost fields = { λ v. (v.signature_algorithm, v.signature, v.certs) };

    fn from_fields(fields: SignatureFields<'a>) -> Self {
        let (signature_algorithm, signature, certs) = fields;
        Signature {
            signature_algorithm,
            signature,
            certs,
        }
    }
}

impl<'a> Sequence for Signature<'a> {
    ghost meaning = { sequence (three_fields (field (alternative
        ⟦<AlgorithmIdentifierRef<'a> as Described>⟧.element)) (field (alternative
        ⟦<BitStringRef<'a> as Described>⟧.element)) (optional (alternative
        ⟦<Explicit<Certificates<'a>, 0> as Described>⟧.element)))
        ⟦<Signature<'a> as FromFields<SignatureFields<'a>>>⟧.fields };

    ghost fits = { (refl, refl) };
}

/// Decodes the fields, first to last. The errors are those that [`Sequence`] lists.
impl<'a, R: Lends<Borrowed = &'a [u8]>> DecodeValue<R> for Signature<'a> {
    type Error = Error;

    ghost decode_value_answers = { λ h s result t.
        ⟦<SignatureFields<'a> as Decode<SliceReader<'a>>>⟧.decode_answers s (map_ok
        ⟦<Signature<'a> as FromFields<SignatureFields<'a>>>⟧.fields result) t };

    fn decode_value(alloc: Global, reader: &mut R, header: Header) -> Result<Self, Error>
    where
        R: Reader,
    {
        decode_sequence::<R, SignatureFields<'a>, Self>(alloc, reader, header)
    }
}

impl<'a> IsValue for Signature<'a> {
    fn is_value(&self) {
        self.signature_algorithm.is_value();
        self.signature.is_value();
        if let Some(value) = &self.certs.0 {
            value.is_value();
        }
    }
}

/// Writes the fields, first to last. The errors are those that [`Sequence`] lists.
impl<'a> HasFields for Signature<'a> {
    ghost fields_size = { λ v. ⟦<SignatureFields<'a> as Encode>⟧.size
        (⟦<Signature<'a> as FromFields<SignatureFields<'a>>>⟧.fields v) };

    ghost fields_answers = { λ v. ⟦<SignatureFields<'a> as Encode>⟧.encode_answers
        (⟦<Signature<'a> as FromFields<SignatureFields<'a>>>⟧.fields v) };

    fn call_fields<S, C: FieldsCall<S>>(
        &self,
        call: &C,
        state: &mut S,
        buf: &mut [u8],
    ) -> C::Output {
        call.call(
            &field_refs!(self, (signature_algorithm, signature, certs)),
            state,
            buf,
        )
    }
}

impl<'a> Item for Signature<'a> {
    ghost item = { sequence_item ⟦<Signature<'a> as Described>⟧.element };
}

impl<'a> LawfulItem for Signature<'a> {
    ghost is_lawful_item = { is_lawful_item ⟦<Signature<'a> as Described>⟧.element refl };
}
