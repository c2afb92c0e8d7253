//! Written by asn1_compile from the module OCSP: change the module instead.
//!
//! BasicOcspResponse.
ghost use Rattle.std.specs.Prelude.{◌≡◌};
ghost use Rattle.std.proofs.Common.{refl};
ghost use Rattle.der.specs.Prelude.{map_ok};
ghost use Rattle.der_asn1.specs.Meaning.{alternative, field, is_lawful_item, optional, sequence, sequence_item};
ghost use Rattle.der_asn1.specs.TupleFields.{four_fields};

use crate::asn1::certificates::Certificates;
use crate::asn1::response_data::ResponseData;
use der::{
    Decode, DecodeValue, Encode, Error, FieldsCall, FromFields, HasFields, Header, IsValue, Lends,
    Reader, Sequence, SliceReader, decode_sequence, field_refs,
};
use der_asn1::{BitStringRef, Described, Explicit, Item, LawfulItem, Optional};
use spki::AlgorithmIdentifierRef;
use std::alloc::Global;

/// A basic response (RFC 6960, 4.2.1), borrowed from the input.
#[derive(Clone, Copy, Debug, Drop, PartialEq, Eq)]
pub struct BasicOcspResponse<'a> {
    /// The part of the response that the signature covers.
    pub tbs_response_data: ResponseData<'a>,
    /// The algorithm of `signature`.
    pub signature_algorithm: AlgorithmIdentifierRef<'a>,
    /// The signature of `tbs_response_data`, as a BIT STRING.
    pub signature: BitStringRef<'a>,
    /// The certificates that help to verify the signature, if present.
    pub certs: Optional<Explicit<Certificates<'a>, 0>>,
}

/// The fields of [`BasicOcspResponse`] as one type, in the order in which they are encoded.
pub type BasicOcspResponseFields<'a> = (
    ResponseData<'a>,
    AlgorithmIdentifierRef<'a>,
    BitStringRef<'a>,
    Optional<Explicit<Certificates<'a>, 0>>,
);

impl<'a> FromFields<BasicOcspResponseFields<'a>> for BasicOcspResponse<'a> {
    ghost fields = { λ v. (v.tbs_response_data, v.signature_algorithm, v.signature, v.certs) };

    fn from_fields(fields: BasicOcspResponseFields<'a>) -> Self {
        let (tbs_response_data, signature_algorithm, signature, certs) = fields;
        BasicOcspResponse {
            tbs_response_data,
            signature_algorithm,
            signature,
            certs,
        }
    }
}

impl<'a> Sequence for BasicOcspResponse<'a> {
    ghost meaning = { sequence (four_fields (field (alternative
        ⟦<ResponseData<'a> as Described>⟧.element)) (field (alternative
        ⟦<AlgorithmIdentifierRef<'a> as Described>⟧.element)) (field (alternative
        ⟦<BitStringRef<'a> as Described>⟧.element)) (optional (alternative
        ⟦<Explicit<Certificates<'a>, 0> as Described>⟧.element)))
        ⟦<BasicOcspResponse<'a> as FromFields<BasicOcspResponseFields<'a>>>⟧.fields };

    ghost fits = { (refl, refl) };
}

/// Decodes the fields, first to last. The errors are those that [`Sequence`] lists.
impl<'a, R: Lends<Borrowed = &'a [u8]>> DecodeValue<R> for BasicOcspResponse<'a> {
    type Error = Error;

    ghost decode_value_answers = { λ h s result t.
        ⟦<BasicOcspResponseFields<'a> as Decode<SliceReader<'a>>>⟧.decode_answers s (map_ok
        ⟦<BasicOcspResponse<'a> as FromFields<BasicOcspResponseFields<'a>>>⟧.fields result) t };

    fn decode_value(alloc: Global, reader: &mut R, header: Header) -> Result<Self, Error>
    where
        R: Reader,
    {
        decode_sequence::<R, BasicOcspResponseFields<'a>, Self>(alloc, reader, header)
    }
}

impl<'a> IsValue for BasicOcspResponse<'a> {
    fn is_value(&self) {
        self.tbs_response_data.is_value();
        self.signature_algorithm.is_value();
        self.signature.is_value();
        if let Some(value) = &self.certs.0 {
            value.is_value();
        }
    }
}

/// Writes the fields, first to last. The errors are those that [`Sequence`] lists.
impl<'a> HasFields for BasicOcspResponse<'a> {
    ghost fields_size = { λ v. ⟦<BasicOcspResponseFields<'a> as Encode>⟧.size
        (⟦<BasicOcspResponse<'a> as FromFields<BasicOcspResponseFields<'a>>>⟧.fields v) };

    ghost fields_answers = { λ v. ⟦<BasicOcspResponseFields<'a> as Encode>⟧.encode_answers
        (⟦<BasicOcspResponse<'a> as FromFields<BasicOcspResponseFields<'a>>>⟧.fields v) };

    fn call_fields<S, C: FieldsCall<S>>(
        &self,
        call: &C,
        state: &mut S,
        buf: &mut [u8],
    ) -> C::Output {
        call.call(
            &field_refs!(
                self,
                (tbs_response_data, signature_algorithm, signature, certs)
            ),
            state,
            buf,
        )
    }
}

impl<'a> Item for BasicOcspResponse<'a> {
    ghost item = { sequence_item ⟦<BasicOcspResponse<'a> as Described>⟧.element };
}

impl<'a> LawfulItem for BasicOcspResponse<'a> {
    ghost is_lawful_item = { is_lawful_item ⟦<BasicOcspResponse<'a> as Described>⟧.element refl };
}
