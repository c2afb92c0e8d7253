//! Written by asn1_compile from the module OCSP: change the module instead.
//!
//! OcspResponse.
ghost use Rattle.std.specs.Prelude.{◌≡◌};
ghost use Rattle.std.proofs.Common.{refl};
ghost use Rattle.der.specs.Prelude.{map_ok};
ghost use Rattle.der_asn1.specs.Meaning.{alternative, field, is_lawful_item, optional, sequence, sequence_item, two_fields};

use crate::asn1::ocsp_response_status::OcspResponseStatus;
use crate::asn1::response_bytes::ResponseBytes;
use der::{
    Decode, DecodeValue, Encode, Error, FieldsCall, FromFields, HasFields, Header, IsValue, Lends,
    Reader, Sequence, SliceReader, decode_sequence, field_refs,
};
use der_asn1::{Described, Enumerated, Explicit, Item, LawfulItem, Optional};
use std::alloc::Global;

/// A response (RFC 6960, 4.2.1), borrowed from the input.
#[derive(Clone, Copy, Debug, Drop, PartialEq, Eq)]
pub struct OcspResponse<'a> {
    /// Whether the request was successful, or why it was not.
    pub response_status: Enumerated<OcspResponseStatus>,
    /// The response itself, if present. Only a successful request has one, but decoding does not
    /// check this.
    pub response_bytes: Optional<Explicit<ResponseBytes<'a>, 0>>,
}

/// The fields of [`OcspResponse`] as one type, in the order in which they are encoded.
pub type OcspResponseFields<'a> = (
    Enumerated<OcspResponseStatus>,
    Optional<Explicit<ResponseBytes<'a>, 0>>,
);

impl<'a> FromFields<OcspResponseFields<'a>> for OcspResponse<'a> {
    ghost fields = { λ v. (v.response_status, v.response_bytes) };

    fn from_fields(fields: OcspResponseFields<'a>) -> Self {
        let (response_status, response_bytes) = fields;
        OcspResponse {
            response_status,
            response_bytes,
        }
    }
}

impl<'a> Sequence for OcspResponse<'a> {
    ghost meaning = { sequence (two_fields (field (alternative
        ⟦<Enumerated<OcspResponseStatus> as Described>⟧.element)) (optional (alternative
        ⟦<Explicit<ResponseBytes<'a>, 0> as Described>⟧.element)))
        ⟦<OcspResponse<'a> as FromFields<OcspResponseFields<'a>>>⟧.fields };

    ghost fits = { (refl, refl) };
}

/// Decodes the fields, first to last. The errors are those that [`Sequence`] lists.
impl<'a, R: Lends<Borrowed = &'a [u8]>> DecodeValue<R> for OcspResponse<'a> {
    type Error = Error;

    ghost decode_value_answers = { λ h s result t.
        ⟦<OcspResponseFields<'a> as Decode<SliceReader<'a>>>⟧.decode_answers s (map_ok
        ⟦<OcspResponse<'a> as FromFields<OcspResponseFields<'a>>>⟧.fields result) t };

    fn decode_value(alloc: Global, reader: &mut R, header: Header) -> Result<Self, Error>
    where
        R: Reader,
    {
        decode_sequence::<R, OcspResponseFields<'a>, Self>(alloc, reader, header)
    }
}

impl<'a> IsValue for OcspResponse<'a> {
    fn is_value(&self) {
        self.response_status.is_value();
        if let Some(value) = &self.response_bytes.0 {
            value.is_value();
        }
    }
}

/// Writes the fields, first to last. The errors are those that [`Sequence`] lists.
impl<'a> HasFields for OcspResponse<'a> {
    ghost fields_size = { λ v. ⟦<OcspResponseFields<'a> as Encode>⟧.size
        (⟦<OcspResponse<'a> as FromFields<OcspResponseFields<'a>>>⟧.fields v) };

    ghost fields_answers = { λ v. ⟦<OcspResponseFields<'a> as Encode>⟧.encode_answers
        (⟦<OcspResponse<'a> as FromFields<OcspResponseFields<'a>>>⟧.fields v) };

    fn call_fields<S, C: FieldsCall<S>>(
        &self,
        call: &C,
        state: &mut S,
        buf: &mut [u8],
    ) -> C::Output {
        call.call(
            &field_refs!(self, (response_status, response_bytes)),
            state,
            buf,
        )
    }
}

impl<'a> Item for OcspResponse<'a> {
    ghost item = { sequence_item ⟦<OcspResponse<'a> as Described>⟧.element };
}

impl<'a> LawfulItem for OcspResponse<'a> {
    ghost is_lawful_item = { is_lawful_item ⟦<OcspResponse<'a> as Described>⟧.element refl };
}
