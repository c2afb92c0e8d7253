//! Written by asn1_compile from the module OCSP: change the module instead.
//!
//! OcspRequest.
ghost use Rattle.std.specs.Prelude.{◌≡◌};
ghost use Rattle.std.proofs.Common.{refl};
ghost use Rattle.der.specs.Prelude.{map_ok};
ghost use Rattle.der_asn1.specs.Meaning.{alternative, field, is_lawful_item, optional, sequence, sequence_item, two_fields};

use crate::asn1::signature::Signature;
use crate::asn1::tbs_request::TbsRequest;
use der::{
    Decode, DecodeValue, Encode, Error, FieldsCall, FromFields, HasFields, Header, IsValue, Lends,
    Reader, Sequence, SliceReader, decode_sequence, field_refs,
};
use der_asn1::{Described, Explicit, Item, LawfulItem, Optional};
use std::alloc::Global;

/// A request for the status of certificates (RFC 6960, 4.1.1), borrowed from the input.
#[derive(Clone, Copy, Debug, Drop, PartialEq, Eq)]
pub struct OcspRequest<'a> {
    /// The part of the request that the signature covers.
    pub tbs_request: TbsRequest<'a>,
    /// The signature of `tbs_request`, if present.
    pub optional_signature: Optional<Explicit<Signature<'a>, 0>>,
}

/// The fields of [`OcspRequest`] as one type, in the order in which they are encoded.
pub type OcspRequestFields<'a> = (TbsRequest<'a>, Optional<Explicit<Signature<'a>, 0>>);

impl<'a> FromFields<OcspRequestFields<'a>> for OcspRequest<'a> {
    ghost fields = { λ v. (v.tbs_request, v.optional_signature) };

    fn from_fields(fields: OcspRequestFields<'a>) -> Self {
        let (tbs_request, optional_signature) = fields;
        OcspRequest {
            tbs_request,
            optional_signature,
        }
    }
}

impl<'a> Sequence for OcspRequest<'a> {
    ghost meaning = { sequence (two_fields (field (alternative
        ⟦<TbsRequest<'a> as Described>⟧.element)) (optional (alternative
        ⟦<Explicit<Signature<'a>, 0> as Described>⟧.element)))
        ⟦<OcspRequest<'a> as FromFields<OcspRequestFields<'a>>>⟧.fields };

    ghost fits = { (refl, refl) };
}

/// Decodes the fields, first to last. The errors are those that [`Sequence`] lists.
impl<'a, R: Lends<Borrowed = &'a [u8]>> DecodeValue<R> for OcspRequest<'a> {
    type Error = Error;

    ghost decode_value_answers = { λ h s result t.
        ⟦<OcspRequestFields<'a> as Decode<SliceReader<'a>>>⟧.decode_answers s (map_ok
        ⟦<OcspRequest<'a> as FromFields<OcspRequestFields<'a>>>⟧.fields result) t };

    fn decode_value(alloc: Global, reader: &mut R, header: Header) -> Result<Self, Error>
    where
        R: Reader,
    {
        decode_sequence::<R, OcspRequestFields<'a>, Self>(alloc, reader, header)
    }
}

impl<'a> IsValue for OcspRequest<'a> {
    fn is_value(&self) {
        self.tbs_request.is_value();
        if let Some(value) = &self.optional_signature.0 {
            value.is_value();
        }
    }
}

/// Writes the fields, first to last. The errors are those that [`Sequence`] lists.
impl<'a> HasFields for OcspRequest<'a> {
    ghost fields_size = { λ v. ⟦<OcspRequestFields<'a> as Encode>⟧.size
        (⟦<OcspRequest<'a> as FromFields<OcspRequestFields<'a>>>⟧.fields v) };

    ghost fields_answers = { λ v. ⟦<OcspRequestFields<'a> as Encode>⟧.encode_answers
        (⟦<OcspRequest<'a> as FromFields<OcspRequestFields<'a>>>⟧.fields v) };

    fn call_fields<S, C: FieldsCall<S>>(
        &self,
        call: &C,
        state: &mut S,
        buf: &mut [u8],
    ) -> C::Output {
        call.call(
            &field_refs!(self, (tbs_request, optional_signature)),
            state,
            buf,
        )
    }
}

impl<'a> Item for OcspRequest<'a> {
    ghost item = { sequence_item ⟦<OcspRequest<'a> as Described>⟧.element };
}

impl<'a> LawfulItem for OcspRequest<'a> {
    ghost is_lawful_item = { is_lawful_item ⟦<OcspRequest<'a> as Described>⟧.element refl };
}
