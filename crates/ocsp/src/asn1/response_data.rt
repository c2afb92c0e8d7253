//! Written by asn1_compile from the module OCSP: change the module instead.
//!
//! ResponseData.
ghost use Rattle.std.specs.Prelude.{◌≡◌};
ghost use Rattle.std.proofs.Common.{refl};
ghost use Rattle.der.specs.Prelude.{map_ok};
ghost use Rattle.der_asn1.specs.Meaning.{alternative, defaulted, field, is_lawful_item, optional, sequence, sequence_item};
ghost use Rattle.der_asn1.specs.TupleFields.{five_fields};

use crate::asn1::responder_id::ResponderId;
use crate::asn1::single_response::SingleResponse;
use der::{
    Decode, DecodeValue, Encode, Error, FieldsCall, FromFields, HasFields, Header, IsValue, Lends,
    Reader, Sequence, SliceReader, decode_sequence, field_refs,
};
use der_asn1::{
    DefaultU64, DefaultValue, Defaulted, Described, DescribedChoice, Explicit, GeneralizedTime,
    IntegerOf, Item, LawfulItem, Optional, SequenceOf, WithDefault,
};
use std::alloc::Global;
use x509::Extensions;

/// The part of a response that its signature covers (RFC 6960, 4.2.1), borrowed from the input.
#[derive(Clone, Copy, Debug, Drop, PartialEq, Eq)]
pub struct ResponseData<'a> {
    /// The version. The default is version 1, whose number is 0. Decoding accepts every number from
    /// 0 to 2^64 - 1.
    pub version: Defaulted<Explicit<WithDefault<IntegerOf<u64>, DefaultU64<0>>, 0>>,
    /// Who signed the response.
    pub responder_id: ResponderId<'a>,
    /// When the response was signed.
    pub produced_at: GeneralizedTime,
    /// The status of each requested certificate.
    pub responses: SequenceOf<'a, SingleResponse<'a>>,
    /// The extensions of the whole response, if present.
    pub response_extensions: Optional<Explicit<Extensions<'a>, 1>>,
}

/// The fields of [`ResponseData`] as one type, in the order in which they are encoded.
pub type ResponseDataFields<'a> = (
    Defaulted<Explicit<WithDefault<IntegerOf<u64>, DefaultU64<0>>, 0>>,
    ResponderId<'a>,
    GeneralizedTime,
    SequenceOf<'a, SingleResponse<'a>>,
    Optional<Explicit<Extensions<'a>, 1>>,
);

impl<'a> FromFields<ResponseDataFields<'a>> for ResponseData<'a> {
    ghost fields = { λ v. (
      v.version,
      v.responder_id,
      v.produced_at,
      v.responses,
      v.response_extensions,
    ) };

    fn from_fields(fields: ResponseDataFields<'a>) -> Self {
        let (version, responder_id, produced_at, responses, response_extensions) = fields;
        ResponseData {
            version,
            responder_id,
            produced_at,
            responses,
            response_extensions,
        }
    }
}

impl<'a> Sequence for ResponseData<'a> {
    ghost meaning = { sequence (five_fields (defaulted
        ⟦<Explicit<WithDefault<IntegerOf<u64>, DefaultU64<0>>, 0> as DefaultValue>⟧.is_default
        (alternative
        ⟦<Explicit<WithDefault<IntegerOf<u64>, DefaultU64<0>>, 0> as Described>⟧.element)) (field
        ⟦<ResponderId<'a> as DescribedChoice>⟧.alternative) (field (alternative
        ⟦<GeneralizedTime as Described>⟧.element)) (field (alternative
        ⟦<SequenceOf<'a, SingleResponse<'a>> as Described>⟧.element)) (optional (alternative
        ⟦<Explicit<Extensions<'a>, 1> as Described>⟧.element)))
        ⟦<ResponseData<'a> as FromFields<ResponseDataFields<'a>>>⟧.fields };

    ghost fits = { (refl, refl) };
}

/// Decodes the fields, first to last. The errors are those that [`Sequence`] lists.
impl<'a, R: Lends<Borrowed = &'a [u8]>> DecodeValue<R> for ResponseData<'a> {
    type Error = Error;

    ghost decode_value_answers = { λ h s result t.
        ⟦<ResponseDataFields<'a> as Decode<SliceReader<'a>>>⟧.decode_answers s (map_ok
        ⟦<ResponseData<'a> as FromFields<ResponseDataFields<'a>>>⟧.fields result) t };

    fn decode_value(alloc: Global, reader: &mut R, header: Header) -> Result<Self, Error>
    where
        R: Reader,
    {
        decode_sequence::<R, ResponseDataFields<'a>, Self>(alloc, reader, header)
    }
}

impl<'a> IsValue for ResponseData<'a> {
    fn is_value(&self) {
        self.version.0.is_value();
        match &self.responder_id {
            ResponderId::ByName(value) => value.is_value(),
            ResponderId::ByKey(value) => value.is_value(),
        }
        self.produced_at.is_value();
        self.responses.is_value();
        if let Some(value) = &self.response_extensions.0 {
            value.is_value();
        }
    }
}

/// Writes the fields, first to last. The errors are those that [`Sequence`] lists.
impl<'a> HasFields for ResponseData<'a> {
    ghost fields_size = { λ v. ⟦<ResponseDataFields<'a> as Encode>⟧.size
        (⟦<ResponseData<'a> as FromFields<ResponseDataFields<'a>>>⟧.fields v) };

    ghost fields_answers = { λ v. ⟦<ResponseDataFields<'a> as Encode>⟧.encode_answers
        (⟦<ResponseData<'a> as FromFields<ResponseDataFields<'a>>>⟧.fields v) };

    fn call_fields<S, C: FieldsCall<S>>(
        &self,
        call: &C,
        state: &mut S,
        buf: &mut [u8],
    ) -> C::Output {
        call.call(
            &field_refs!(
                self,
                (
                    version,
                    responder_id,
                    produced_at,
                    responses,
                    response_extensions
                )
            ),
            state,
            buf,
        )
    }
}

impl<'a> Item for ResponseData<'a> {
    ghost item = { sequence_item ⟦<ResponseData<'a> as Described>⟧.element };
}

impl<'a> LawfulItem for ResponseData<'a> {
    ghost is_lawful_item = { is_lawful_item ⟦<ResponseData<'a> as Described>⟧.element refl };
}
