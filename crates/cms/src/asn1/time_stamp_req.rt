//! Written by asn1_compile from the module CMS: change the module instead.
//!
//! TimeStampReq.
ghost use Rattle.std.specs.Prelude.{◌≡◌};
ghost use Rattle.std.proofs.Common.{refl};
ghost use Rattle.der.specs.Prelude.{map_ok};
ghost use Rattle.der_asn1.specs.Meaning.{alternative, defaulted, field, is_lawful_item, optional, sequence, sequence_item};
ghost use Rattle.der_asn1.specs.TupleFields.{six_fields};

use crate::asn1::message_imprint::MessageImprint;
use crate::asn1::tsa_policy_id::TsaPolicyId;
use der::{
    Decode, DecodeValue, Encode, Error, FieldsCall, FromFields, HasFields, Header, IsValue, Lends,
    Reader, Sequence, SliceReader, decode_sequence, field_refs,
};
use der_asn1::{
    BooleanRef, DefaultValue, Defaulted, Described, Implicit, IntRef, Item, LawfulItem, Optional,
};
use std::alloc::Global;
use x509::Extensions;

/// A request for a timestamp (RFC 3161, 2.4.1), borrowed from the input.
#[derive(Clone, Copy, Debug, Drop, PartialEq, Eq)]
pub struct TimeStampReq<'a> {
    /// The version, which is 1. Decoding does not check this.
    pub version: IntRef<'a>,
    /// The digest of the octets that are to be timestamped.
    pub message_imprint: MessageImprint<'a>,
    /// The policy that the timestamp should have, if present.
    pub req_policy: Optional<TsaPolicyId<'a>>,
    /// A number that the response repeats, if present.
    pub nonce: Optional<IntRef<'a>>,
    /// Whether the response must include the certificate of the authority. The default is false.
    pub cert_req: Defaulted<BooleanRef<'a>>,
    /// The extensions of the request, if present.
    pub extensions: Optional<Implicit<Extensions<'a>, 0>>,
}

/// The fields of [`TimeStampReq`] as one type, in the order in which they are encoded.
pub type TimeStampReqFields<'a> = (
    IntRef<'a>,
    MessageImprint<'a>,
    Optional<TsaPolicyId<'a>>,
    Optional<IntRef<'a>>,
    Defaulted<BooleanRef<'a>>,
    Optional<Implicit<Extensions<'a>, 0>>,
);

impl<'a> FromFields<TimeStampReqFields<'a>> for TimeStampReq<'a> {
    ghost fields = { λ v. (
      v.version,
      v.message_imprint,
      v.req_policy,
      v.nonce,
      v.cert_req,
      v.extensions,
    ) };

    fn from_fields(fields: TimeStampReqFields<'a>) -> Self {
        let (version, message_imprint, req_policy, nonce, cert_req, extensions) = fields;
        TimeStampReq {
            version,
            message_imprint,
            req_policy,
            nonce,
            cert_req,
            extensions,
        }
    }
}

impl<'a> Sequence for TimeStampReq<'a> {
    ghost meaning = { sequence (six_fields (field (alternative ⟦<IntRef<'a> as Described>⟧.element))
        (field (alternative ⟦<MessageImprint<'a> as Described>⟧.element)) (optional (alternative
        ⟦<TsaPolicyId<'a> as Described>⟧.element)) (optional (alternative
        ⟦<IntRef<'a> as Described>⟧.element)) (defaulted
        ⟦<BooleanRef<'a> as DefaultValue>⟧.is_default (alternative
        ⟦<BooleanRef<'a> as Described>⟧.element)) (optional (alternative
        ⟦<Implicit<Extensions<'a>, 0> as Described>⟧.element)))
        ⟦<TimeStampReq<'a> as FromFields<TimeStampReqFields<'a>>>⟧.fields };

    ghost fits = { (refl, refl) };
}

/// Decodes the fields, first to last. The errors are those that [`Sequence`] lists.
impl<'a, R: Lends<Borrowed = &'a [u8]>> DecodeValue<R> for TimeStampReq<'a> {
    type Error = Error;

    ghost decode_value_answers = { λ h s result t.
        ⟦<TimeStampReqFields<'a> as Decode<SliceReader<'a>>>⟧.decode_answers s (map_ok
        ⟦<TimeStampReq<'a> as FromFields<TimeStampReqFields<'a>>>⟧.fields result) t };

    fn decode_value(alloc: Global, reader: &mut R, header: Header) -> Result<Self, Error>
    where
        R: Reader,
    {
        decode_sequence::<R, TimeStampReqFields<'a>, Self>(alloc, reader, header)
    }
}

impl<'a> IsValue for TimeStampReq<'a> {
    fn is_value(&self) {
        self.version.is_value();
        self.message_imprint.is_value();
        if let Some(value) = &self.req_policy.0 {
            value.is_value();
        }
        if let Some(value) = &self.nonce.0 {
            value.is_value();
        }
        self.cert_req.0.is_value();
        if let Some(value) = &self.extensions.0 {
            value.is_value();
        }
    }
}

/// Writes the fields, first to last. The errors are those that [`Sequence`] lists.
impl<'a> HasFields for TimeStampReq<'a> {
    ghost fields_size = { λ v. ⟦<TimeStampReqFields<'a> as Encode>⟧.size
        (⟦<TimeStampReq<'a> as FromFields<TimeStampReqFields<'a>>>⟧.fields v) };

    ghost fields_answers = { λ v. ⟦<TimeStampReqFields<'a> as Encode>⟧.encode_answers
        (⟦<TimeStampReq<'a> as FromFields<TimeStampReqFields<'a>>>⟧.fields v) };

    fn call_fields<S, C: FieldsCall<S>>(
        &self,
        call: &C,
        state: &mut S,
        buf: &mut [u8],
    ) -> C::Output {
        call.call(
            &field_refs!(
                self,
                (
                    version,
                    message_imprint,
                    req_policy,
                    nonce,
                    cert_req,
                    extensions
                )
            ),
            state,
            buf,
        )
    }
}

impl<'a> Item for TimeStampReq<'a> {
    ghost item = { sequence_item ⟦<TimeStampReq<'a> as Described>⟧.element };
}

impl<'a> LawfulItem for TimeStampReq<'a> {
    ghost is_lawful_item = { is_lawful_item ⟦<TimeStampReq<'a> as Described>⟧.element refl };
}
