//! Written by asn1_compile from the module OCSP: change the module instead.
//!
//! SingleResponse.
ghost use Rattle.std.specs.Prelude.{◌≡◌};
ghost use Rattle.std.proofs.Common.{refl};
ghost use Rattle.der.specs.Prelude.{map_ok};
ghost use Rattle.der_asn1.specs.Meaning.{alternative, field, is_lawful_item, optional, sequence, sequence_item};
ghost use Rattle.der_asn1.specs.TupleFields.{five_fields};

use crate::asn1::cert_id::CertId;
use crate::asn1::cert_status::CertStatus;
use der::{
    Decode, DecodeValue, Encode, Error, FieldsCall, FromFields, HasFields, Header, IsValue, Lends,
    Reader, Sequence, SliceReader, decode_sequence, field_refs,
};
use der_asn1::{Described, DescribedChoice, Explicit, GeneralizedTime, Item, LawfulItem, Optional};
use std::alloc::Global;
use x509::Extensions;

/// The status of one certificate (RFC 6960, 4.2.1), borrowed from the input.
#[derive(Clone, Copy, Debug, Drop, PartialEq, Eq)]
pub struct SingleResponse<'a> {
    /// What identifies the certificate.
    pub cert_id: CertId<'a>,
    /// The status of the certificate.
    pub cert_status: CertStatus<'a>,
    /// The last time at which the status was known to be right.
    pub this_update: GeneralizedTime,
    /// The time by which a newer status will be known, if present.
    pub next_update: Optional<Explicit<GeneralizedTime, 0>>,
    /// The extensions of the status of this certificate, if present.
    pub single_extensions: Optional<Explicit<Extensions<'a>, 1>>,
}

/// The fields of [`SingleResponse`] as one type, in the order in which they are encoded.
pub type SingleResponseFields<'a> = (
    CertId<'a>,
    CertStatus<'a>,
    GeneralizedTime,
    Optional<Explicit<GeneralizedTime, 0>>,
    Optional<Explicit<Extensions<'a>, 1>>,
);

impl<'a> FromFields<SingleResponseFields<'a>> for SingleResponse<'a> {
    ghost fields = { λ v. (
      v.cert_id,
      v.cert_status,
      v.this_update,
      v.next_update,
      v.single_extensions,
    ) };

    fn from_fields(fields: SingleResponseFields<'a>) -> Self {
        let (cert_id, cert_status, this_update, next_update, single_extensions) = fields;
        SingleResponse {
            cert_id,
            cert_status,
            this_update,
            next_update,
            single_extensions,
        }
    }
}

impl<'a> Sequence for SingleResponse<'a> {
    ghost meaning = { sequence (five_fields (field (alternative
        ⟦<CertId<'a> as Described>⟧.element)) (field
        ⟦<CertStatus<'a> as DescribedChoice>⟧.alternative) (field (alternative
        ⟦<GeneralizedTime as Described>⟧.element)) (optional (alternative
        ⟦<Explicit<GeneralizedTime, 0> as Described>⟧.element)) (optional (alternative
        ⟦<Explicit<Extensions<'a>, 1> as Described>⟧.element)))
        ⟦<SingleResponse<'a> as FromFields<SingleResponseFields<'a>>>⟧.fields };

    ghost fits = { (refl, refl) };
}

/// Decodes the fields, first to last. The errors are those that [`Sequence`] lists.
impl<'a, R: Lends<Borrowed = &'a [u8]>> DecodeValue<R> for SingleResponse<'a> {
    type Error = Error;

    ghost decode_value_answers = { λ h s result t.
        ⟦<SingleResponseFields<'a> as Decode<SliceReader<'a>>>⟧.decode_answers s (map_ok
        ⟦<SingleResponse<'a> as FromFields<SingleResponseFields<'a>>>⟧.fields result) t };

    fn decode_value(alloc: Global, reader: &mut R, header: Header) -> Result<Self, Error>
    where
        R: Reader,
    {
        decode_sequence::<R, SingleResponseFields<'a>, Self>(alloc, reader, header)
    }
}

impl<'a> IsValue for SingleResponse<'a> {
    fn is_value(&self) {
        self.cert_id.is_value();
        match &self.cert_status {
            CertStatus::Good(value) => value.is_value(),
            CertStatus::Revoked(value) => value.is_value(),
            CertStatus::Unknown(value) => value.is_value(),
        }
        self.this_update.is_value();
        if let Some(value) = &self.next_update.0 {
            value.is_value();
        }
        if let Some(value) = &self.single_extensions.0 {
            value.is_value();
        }
    }
}

/// Writes the fields, first to last. The errors are those that [`Sequence`] lists.
impl<'a> HasFields for SingleResponse<'a> {
    ghost fields_size = { λ v. ⟦<SingleResponseFields<'a> as Encode>⟧.size
        (⟦<SingleResponse<'a> as FromFields<SingleResponseFields<'a>>>⟧.fields v) };

    ghost fields_answers = { λ v. ⟦<SingleResponseFields<'a> as Encode>⟧.encode_answers
        (⟦<SingleResponse<'a> as FromFields<SingleResponseFields<'a>>>⟧.fields v) };

    fn call_fields<S, C: FieldsCall<S>>(
        &self,
        call: &C,
        state: &mut S,
        buf: &mut [u8],
    ) -> C::Output {
        call.call(
            &field_refs!(
                self,
                (
                    cert_id,
                    cert_status,
                    this_update,
                    next_update,
                    single_extensions
                )
            ),
            state,
            buf,
        )
    }
}

impl<'a> Item for SingleResponse<'a> {
    ghost item = { sequence_item ⟦<SingleResponse<'a> as Described>⟧.element };
}

impl<'a> LawfulItem for SingleResponse<'a> {
    ghost is_lawful_item = { is_lawful_item ⟦<SingleResponse<'a> as Described>⟧.element refl };
}
