//! Written by asn1_compile from the module OCSP: change the module instead.
//!
//! Request.
ghost use Rattle.std.specs.Prelude.{◌≡◌};
ghost use Rattle.std.proofs.Common.{refl};
ghost use Rattle.der.specs.Prelude.{map_ok};
ghost use Rattle.der_asn1.specs.Meaning.{alternative, field, is_lawful_item, optional, sequence, sequence_item, two_fields};

use crate::asn1::cert_id::CertId;
use der::{
    Decode, DecodeValue, Encode, Error, FieldsCall, FromFields, HasFields, Header, IsValue, Lends,
    Reader, Sequence, SliceReader, decode_sequence, field_refs,
};
use der_asn1::{Described, Explicit, Item, LawfulItem, Optional};
use std::alloc::Global;
use x509::Extensions;

/// A certificate whose status is requested (RFC 6960, 4.1.1), borrowed from the input.
#[derive(Clone, Copy, Debug, Drop, PartialEq, Eq)]
pub struct Request<'a> {
    /// What identifies the certificate.
    pub req_cert: CertId<'a>,
    /// The extensions of the request for this certificate, if present.
    pub single_request_extensions: Optional<Explicit<Extensions<'a>, 0>>,
}

/// The fields of [`Request`] as one type, in the order in which they are encoded.
pub type RequestFields<'a> = (CertId<'a>, Optional<Explicit<Extensions<'a>, 0>>);

impl<'a> FromFields<RequestFields<'a>> for Request<'a> {
    ghost fields = { λ v. (v.req_cert, v.single_request_extensions) };

    fn from_fields(fields: RequestFields<'a>) -> Self {
        let (req_cert, single_request_extensions) = fields;
        Request {
            req_cert,
            single_request_extensions,
        }
    }
}

impl<'a> Sequence for Request<'a> {
    ghost meaning = { sequence (two_fields (field (alternative ⟦<CertId<'a> as Described>⟧.element))
        (optional (alternative ⟦<Explicit<Extensions<'a>, 0> as Described>⟧.element)))
        ⟦<Request<'a> as FromFields<RequestFields<'a>>>⟧.fields };

    ghost fits = { (refl, refl) };
}

/// Decodes the fields, first to last. The errors are those that [`Sequence`] lists.
impl<'a, R: Lends<Borrowed = &'a [u8]>> DecodeValue<R> for Request<'a> {
    type Error = Error;

    ghost decode_value_answers = { λ h s result t.
        ⟦<RequestFields<'a> as Decode<SliceReader<'a>>>⟧.decode_answers s (map_ok
        ⟦<Request<'a> as FromFields<RequestFields<'a>>>⟧.fields result) t };

    fn decode_value(alloc: Global, reader: &mut R, header: Header) -> Result<Self, Error>
    where
        R: Reader,
    {
        decode_sequence::<R, RequestFields<'a>, Self>(alloc, reader, header)
    }
}

impl<'a> IsValue for Request<'a> {
    fn is_value(&self) {
        self.req_cert.is_value();
        if let Some(value) = &self.single_request_extensions.0 {
            value.is_value();
        }
    }
}

/// Writes the fields, first to last. The errors are those that [`Sequence`] lists.
impl<'a> HasFields for Request<'a> {
    ghost fields_size = { λ v. ⟦<RequestFields<'a> as Encode>⟧.size
        (⟦<Request<'a> as FromFields<RequestFields<'a>>>⟧.fields v) };

    ghost fields_answers = { λ v. ⟦<RequestFields<'a> as Encode>⟧.encode_answers
        (⟦<Request<'a> as FromFields<RequestFields<'a>>>⟧.fields v) };

    fn call_fields<S, C: FieldsCall<S>>(
        &self,
        call: &C,
        state: &mut S,
        buf: &mut [u8],
    ) -> C::Output {
        call.call(
            &field_refs!(self, (req_cert, single_request_extensions)),
            state,
            buf,
        )
    }
}

impl<'a> Item for Request<'a> {
    ghost item = { sequence_item ⟦<Request<'a> as Described>⟧.element };
}

impl<'a> LawfulItem for Request<'a> {
    ghost is_lawful_item = { is_lawful_item ⟦<Request<'a> as Described>⟧.element refl };
}
