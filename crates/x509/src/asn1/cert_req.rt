//! Written by asn1_compile from the module X509: change the module instead.
//!
//! CertReq.
ghost use Rattle.std.specs.Prelude.{◌≡◌};
ghost use Rattle.std.proofs.Common.{refl};
ghost use Rattle.der.specs.Prelude.{map_ok};
ghost use Rattle.der_asn1.specs.Meaning.{alternative, field, is_lawful_item, sequence, sequence_item};
ghost use Rattle.der_asn1.specs.TupleFields.{three_fields};

use crate::asn1::cert_req_info::CertReqInfo;
use der::{
    Decode, DecodeValue, Encode, Error, FieldsCall, FromFields, HasFields, Header, IsValue, Lends,
    Reader, Sequence, SliceReader, decode_sequence, field_refs,
};
use der_asn1::{BitStringRef, Described, Item, LawfulItem};
use spki::AlgorithmIdentifierRef;
use std::alloc::Global;

/// A certification request (RFC 2986, 4.2), borrowed from the input.
#[derive(Clone, Copy, Debug, Drop, PartialEq, Eq)]
pub struct CertReq<'a> {
    /// The part of the request that the signature covers.
    pub info: CertReqInfo<'a>,
    /// The algorithm of `signature`.
    pub algorithm: AlgorithmIdentifierRef<'a>,
    /// The signature of `info`, as a BIT STRING.
    pub signature: BitStringRef<'a>,
}

/// The fields of [`CertReq`] as one type, in the order in which they are encoded.
pub type CertReqFields<'a> = (
    CertReqInfo<'a>,
    AlgorithmIdentifierRef<'a>,
    BitStringRef<'a>,
);

impl<'a> FromFields<CertReqFields<'a>> for CertReq<'a> {
    ghost fields = { λ v. (v.info, v.algorithm, v.signature) };

    fn from_fields(fields: CertReqFields<'a>) -> Self {
        let (info, algorithm, signature) = fields;
        CertReq {
            info,
            algorithm,
            signature,
        }
    }
}

impl<'a> Sequence for CertReq<'a> {
    ghost meaning = { sequence (three_fields (field (alternative
        ⟦<CertReqInfo<'a> as Described>⟧.element)) (field (alternative
        ⟦<AlgorithmIdentifierRef<'a> as Described>⟧.element)) (field (alternative
        ⟦<BitStringRef<'a> as Described>⟧.element)))
        ⟦<CertReq<'a> as FromFields<CertReqFields<'a>>>⟧.fields };

    ghost fits = { (refl, refl) };
}

/// Decodes the fields, first to last. The errors are those that [`Sequence`] lists.
impl<'a, R: Lends<Borrowed = &'a [u8]>> DecodeValue<R> for CertReq<'a> {
    type Error = Error;

    ghost decode_value_answers = { λ h s result t.
        ⟦<CertReqFields<'a> as Decode<SliceReader<'a>>>⟧.decode_answers s (map_ok
        ⟦<CertReq<'a> as FromFields<CertReqFields<'a>>>⟧.fields result) t };

    fn decode_value(alloc: Global, reader: &mut R, header: Header) -> Result<Self, Error>
    where
        R: Reader,
    {
        decode_sequence::<R, CertReqFields<'a>, Self>(alloc, reader, header)
    }
}

impl<'a> IsValue for CertReq<'a> {
    fn is_value(&self) {
        self.info.is_value();
        self.algorithm.is_value();
        self.signature.is_value();
    }
}

/// Writes the fields, first to last. The errors are those that [`Sequence`] lists.
impl<'a> HasFields for CertReq<'a> {
    ghost fields_size = { λ v. ⟦<CertReqFields<'a> as Encode>⟧.size
        (⟦<CertReq<'a> as FromFields<CertReqFields<'a>>>⟧.fields v) };

    ghost fields_answers = { λ v. ⟦<CertReqFields<'a> as Encode>⟧.encode_answers
        (⟦<CertReq<'a> as FromFields<CertReqFields<'a>>>⟧.fields v) };

    fn call_fields<S, C: FieldsCall<S>>(
        &self,
        call: &C,
        state: &mut S,
        buf: &mut [u8],
    ) -> C::Output {
        call.call(&field_refs!(self, (info, algorithm, signature)), state, buf)
    }
}

impl<'a> Item for CertReq<'a> {
    ghost item = { sequence_item ⟦<CertReq<'a> as Described>⟧.element };
}

impl<'a> LawfulItem for CertReq<'a> {
    ghost is_lawful_item = { is_lawful_item ⟦<CertReq<'a> as Described>⟧.element refl };
}
