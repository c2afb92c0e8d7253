//! Written by asn1_compile from the module X509: change the module instead.
//!
//! CertificateList.
ghost use Rattle.std.specs.Prelude.{◌≡◌};
ghost use Rattle.std.proofs.Common.{refl};
ghost use Rattle.der.specs.Prelude.{map_ok};
ghost use Rattle.der_asn1.specs.Meaning.{alternative, field, is_lawful_item, sequence, sequence_item};
ghost use Rattle.der_asn1.specs.TupleFields.{three_fields};

use crate::asn1::tbs_cert_list::TbsCertList;
use der::{
    Decode, DecodeValue, Encode, Error, FieldsCall, FromFields, HasFields, Header, IsValue, Lends,
    Reader, Sequence, SliceReader, decode_sequence, field_refs,
};
use der_asn1::{BitStringRef, Described, Item, LawfulItem};
use spki::AlgorithmIdentifierRef;
use std::alloc::Global;

/// A list of revoked certificates (RFC 5280, 5.1), borrowed from the input.
#[derive(Clone, Copy, Debug, Drop, PartialEq, Eq)]
pub struct CertificateList<'a> {
    /// The part of the list that the signature covers.
    pub tbs_cert_list: TbsCertList<'a>,
    /// The algorithm of `signature`.
    pub signature_algorithm: AlgorithmIdentifierRef<'a>,
    /// The signature of `tbs_cert_list`, as a BIT STRING.
    pub signature: BitStringRef<'a>,
}

/// The fields of [`CertificateList`] as one type, in the order in which they are encoded.
pub type CertificateListFields<'a> = (
    TbsCertList<'a>,
    AlgorithmIdentifierRef<'a>,
    BitStringRef<'a>,
);

impl<'a> FromFields<CertificateListFields<'a>> for CertificateList<'a> {
    ghost fields = { λ v. (v.tbs_cert_list, v.signature_algorithm, v.signature) };

    fn from_fields(fields: CertificateListFields<'a>) -> Self {
        let (tbs_cert_list, signature_algorithm, signature) = fields;
        CertificateList {
            tbs_cert_list,
            signature_algorithm,
            signature,
        }
    }
}

impl<'a> Sequence for CertificateList<'a> {
    ghost meaning = { sequence (three_fields (field (alternative
        ⟦<TbsCertList<'a> as Described>⟧.element)) (field (alternative
        ⟦<AlgorithmIdentifierRef<'a> as Described>⟧.element)) (field (alternative
        ⟦<BitStringRef<'a> as Described>⟧.element)))
        ⟦<CertificateList<'a> as FromFields<CertificateListFields<'a>>>⟧.fields };

    ghost fits = { (refl, refl) };
}

/// Decodes the fields, first to last. The errors are those that [`Sequence`] lists.
impl<'a, R: Lends<Borrowed = &'a [u8]>> DecodeValue<R> for CertificateList<'a> {
    type Error = Error;

    ghost decode_value_answers = { λ h s result t.
        ⟦<CertificateListFields<'a> as Decode<SliceReader<'a>>>⟧.decode_answers s (map_ok
        ⟦<CertificateList<'a> as FromFields<CertificateListFields<'a>>>⟧.fields result) t };

    fn decode_value(alloc: Global, reader: &mut R, header: Header) -> Result<Self, Error>
    where
        R: Reader,
    {
        decode_sequence::<R, CertificateListFields<'a>, Self>(alloc, reader, header)
    }
}

impl<'a> IsValue for CertificateList<'a> {
    fn is_value(&self) {
        self.tbs_cert_list.is_value();
        self.signature_algorithm.is_value();
        self.signature.is_value();
    }
}

/// Writes the fields, first to last. The errors are those that [`Sequence`] lists.
impl<'a> HasFields for CertificateList<'a> {
    ghost fields_size = { λ v. ⟦<CertificateListFields<'a> as Encode>⟧.size
        (⟦<CertificateList<'a> as FromFields<CertificateListFields<'a>>>⟧.fields v) };

    ghost fields_answers = { λ v. ⟦<CertificateListFields<'a> as Encode>⟧.encode_answers
        (⟦<CertificateList<'a> as FromFields<CertificateListFields<'a>>>⟧.fields v) };

    fn call_fields<S, C: FieldsCall<S>>(
        &self,
        call: &C,
        state: &mut S,
        buf: &mut [u8],
    ) -> C::Output {
        call.call(
            &field_refs!(self, (tbs_cert_list, signature_algorithm, signature)),
            state,
            buf,
        )
    }
}

impl<'a> Item for CertificateList<'a> {
    ghost item = { sequence_item ⟦<CertificateList<'a> as Described>⟧.element };
}

impl<'a> LawfulItem for CertificateList<'a> {
    ghost is_lawful_item = { is_lawful_item ⟦<CertificateList<'a> as Described>⟧.element refl };
}
