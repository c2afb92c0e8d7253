//! Written by asn1_compile from the module X509: change the module instead.
//!
//! Certificate.
ghost use Rattle.std.specs.Prelude.{◌≡◌};
ghost use Rattle.std.proofs.Common.{refl};
ghost use Rattle.der.specs.Prelude.{map_ok};
ghost use Rattle.der_asn1.specs.Meaning.{alternative, field, is_lawful_item, sequence, sequence_item};
ghost use Rattle.der_asn1.specs.TupleFields.{three_fields};

use crate::asn1::tbs_certificate::TbsCertificate;
use der::{
    Decode, DecodeValue, Encode, Error, FieldsCall, FromFields, HasFields, Header, IsValue, Lends,
    Reader, Sequence, SliceReader, decode_sequence, field_refs,
};
use der_asn1::{BitStringRef, Described, Item, LawfulItem};
use spki::AlgorithmIdentifierRef;
use std::alloc::Global;

/// A certificate (RFC 5280, 4.1), borrowed from the input.
#[derive(Clone, Copy, Debug, Drop, PartialEq, Eq)]
pub struct Certificate<'a> {
    /// The part of the certificate that the signature covers.
    pub tbs_certificate: TbsCertificate<'a>,
    /// The algorithm of `signature`.
    pub signature_algorithm: AlgorithmIdentifierRef<'a>,
    /// The signature of `tbs_certificate`, as a BIT STRING.
    pub signature: BitStringRef<'a>,
}

/// The fields of [`Certificate`] as one type, in the order in which they are encoded.
pub type CertificateFields<'a> = (
    TbsCertificate<'a>,
    AlgorithmIdentifierRef<'a>,
    BitStringRef<'a>,
);

impl<'a> FromFields<CertificateFields<'a>> for Certificate<'a> {
    ghost fields = { λ v. (v.tbs_certificate, v.signature_algorithm, v.signature) };

    fn from_fields(fields: CertificateFields<'a>) -> Self {
        let (tbs_certificate, signature_algorithm, signature) = fields;
        Certificate {
            tbs_certificate,
            signature_algorithm,
            signature,
        }
    }
}

impl<'a> Sequence for Certificate<'a> {
    ghost meaning = { sequence (three_fields (field (alternative
        ⟦<TbsCertificate<'a> as Described>⟧.element)) (field (alternative
        ⟦<AlgorithmIdentifierRef<'a> as Described>⟧.element)) (field (alternative
        ⟦<BitStringRef<'a> as Described>⟧.element)))
        ⟦<Certificate<'a> as FromFields<CertificateFields<'a>>>⟧.fields };

    ghost fits = { (refl, refl) };
}

/// Decodes the fields, first to last. The errors are those that [`Sequence`] lists.
impl<'a, R: Lends<Borrowed = &'a [u8]>> DecodeValue<R> for Certificate<'a> {
    type Error = Error;

    ghost decode_value_answers = { λ h s result t.
        ⟦<CertificateFields<'a> as Decode<SliceReader<'a>>>⟧.decode_answers s (map_ok
        ⟦<Certificate<'a> as FromFields<CertificateFields<'a>>>⟧.fields result) t };

    fn decode_value(alloc: Global, reader: &mut R, header: Header) -> Result<Self, Error>
    where
        R: Reader,
    {
        decode_sequence::<R, CertificateFields<'a>, Self>(alloc, reader, header)
    }
}

impl<'a> IsValue for Certificate<'a> {
    fn is_value(&self) {
        self.tbs_certificate.is_value();
        self.signature_algorithm.is_value();
        self.signature.is_value();
    }
}

/// Writes the fields, first to last. The errors are those that [`Sequence`] lists.
impl<'a> HasFields for Certificate<'a> {
    ghost fields_size = { λ v. ⟦<CertificateFields<'a> as Encode>⟧.size
        (⟦<Certificate<'a> as FromFields<CertificateFields<'a>>>⟧.fields v) };

    ghost fields_answers = { λ v. ⟦<CertificateFields<'a> as Encode>⟧.encode_answers
        (⟦<Certificate<'a> as FromFields<CertificateFields<'a>>>⟧.fields v) };

    fn call_fields<S, C: FieldsCall<S>>(
        &self,
        call: &C,
        state: &mut S,
        buf: &mut [u8],
    ) -> C::Output {
        call.call(
            &field_refs!(self, (tbs_certificate, signature_algorithm, signature)),
            state,
            buf,
        )
    }
}

impl<'a> Item for Certificate<'a> {
    ghost item = { sequence_item ⟦<Certificate<'a> as Described>⟧.element };
}

impl<'a> LawfulItem for Certificate<'a> {
    ghost is_lawful_item = { is_lawful_item ⟦<Certificate<'a> as Described>⟧.element refl };
}
