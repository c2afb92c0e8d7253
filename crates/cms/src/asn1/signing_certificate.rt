//! Written by asn1_compile from the module CMS: change the module instead.
//!
//! SigningCertificate.
ghost use Rattle.std.specs.Prelude.{◌≡◌};
ghost use Rattle.std.proofs.Common.{refl};
ghost use Rattle.der.specs.Prelude.{map_ok};
ghost use Rattle.der_asn1.specs.Meaning.{alternative, field, is_lawful_item, optional, sequence, sequence_item, two_fields};

use crate::asn1::ess_cert_id::EssCertId;
use der::{
    Decode, DecodeValue, Encode, Error, FieldsCall, FromFields, HasFields, Header, IsValue, Lends,
    Reader, Sequence, SliceReader, decode_sequence, field_refs,
};
use der_asn1::{Described, Item, LawfulItem, Optional, SequenceOf};
use std::alloc::Global;
use x509::PolicyInformation;

/// The certificate with which a signature is to be verified, identified by SHA-1 hashes (RFC 5035,
/// 5): the value of an attribute, borrowed from the input.
#[derive(Clone, Copy, Debug, Drop, PartialEq, Eq)]
pub struct SigningCertificate<'a> {
    /// What identifies the certificate of the signer, and then what identifies each other
    /// certificate that may be used to verify the signature. Decoding accepts an empty list.
    pub certs: SequenceOf<'a, EssCertId<'a>>,
    /// The certificate policies that may be used; if absent, there is no limit.
    pub policies: Optional<SequenceOf<'a, PolicyInformation<'a>>>,
}

/// The fields of [`SigningCertificate`] as one type, in the order in which they are encoded.
pub type SigningCertificateFields<'a> = (
    SequenceOf<'a, EssCertId<'a>>,
    Optional<SequenceOf<'a, PolicyInformation<'a>>>,
);

impl<'a> FromFields<SigningCertificateFields<'a>> for SigningCertificate<'a> {
    ghost fields = { λ v. (v.certs, v.policies) };

    fn from_fields(fields: SigningCertificateFields<'a>) -> Self {
        let (certs, policies) = fields;
        SigningCertificate { certs, policies }
    }
}

impl<'a> Sequence for SigningCertificate<'a> {
    ghost meaning = { sequence (two_fields (field (alternative
        ⟦<SequenceOf<'a, EssCertId<'a>> as Described>⟧.element)) (optional (alternative
        ⟦<SequenceOf<'a, PolicyInformation<'a>> as Described>⟧.element)))
        ⟦<SigningCertificate<'a> as FromFields<SigningCertificateFields<'a>>>⟧.fields };

    ghost fits = { (refl, refl) };
}

/// Decodes the fields, first to last. The errors are those that [`Sequence`] lists.
impl<'a, R: Lends<Borrowed = &'a [u8]>> DecodeValue<R> for SigningCertificate<'a> {
    type Error = Error;

    ghost decode_value_answers = { λ h s result t.
        ⟦<SigningCertificateFields<'a> as Decode<SliceReader<'a>>>⟧.decode_answers s (map_ok
        ⟦<SigningCertificate<'a> as FromFields<SigningCertificateFields<'a>>>⟧.fields result) t };

    fn decode_value(alloc: Global, reader: &mut R, header: Header) -> Result<Self, Error>
    where
        R: Reader,
    {
        decode_sequence::<R, SigningCertificateFields<'a>, Self>(alloc, reader, header)
    }
}

impl<'a> IsValue for SigningCertificate<'a> {
    fn is_value(&self) {
        self.certs.is_value();
        if let Some(value) = &self.policies.0 {
            value.is_value();
        }
    }
}

/// Writes the fields, first to last. The errors are those that [`Sequence`] lists.
impl<'a> HasFields for SigningCertificate<'a> {
    ghost fields_size = { λ v. ⟦<SigningCertificateFields<'a> as Encode>⟧.size
        (⟦<SigningCertificate<'a> as FromFields<SigningCertificateFields<'a>>>⟧.fields v) };

    ghost fields_answers = { λ v. ⟦<SigningCertificateFields<'a> as Encode>⟧.encode_answers
        (⟦<SigningCertificate<'a> as FromFields<SigningCertificateFields<'a>>>⟧.fields v) };

    fn call_fields<S, C: FieldsCall<S>>(
        &self,
        call: &C,
        state: &mut S,
        buf: &mut [u8],
    ) -> C::Output {
        call.call(&field_refs!(self, (certs, policies)), state, buf)
    }
}

impl<'a> Item for SigningCertificate<'a> {
    ghost item = { sequence_item ⟦<SigningCertificate<'a> as Described>⟧.element };
}

impl<'a> LawfulItem for SigningCertificate<'a> {
    ghost is_lawful_item = { is_lawful_item ⟦<SigningCertificate<'a> as Described>⟧.element refl };
}
