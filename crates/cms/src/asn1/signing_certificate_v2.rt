//! Written by asn1_compile from the module CMS: change the module instead.
//!
//! SigningCertificateV2.
ghost use Rattle.std.specs.Prelude.{◌≡◌};
ghost use Rattle.std.proofs.Common.{refl};
ghost use Rattle.der.specs.Prelude.{map_ok};
ghost use Rattle.der_asn1.specs.Meaning.{alternative, field, is_lawful_item, optional, sequence, sequence_item, two_fields};

use crate::EssCertIdV2;
use der::{
    Decode, DecodeValue, Encode, Error, FieldsCall, FromFields, HasFields, Header, IsValue, Lends,
    Reader, Sequence, SliceReader, decode_sequence, field_refs,
};
use der_asn1::{Described, Item, LawfulItem, Optional, SequenceOf};
use std::alloc::Global;
use x509::PolicyInformation;

/// The certificate with which a signature is to be verified, identified by hashes of any algorithm
/// (RFC 5035, 3): the value of an attribute, borrowed from the input.
#[derive(Clone, Copy, Debug, Drop, PartialEq, Eq)]
pub struct SigningCertificateV2<'a> {
    /// What identifies the certificate of the signer, and then what identifies each other
    /// certificate that may be used to verify the signature. Decoding accepts an empty list.
    pub certs: SequenceOf<'a, EssCertIdV2<'a>>,
    /// The certificate policies that may be used; if absent, there is no limit.
    pub policies: Optional<SequenceOf<'a, PolicyInformation<'a>>>,
}

/// The fields of [`SigningCertificateV2`] as one type, in the order in which they are encoded.
pub type SigningCertificateV2Fields<'a> = (
    SequenceOf<'a, EssCertIdV2<'a>>,
    Optional<SequenceOf<'a, PolicyInformation<'a>>>,
);

impl<'a> FromFields<SigningCertificateV2Fields<'a>> for SigningCertificateV2<'a> {
    ghost fields = { λ v. (v.certs, v.policies) };

    fn from_fields(fields: SigningCertificateV2Fields<'a>) -> Self {
        let (certs, policies) = fields;
        SigningCertificateV2 { certs, policies }
    }
}

impl<'a> Sequence for SigningCertificateV2<'a> {
    ghost meaning = { sequence (two_fields (field (alternative
        ⟦<SequenceOf<'a, EssCertIdV2<'a>> as Described>⟧.element)) (optional (alternative
        ⟦<SequenceOf<'a, PolicyInformation<'a>> as Described>⟧.element)))
        ⟦<SigningCertificateV2<'a> as FromFields<SigningCertificateV2Fields<'a>>>⟧.fields };

    ghost fits = { (refl, refl) };
}

/// Decodes the fields, first to last. The errors are those that [`Sequence`] lists.
impl<'a, R: Lends<Borrowed = &'a [u8]>> DecodeValue<R> for SigningCertificateV2<'a> {
    type Error = Error;

    ghost decode_value_answers = { λ h s result t.
        ⟦<SigningCertificateV2Fields<'a> as Decode<SliceReader<'a>>>⟧.decode_answers s (map_ok
        ⟦<SigningCertificateV2<'a> as FromFields<SigningCertificateV2Fields<'a>>>⟧.fields result) t };

    fn decode_value(alloc: Global, reader: &mut R, header: Header) -> Result<Self, Error>
    where
        R: Reader,
    {
        decode_sequence::<R, SigningCertificateV2Fields<'a>, Self>(alloc, reader, header)
    }
}

impl<'a> IsValue for SigningCertificateV2<'a> {
    fn is_value(&self) {
        self.certs.is_value();
        if let Some(value) = &self.policies.0 {
            value.is_value();
        }
    }
}

/// Writes the fields, first to last. The errors are those that [`Sequence`] lists.
impl<'a> HasFields for SigningCertificateV2<'a> {
    ghost fields_size = { λ v. ⟦<SigningCertificateV2Fields<'a> as Encode>⟧.size
        (⟦<SigningCertificateV2<'a> as FromFields<SigningCertificateV2Fields<'a>>>⟧.fields v) };

    ghost fields_answers = { λ v. ⟦<SigningCertificateV2Fields<'a> as Encode>⟧.encode_answers
        (⟦<SigningCertificateV2<'a> as FromFields<SigningCertificateV2Fields<'a>>>⟧.fields v) };

    fn call_fields<S, C: FieldsCall<S>>(
        &self,
        call: &C,
        state: &mut S,
        buf: &mut [u8],
    ) -> C::Output {
        call.call(&field_refs!(self, (certs, policies)), state, buf)
    }
}

impl<'a> Item for SigningCertificateV2<'a> {
    ghost item = { sequence_item ⟦<SigningCertificateV2<'a> as Described>⟧.element };
}

impl<'a> LawfulItem for SigningCertificateV2<'a> {
    ghost is_lawful_item = { is_lawful_item
        ⟦<SigningCertificateV2<'a> as Described>⟧.element refl };
}
