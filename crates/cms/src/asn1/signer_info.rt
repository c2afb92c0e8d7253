//! Written by asn1_compile from the module CMS: change the module instead.
//!
//! SignerInfo.
ghost use Rattle.std.specs.Prelude.{◌≡◌};
ghost use Rattle.std.proofs.Common.{refl};
ghost use Rattle.der.specs.Prelude.{map_ok};
ghost use Rattle.der_asn1.specs.Meaning.{alternative, field, is_lawful_item, optional, sequence, sequence_item};
ghost use Rattle.der_asn1.specs.TupleFields.{seven_fields};

use crate::asn1::cms_version::CmsVersion;
use crate::asn1::signer_identifier::SignerIdentifier;
use der::{
    Decode, DecodeValue, Encode, Error, FieldsCall, FromFields, HasFields, Header, IsValue, Lends,
    Reader, Sequence, SliceReader, decode_sequence, field_refs,
};
use der_asn1::{Described, DescribedChoice, Implicit, Item, LawfulItem, OctetStringRef, Optional};
use spki::AlgorithmIdentifierRef;
use std::alloc::Global;
use x509::Attributes;

/// The signature of one signer (RFC 5652, 5.3), borrowed from the input.
#[derive(Clone, Copy, Debug, Drop, PartialEq, Eq)]
pub struct SignerInfo<'a> {
    /// The version: 1 if the signer is named by issuer and serial number, or else 3. Decoding does
    /// not check this.
    pub version: CmsVersion<'a>,
    /// What identifies the certificate of the signer.
    pub sid: SignerIdentifier<'a>,
    /// The algorithm of the digest of the content.
    pub digest_algorithm: AlgorithmIdentifierRef<'a>,
    /// The attributes that the signature covers, if present. They have the tag 0 here. In the
    /// octets that the signature covers, they have the tag of a SET OF instead.
    pub signed_attrs: Optional<Implicit<Attributes<'a>, 0>>,
    /// The algorithm of the signature.
    pub signature_algorithm: AlgorithmIdentifierRef<'a>,
    /// The octets of the signature.
    pub signature: OctetStringRef<'a>,
    /// The attributes that the signature does not cover, if present.
    pub unsigned_attrs: Optional<Implicit<Attributes<'a>, 1>>,
}

/// The fields of [`SignerInfo`] as one type, in the order in which they are encoded.
pub type SignerInfoFields<'a> = (
    CmsVersion<'a>,
    SignerIdentifier<'a>,
    AlgorithmIdentifierRef<'a>,
    Optional<Implicit<Attributes<'a>, 0>>,
    AlgorithmIdentifierRef<'a>,
    OctetStringRef<'a>,
    Optional<Implicit<Attributes<'a>, 1>>,
);

impl<'a> FromFields<SignerInfoFields<'a>> for SignerInfo<'a> {
    ghost fields = { λ v. (
      v.version,
      v.sid,
      v.digest_algorithm,
      v.signed_attrs,
      v.signature_algorithm,
      v.signature,
      v.unsigned_attrs,
    ) };

    fn from_fields(fields: SignerInfoFields<'a>) -> Self {
        let (
            version,
            sid,
            digest_algorithm,
            signed_attrs,
            signature_algorithm,
            signature,
            unsigned_attrs,
        ) = fields;
        SignerInfo {
            version,
            sid,
            digest_algorithm,
            signed_attrs,
            signature_algorithm,
            signature,
            unsigned_attrs,
        }
    }
}

impl<'a> Sequence for SignerInfo<'a> {
    ghost meaning = { sequence (seven_fields (field (alternative
        ⟦<CmsVersion<'a> as Described>⟧.element)) (field
        ⟦<SignerIdentifier<'a> as DescribedChoice>⟧.alternative) (field (alternative
        ⟦<AlgorithmIdentifierRef<'a> as Described>⟧.element)) (optional (alternative
        ⟦<Implicit<Attributes<'a>, 0> as Described>⟧.element)) (field (alternative
        ⟦<AlgorithmIdentifierRef<'a> as Described>⟧.element)) (field (alternative
        ⟦<OctetStringRef<'a> as Described>⟧.element)) (optional (alternative
        ⟦<Implicit<Attributes<'a>, 1> as Described>⟧.element)))
        ⟦<SignerInfo<'a> as FromFields<SignerInfoFields<'a>>>⟧.fields };

    ghost fits = { (refl, refl) };
}

/// Decodes the fields, first to last. The errors are those that [`Sequence`] lists.
impl<'a, R: Lends<Borrowed = &'a [u8]>> DecodeValue<R> for SignerInfo<'a> {
    type Error = Error;

    ghost decode_value_answers = { λ h s result t.
        ⟦<SignerInfoFields<'a> as Decode<SliceReader<'a>>>⟧.decode_answers s (map_ok
        ⟦<SignerInfo<'a> as FromFields<SignerInfoFields<'a>>>⟧.fields result) t };

    fn decode_value(alloc: Global, reader: &mut R, header: Header) -> Result<Self, Error>
    where
        R: Reader,
    {
        decode_sequence::<R, SignerInfoFields<'a>, Self>(alloc, reader, header)
    }
}

impl<'a> IsValue for SignerInfo<'a> {
    fn is_value(&self) {
        self.version.is_value();
        match &self.sid {
            SignerIdentifier::IssuerAndSerialNumber(value) => value.is_value(),
            SignerIdentifier::SubjectKeyIdentifier(value) => value.is_value(),
        }
        self.digest_algorithm.is_value();
        if let Some(value) = &self.signed_attrs.0 {
            value.is_value();
        }
        self.signature_algorithm.is_value();
        self.signature.is_value();
        if let Some(value) = &self.unsigned_attrs.0 {
            value.is_value();
        }
    }
}

/// Writes the fields, first to last. The errors are those that [`Sequence`] lists.
impl<'a> HasFields for SignerInfo<'a> {
    ghost fields_size = { λ v. ⟦<SignerInfoFields<'a> as Encode>⟧.size
        (⟦<SignerInfo<'a> as FromFields<SignerInfoFields<'a>>>⟧.fields v) };

    ghost fields_answers = { λ v. ⟦<SignerInfoFields<'a> as Encode>⟧.encode_answers
        (⟦<SignerInfo<'a> as FromFields<SignerInfoFields<'a>>>⟧.fields v) };

    fn call_fields<S, C: FieldsCall<S>>(
        &self,
        call: &C,
        state: &mut S,
        buf: &mut [u8],
    ) -> C::Output {
        call.call(
            &field_refs!(
                self,
                (
                    version,
                    sid,
                    digest_algorithm,
                    signed_attrs,
                    signature_algorithm,
                    signature,
                    unsigned_attrs
                )
            ),
            state,
            buf,
        )
    }
}

impl<'a> Item for SignerInfo<'a> {
    ghost item = { sequence_item ⟦<SignerInfo<'a> as Described>⟧.element };
}

impl<'a> LawfulItem for SignerInfo<'a> {
    ghost is_lawful_item = { is_lawful_item ⟦<SignerInfo<'a> as Described>⟧.element refl };
}
