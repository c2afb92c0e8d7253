//! Written by asn1_compile from the module CMS: change the module instead.
//!
//! SignedData.
ghost use Rattle.std.specs.Prelude.{◌≡◌};
ghost use Rattle.std.proofs.Common.{refl};
ghost use Rattle.der.specs.Prelude.{map_ok};
ghost use Rattle.der_asn1.specs.Meaning.{alternative, field, is_lawful_item, optional, sequence, sequence_item};
ghost use Rattle.der_asn1.specs.TupleFields.{six_fields};

use crate::asn1::certificate_set::CertificateSet;
use crate::asn1::cms_version::CmsVersion;
use crate::asn1::encapsulated_content_info::EncapsulatedContentInfo;
use crate::asn1::revocation_info_choices::RevocationInfoChoices;
use crate::asn1::signer_info::SignerInfo;
use der::{
    Decode, DecodeValue, Encode, Error, FieldsCall, FromFields, HasFields, Header, IsValue, Lends,
    Reader, Sequence, SliceReader, decode_sequence, field_refs,
};
use der_asn1::{Described, Implicit, Item, LawfulItem, Optional, SetOf};
use spki::AlgorithmIdentifierRef;
use std::alloc::Global;

/// A content with signatures of it (RFC 5652, 5.1), borrowed from the input.
#[derive(Clone, Copy, Debug, Drop, PartialEq, Eq)]
pub struct SignedData<'a> {
    /// The version: 1, 3, 4 or 5. Decoding does not check this.
    pub version: CmsVersion<'a>,
    /// The digest algorithms of the signatures, in ascending order of their encodings.
    pub digest_algorithms: SetOf<'a, AlgorithmIdentifierRef<'a>>,
    /// The content that is signed.
    pub encap_content_info: EncapsulatedContentInfo<'a>,
    /// Certificates that help to verify the signatures, if present.
    pub certificates: Optional<Implicit<CertificateSet<'a>, 0>>,
    /// Information about revoked certificates, if present.
    pub crls: Optional<Implicit<RevocationInfoChoices<'a>, 1>>,
    /// The signatures, in ascending order of their encodings. There may be none.
    pub signer_infos: SetOf<'a, SignerInfo<'a>>,
}

/// The fields of [`SignedData`] as one type, in the order in which they are encoded.
pub type SignedDataFields<'a> = (
    CmsVersion<'a>,
    SetOf<'a, AlgorithmIdentifierRef<'a>>,
    EncapsulatedContentInfo<'a>,
    Optional<Implicit<CertificateSet<'a>, 0>>,
    Optional<Implicit<RevocationInfoChoices<'a>, 1>>,
    SetOf<'a, SignerInfo<'a>>,
);

impl<'a> FromFields<SignedDataFields<'a>> for SignedData<'a> {
    ghost fields = { λ v. (
      v.version,
      v.digest_algorithms,
      v.encap_content_info,
      v.certificates,
      v.crls,
      v.signer_infos,
    ) };

    fn from_fields(fields: SignedDataFields<'a>) -> Self {
        let (version, digest_algorithms, encap_content_info, certificates, crls, signer_infos) =
            fields;
        SignedData {
            version,
            digest_algorithms,
            encap_content_info,
            certificates,
            crls,
            signer_infos,
        }
    }
}

impl<'a> Sequence for SignedData<'a> {
    ghost meaning = { sequence (six_fields (field (alternative
        ⟦<CmsVersion<'a> as Described>⟧.element)) (field (alternative
        ⟦<SetOf<'a, AlgorithmIdentifierRef<'a>> as Described>⟧.element)) (field (alternative
        ⟦<EncapsulatedContentInfo<'a> as Described>⟧.element)) (optional (alternative
        ⟦<Implicit<CertificateSet<'a>, 0> as Described>⟧.element)) (optional (alternative
        ⟦<Implicit<RevocationInfoChoices<'a>, 1> as Described>⟧.element)) (field (alternative
        ⟦<SetOf<'a, SignerInfo<'a>> as Described>⟧.element)))
        ⟦<SignedData<'a> as FromFields<SignedDataFields<'a>>>⟧.fields };

    ghost fits = { (refl, refl) };
}

/// Decodes the fields, first to last. The errors are those that [`Sequence`] lists.
impl<'a, R: Lends<Borrowed = &'a [u8]>> DecodeValue<R> for SignedData<'a> {
    type Error = Error;

    ghost decode_value_answers = { λ h s result t.
        ⟦<SignedDataFields<'a> as Decode<SliceReader<'a>>>⟧.decode_answers s (map_ok
        ⟦<SignedData<'a> as FromFields<SignedDataFields<'a>>>⟧.fields result) t };

    fn decode_value(alloc: Global, reader: &mut R, header: Header) -> Result<Self, Error>
    where
        R: Reader,
    {
        decode_sequence::<R, SignedDataFields<'a>, Self>(alloc, reader, header)
    }
}

impl<'a> IsValue for SignedData<'a> {
    fn is_value(&self) {
        self.version.is_value();
        self.digest_algorithms.is_value();
        self.encap_content_info.is_value();
        if let Some(value) = &self.certificates.0 {
            value.is_value();
        }
        if let Some(value) = &self.crls.0 {
            value.is_value();
        }
        self.signer_infos.is_value();
    }
}

/// Writes the fields, first to last. The errors are those that [`Sequence`] lists.
impl<'a> HasFields for SignedData<'a> {
    ghost fields_size = { λ v. ⟦<SignedDataFields<'a> as Encode>⟧.size
        (⟦<SignedData<'a> as FromFields<SignedDataFields<'a>>>⟧.fields v) };

    ghost fields_answers = { λ v. ⟦<SignedDataFields<'a> as Encode>⟧.encode_answers
        (⟦<SignedData<'a> as FromFields<SignedDataFields<'a>>>⟧.fields v) };

    fn call_fields<S, C: FieldsCall<S>>(
        &self,
        call: &C,
        state: &mut S,
        buf: &mut [u8],
    ) -> C::Output {
        call.call(
            &field_refs!(
                self,
                (
                    version,
                    digest_algorithms,
                    encap_content_info,
                    certificates,
                    crls,
                    signer_infos
                )
            ),
            state,
            buf,
        )
    }
}

impl<'a> Item for SignedData<'a> {
    ghost item = { sequence_item ⟦<SignedData<'a> as Described>⟧.element };
}

impl<'a> LawfulItem for SignedData<'a> {
    ghost is_lawful_item = { is_lawful_item ⟦<SignedData<'a> as Described>⟧.element refl };
}
