//! Written by asn1_compile from the module CMS: change the module instead.
//!
//! EnvelopedData.
ghost use Rattle.std.specs.Prelude.{◌≡◌};
ghost use Rattle.std.proofs.Common.{refl};
ghost use Rattle.der.specs.Prelude.{map_ok};
ghost use Rattle.der_asn1.specs.Meaning.{alternative, field, is_lawful_item, optional, sequence, sequence_item};
ghost use Rattle.der_asn1.specs.TupleFields.{five_fields};

use crate::asn1::cms_version::CmsVersion;
use crate::asn1::encrypted_content_info::EncryptedContentInfo;
use crate::asn1::originator_info::OriginatorInfo;
use crate::asn1::recipient_infos::RecipientInfos;
use der::{
    Decode, DecodeValue, Encode, Error, FieldsCall, FromFields, HasFields, Header, IsValue, Lends,
    Reader, Sequence, SliceReader, decode_sequence, field_refs,
};
use der_asn1::{Described, Implicit, Item, LawfulItem, Optional};
use std::alloc::Global;
use x509::Attributes;

/// A content that is encrypted for recipients (RFC 5652, 6.1), borrowed from the input. Nothing is
/// decrypted.
#[derive(Clone, Copy, Debug, Drop, PartialEq, Eq)]
pub struct EnvelopedData<'a> {
    /// The version: 0, 2, 3 or 4. Decoding does not check this.
    pub version: CmsVersion<'a>,
    /// Certificates of the originator, and information about revoked certificates, if present.
    pub originator_info: Optional<Implicit<OriginatorInfo<'a>, 0>>,
    /// The encrypted key of the content, for each recipient. That there is at least one is not
    /// checked.
    pub recipient_infos: RecipientInfos<'a>,
    /// The encrypted content.
    pub encrypted_content_info: EncryptedContentInfo<'a>,
    /// Attributes that are not encrypted, if present.
    pub unprotected_attrs: Optional<Implicit<Attributes<'a>, 1>>,
}

/// The fields of [`EnvelopedData`] as one type, in the order in which they are encoded.
pub type EnvelopedDataFields<'a> = (
    CmsVersion<'a>,
    Optional<Implicit<OriginatorInfo<'a>, 0>>,
    RecipientInfos<'a>,
    EncryptedContentInfo<'a>,
    Optional<Implicit<Attributes<'a>, 1>>,
);

impl<'a> FromFields<EnvelopedDataFields<'a>> for EnvelopedData<'a> {
    ghost fields = { λ v. (
      v.version,
      v.originator_info,
      v.recipient_infos,
      v.encrypted_content_info,
      v.unprotected_attrs,
    ) };

    fn from_fields(fields: EnvelopedDataFields<'a>) -> Self {
        let (version, originator_info, recipient_infos, encrypted_content_info, unprotected_attrs) =
            fields;
        EnvelopedData {
            version,
            originator_info,
            recipient_infos,
            encrypted_content_info,
            unprotected_attrs,
        }
    }
}

impl<'a> Sequence for EnvelopedData<'a> {
    ghost meaning = { sequence (five_fields (field (alternative
        ⟦<CmsVersion<'a> as Described>⟧.element)) (optional (alternative
        ⟦<Implicit<OriginatorInfo<'a>, 0> as Described>⟧.element)) (field (alternative
        ⟦<RecipientInfos<'a> as Described>⟧.element)) (field (alternative
        ⟦<EncryptedContentInfo<'a> as Described>⟧.element)) (optional (alternative
        ⟦<Implicit<Attributes<'a>, 1> as Described>⟧.element)))
        ⟦<EnvelopedData<'a> as FromFields<EnvelopedDataFields<'a>>>⟧.fields };

    ghost fits = { (refl, refl) };
}

/// Decodes the fields, first to last. The errors are those that [`Sequence`] lists.
impl<'a, R: Lends<Borrowed = &'a [u8]>> DecodeValue<R> for EnvelopedData<'a> {
    type Error = Error;

    ghost decode_value_answers = { λ h s result t.
        ⟦<EnvelopedDataFields<'a> as Decode<SliceReader<'a>>>⟧.decode_answers s (map_ok
        ⟦<EnvelopedData<'a> as FromFields<EnvelopedDataFields<'a>>>⟧.fields result) t };

    fn decode_value(alloc: Global, reader: &mut R, header: Header) -> Result<Self, Error>
    where
        R: Reader,
    {
        decode_sequence::<R, EnvelopedDataFields<'a>, Self>(alloc, reader, header)
    }
}

impl<'a> IsValue for EnvelopedData<'a> {
    fn is_value(&self) {
        self.version.is_value();
        if let Some(value) = &self.originator_info.0 {
            value.is_value();
        }
        self.recipient_infos.is_value();
        self.encrypted_content_info.is_value();
        if let Some(value) = &self.unprotected_attrs.0 {
            value.is_value();
        }
    }
}

/// Writes the fields, first to last. The errors are those that [`Sequence`] lists.
impl<'a> HasFields for EnvelopedData<'a> {
    ghost fields_size = { λ v. ⟦<EnvelopedDataFields<'a> as Encode>⟧.size
        (⟦<EnvelopedData<'a> as FromFields<EnvelopedDataFields<'a>>>⟧.fields v) };

    ghost fields_answers = { λ v. ⟦<EnvelopedDataFields<'a> as Encode>⟧.encode_answers
        (⟦<EnvelopedData<'a> as FromFields<EnvelopedDataFields<'a>>>⟧.fields v) };

    fn call_fields<S, C: FieldsCall<S>>(
        &self,
        call: &C,
        state: &mut S,
        buf: &mut [u8],
    ) -> C::Output {
        call.call(
            &field_refs!(
                self,
                (
                    version,
                    originator_info,
                    recipient_infos,
                    encrypted_content_info,
                    unprotected_attrs
                )
            ),
            state,
            buf,
        )
    }
}

impl<'a> Item for EnvelopedData<'a> {
    ghost item = { sequence_item ⟦<EnvelopedData<'a> as Described>⟧.element };
}

impl<'a> LawfulItem for EnvelopedData<'a> {
    ghost is_lawful_item = { is_lawful_item ⟦<EnvelopedData<'a> as Described>⟧.element refl };
}
