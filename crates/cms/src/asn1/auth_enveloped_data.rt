//! Written by asn1_compile from the module CMS: change the module instead.
//!
//! AuthEnvelopedData.
ghost use Rattle.std.specs.Prelude.{◌≡◌};
ghost use Rattle.std.proofs.Common.{refl};
ghost use Rattle.der.specs.Prelude.{map_ok};
ghost use Rattle.der_asn1.specs.Meaning.{alternative, field, is_lawful_item, optional, sequence, sequence_item};
ghost use Rattle.der_asn1.specs.TupleFields.{seven_fields};

use crate::asn1::auth_attributes::AuthAttributes;
use crate::asn1::cms_version::CmsVersion;
use crate::asn1::encrypted_content_info::EncryptedContentInfo;
use crate::asn1::originator_info::OriginatorInfo;
use crate::asn1::recipient_infos::RecipientInfos;
use der::{
    Decode, DecodeValue, Encode, Error, FieldsCall, FromFields, HasFields, Header, IsValue, Lends,
    Reader, Sequence, SliceReader, decode_sequence, field_refs,
};
use der_asn1::{Described, Implicit, Item, LawfulItem, OctetStringRef, Optional};
use std::alloc::Global;

/// A content that is encrypted and authenticated for recipients (RFC 5083, 2.1), borrowed from the
/// input. Nothing is decrypted.
#[derive(Clone, Copy, Debug, Drop, PartialEq, Eq)]
pub struct AuthEnvelopedData<'a> {
    /// The version, which is 0. Decoding does not check this.
    pub version: CmsVersion<'a>,
    /// Certificates of the originator, and information about revoked certificates, if present.
    pub originator_info: Optional<Implicit<OriginatorInfo<'a>, 0>>,
    /// The encrypted key of the content, for each recipient. That there is at least one is not
    /// checked.
    pub recipient_infos: RecipientInfos<'a>,
    /// The encrypted content.
    pub auth_encrypted_content_info: EncryptedContentInfo<'a>,
    /// The attributes that the message authentication code covers, if present. They have the tag 1
    /// here. In the octets that the code covers, they have the tag of a SET OF instead.
    pub auth_attrs: Optional<Implicit<AuthAttributes<'a>, 1>>,
    /// The octets of the message authentication code.
    pub mac: OctetStringRef<'a>,
    /// The attributes that the message authentication code does not cover, if present.
    pub unauth_attrs: Optional<Implicit<AuthAttributes<'a>, 2>>,
}

/// The fields of [`AuthEnvelopedData`] as one type, in the order in which they are encoded.
pub type AuthEnvelopedDataFields<'a> = (
    CmsVersion<'a>,
    Optional<Implicit<OriginatorInfo<'a>, 0>>,
    RecipientInfos<'a>,
    EncryptedContentInfo<'a>,
    Optional<Implicit<AuthAttributes<'a>, 1>>,
    OctetStringRef<'a>,
    Optional<Implicit<AuthAttributes<'a>, 2>>,
);

impl<'a> FromFields<AuthEnvelopedDataFields<'a>> for AuthEnvelopedData<'a> {
    ghost fields = { λ v. (
      v.version,
      v.originator_info,
      v.recipient_infos,
      v.auth_encrypted_content_info,
      v.auth_attrs,
      v.mac,
      v.unauth_attrs,
    ) };

    fn from_fields(fields: AuthEnvelopedDataFields<'a>) -> Self {
        let (
            version,
            originator_info,
            recipient_infos,
            auth_encrypted_content_info,
            auth_attrs,
            mac,
            unauth_attrs,
        ) = fields;
        AuthEnvelopedData {
            version,
            originator_info,
            recipient_infos,
            auth_encrypted_content_info,
            auth_attrs,
            mac,
            unauth_attrs,
        }
    }
}

impl<'a> Sequence for AuthEnvelopedData<'a> {
    ghost meaning = { sequence (seven_fields (field (alternative
        ⟦<CmsVersion<'a> as Described>⟧.element)) (optional (alternative
        ⟦<Implicit<OriginatorInfo<'a>, 0> as Described>⟧.element)) (field (alternative
        ⟦<RecipientInfos<'a> as Described>⟧.element)) (field (alternative
        ⟦<EncryptedContentInfo<'a> as Described>⟧.element)) (optional (alternative
        ⟦<Implicit<AuthAttributes<'a>, 1> as Described>⟧.element)) (field (alternative
        ⟦<OctetStringRef<'a> as Described>⟧.element)) (optional (alternative
        ⟦<Implicit<AuthAttributes<'a>, 2> as Described>⟧.element)))
        ⟦<AuthEnvelopedData<'a> as FromFields<AuthEnvelopedDataFields<'a>>>⟧.fields };

    ghost fits = { (refl, refl) };
}

/// Decodes the fields, first to last. The errors are those that [`Sequence`] lists.
impl<'a, R: Lends<Borrowed = &'a [u8]>> DecodeValue<R> for AuthEnvelopedData<'a> {
    type Error = Error;

    ghost decode_value_answers = { λ h s result t.
        ⟦<AuthEnvelopedDataFields<'a> as Decode<SliceReader<'a>>>⟧.decode_answers s (map_ok
        ⟦<AuthEnvelopedData<'a> as FromFields<AuthEnvelopedDataFields<'a>>>⟧.fields result) t };

    fn decode_value(alloc: Global, reader: &mut R, header: Header) -> Result<Self, Error>
    where
        R: Reader,
    {
        decode_sequence::<R, AuthEnvelopedDataFields<'a>, Self>(alloc, reader, header)
    }
}

impl<'a> IsValue for AuthEnvelopedData<'a> {
    fn is_value(&self) {
        self.version.is_value();
        if let Some(value) = &self.originator_info.0 {
            value.is_value();
        }
        self.recipient_infos.is_value();
        self.auth_encrypted_content_info.is_value();
        if let Some(value) = &self.auth_attrs.0 {
            value.is_value();
        }
        self.mac.is_value();
        if let Some(value) = &self.unauth_attrs.0 {
            value.is_value();
        }
    }
}

/// Writes the fields, first to last. The errors are those that [`Sequence`] lists.
impl<'a> HasFields for AuthEnvelopedData<'a> {
    ghost fields_size = { λ v. ⟦<AuthEnvelopedDataFields<'a> as Encode>⟧.size
        (⟦<AuthEnvelopedData<'a> as FromFields<AuthEnvelopedDataFields<'a>>>⟧.fields v) };

    ghost fields_answers = { λ v. ⟦<AuthEnvelopedDataFields<'a> as Encode>⟧.encode_answers
        (⟦<AuthEnvelopedData<'a> as FromFields<AuthEnvelopedDataFields<'a>>>⟧.fields v) };

    fn call_fields<S, C: FieldsCall<S>>(
        &self,
        call: &C,
        state: &mut S,
        buf: &mut [u8],
    ) -> C::Output {
        call.call(
            &field_refs!(
                self,
                (
                    version,
                    originator_info,
                    recipient_infos,
                    auth_encrypted_content_info,
                    auth_attrs,
                    mac,
                    unauth_attrs
                )
            ),
            state,
            buf,
        )
    }
}

impl<'a> Item for AuthEnvelopedData<'a> {
    ghost item = { sequence_item ⟦<AuthEnvelopedData<'a> as Described>⟧.element };
}

impl<'a> LawfulItem for AuthEnvelopedData<'a> {
    ghost is_lawful_item = { is_lawful_item ⟦<AuthEnvelopedData<'a> as Described>⟧.element refl };
}
