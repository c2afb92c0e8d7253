//! Written by asn1_compile from the module CMS: change the module instead.
//!
//! AuthenticatedData.
ghost use Rattle.std.specs.Prelude.{◌≡◌};
ghost use Rattle.std.proofs.Common.{refl};
ghost use Rattle.der.specs.Prelude.{map_ok};
ghost use Rattle.der_asn1.specs.Meaning.{alternative, field, is_lawful_item, optional, sequence, sequence_item};
ghost use Rattle.der_asn1.specs.TupleFields.{nine_fields};

use crate::asn1::auth_attributes::AuthAttributes;
use crate::asn1::cms_version::CmsVersion;
use crate::asn1::encapsulated_content_info::EncapsulatedContentInfo;
use crate::asn1::originator_info::OriginatorInfo;
use crate::asn1::recipient_infos::RecipientInfos;
use der::{
    Decode, DecodeValue, Encode, Error, FieldsCall, FromFields, HasFields, Header, IsValue, Lends,
    Reader, Sequence, SliceReader, decode_sequence, field_refs,
};
use der_asn1::{Described, Implicit, Item, LawfulItem, OctetStringRef, Optional};
use spki::AlgorithmIdentifierRef;
use std::alloc::Global;

/// A content with a message authentication code for recipients (RFC 5652, 9.1), borrowed from the
/// input.
#[derive(Clone, Copy, Debug, Drop, PartialEq, Eq)]
pub struct AuthenticatedData<'a> {
    /// The version: 0, 1 or 3. Decoding does not check this.
    pub version: CmsVersion<'a>,
    /// Certificates of the originator, and information about revoked certificates, if present.
    pub originator_info: Optional<Implicit<OriginatorInfo<'a>, 0>>,
    /// The encrypted key of the message authentication code, for each recipient. That there is at
    /// least one is not checked.
    pub recipient_infos: RecipientInfos<'a>,
    /// The algorithm of the message authentication code.
    pub mac_algorithm: AlgorithmIdentifierRef<'a>,
    /// The algorithm of the digest of the content, if present. The RFC requires it exactly if
    /// `auth_attrs` is present, but decoding does not check this.
    pub digest_algorithm: Optional<Implicit<AlgorithmIdentifierRef<'a>, 1>>,
    /// The content that the message authentication code covers.
    pub encap_content_info: EncapsulatedContentInfo<'a>,
    /// The attributes that the message authentication code covers, if present. They have the tag 2
    /// here. In the octets that the code covers, they have the tag of a SET OF instead.
    pub auth_attrs: Optional<Implicit<AuthAttributes<'a>, 2>>,
    /// The octets of the message authentication code.
    pub mac: OctetStringRef<'a>,
    /// The attributes that the message authentication code does not cover, if present.
    pub unauth_attrs: Optional<Implicit<AuthAttributes<'a>, 3>>,
}

/// The fields of [`AuthenticatedData`] as one type, in the order in which they are encoded.
pub type AuthenticatedDataFields<'a> = (
    CmsVersion<'a>,
    Optional<Implicit<OriginatorInfo<'a>, 0>>,
    RecipientInfos<'a>,
    AlgorithmIdentifierRef<'a>,
    Optional<Implicit<AlgorithmIdentifierRef<'a>, 1>>,
    EncapsulatedContentInfo<'a>,
    Optional<Implicit<AuthAttributes<'a>, 2>>,
    OctetStringRef<'a>,
    Optional<Implicit<AuthAttributes<'a>, 3>>,
);

impl<'a> FromFields<AuthenticatedDataFields<'a>> for AuthenticatedData<'a> {
    ghost fields = { λ v. (
      v.version,
      v.originator_info,
      v.recipient_infos,
      v.mac_algorithm,
      v.digest_algorithm,
      v.encap_content_info,
      v.auth_attrs,
      v.mac,
      v.unauth_attrs,
    ) };

    fn from_fields(fields: AuthenticatedDataFields<'a>) -> Self {
        let (
            version,
            originator_info,
            recipient_infos,
            mac_algorithm,
            digest_algorithm,
            encap_content_info,
            auth_attrs,
            mac,
            unauth_attrs,
        ) = fields;
        AuthenticatedData {
            version,
            originator_info,
            recipient_infos,
            mac_algorithm,
            digest_algorithm,
            encap_content_info,
            auth_attrs,
            mac,
            unauth_attrs,
        }
    }
}

impl<'a> Sequence for AuthenticatedData<'a> {
    ghost meaning = { sequence (nine_fields (field (alternative
        ⟦<CmsVersion<'a> as Described>⟧.element)) (optional (alternative
        ⟦<Implicit<OriginatorInfo<'a>, 0> as Described>⟧.element)) (field (alternative
        ⟦<RecipientInfos<'a> as Described>⟧.element)) (field (alternative
        ⟦<AlgorithmIdentifierRef<'a> as Described>⟧.element)) (optional (alternative
        ⟦<Implicit<AlgorithmIdentifierRef<'a>, 1> as Described>⟧.element)) (field (alternative
        ⟦<EncapsulatedContentInfo<'a> as Described>⟧.element)) (optional (alternative
        ⟦<Implicit<AuthAttributes<'a>, 2> as Described>⟧.element)) (field (alternative
        ⟦<OctetStringRef<'a> as Described>⟧.element)) (optional (alternative
        ⟦<Implicit<AuthAttributes<'a>, 3> as Described>⟧.element)))
        ⟦<AuthenticatedData<'a> as FromFields<AuthenticatedDataFields<'a>>>⟧.fields };

    ghost fits = { (refl, refl) };
}

/// Decodes the fields, first to last. The errors are those that [`Sequence`] lists.
impl<'a, R: Lends<Borrowed = &'a [u8]>> DecodeValue<R> for AuthenticatedData<'a> {
    type Error = Error;

    ghost decode_value_answers = { λ h s result t.
        ⟦<AuthenticatedDataFields<'a> as Decode<SliceReader<'a>>>⟧.decode_answers s (map_ok
        ⟦<AuthenticatedData<'a> as FromFields<AuthenticatedDataFields<'a>>>⟧.fields result) t };

    fn decode_value(alloc: Global, reader: &mut R, header: Header) -> Result<Self, Error>
    where
        R: Reader,
    {
        decode_sequence::<R, AuthenticatedDataFields<'a>, Self>(alloc, reader, header)
    }
}

impl<'a> IsValue for AuthenticatedData<'a> {
    fn is_value(&self) {
        self.version.is_value();
        if let Some(value) = &self.originator_info.0 {
            value.is_value();
        }
        self.recipient_infos.is_value();
        self.mac_algorithm.is_value();
        if let Some(value) = &self.digest_algorithm.0 {
            value.is_value();
        }
        self.encap_content_info.is_value();
        if let Some(value) = &self.auth_attrs.0 {
            value.is_value();
        }
        self.mac.is_value();
        if let Some(value) = &self.unauth_attrs.0 {
            value.is_value();
        }
    }
}

/// Writes the fields, first to last. The errors are those that [`Sequence`] lists.
impl<'a> HasFields for AuthenticatedData<'a> {
    ghost fields_size = { λ v. ⟦<AuthenticatedDataFields<'a> as Encode>⟧.size
        (⟦<AuthenticatedData<'a> as FromFields<AuthenticatedDataFields<'a>>>⟧.fields v) };

    ghost fields_answers = { λ v. ⟦<AuthenticatedDataFields<'a> as Encode>⟧.encode_answers
        (⟦<AuthenticatedData<'a> as FromFields<AuthenticatedDataFields<'a>>>⟧.fields v) };

    fn call_fields<S, C: FieldsCall<S>>(
        &self,
        call: &C,
        state: &mut S,
        buf: &mut [u8],
    ) -> C::Output {
        call.call(
            &field_refs!(
                self,
                (
                    version,
                    originator_info,
                    recipient_infos,
                    mac_algorithm,
                    digest_algorithm,
                    encap_content_info,
                    auth_attrs,
                    mac,
                    unauth_attrs
                )
            ),
            state,
            buf,
        )
    }
}

impl<'a> Item for AuthenticatedData<'a> {
    ghost item = { sequence_item ⟦<AuthenticatedData<'a> as Described>⟧.element };
}

impl<'a> LawfulItem for AuthenticatedData<'a> {
    ghost is_lawful_item = { is_lawful_item ⟦<AuthenticatedData<'a> as Described>⟧.element refl };
}
