//! Written by asn1_compile from the module CMS: change the module instead.
//!
//! EncryptedData.
ghost use Rattle.std.specs.Prelude.{◌≡◌};
ghost use Rattle.std.proofs.Common.{refl};
ghost use Rattle.der.specs.Prelude.{map_ok};
ghost use Rattle.der_asn1.specs.Meaning.{alternative, field, is_lawful_item, optional, sequence, sequence_item};
ghost use Rattle.der_asn1.specs.TupleFields.{three_fields};

use crate::asn1::cms_version::CmsVersion;
use crate::asn1::encrypted_content_info::EncryptedContentInfo;
use der::{
    Decode, DecodeValue, Encode, Error, FieldsCall, FromFields, HasFields, Header, IsValue, Lends,
    Reader, Sequence, SliceReader, decode_sequence, field_refs,
};
use der_asn1::{Described, Implicit, Item, LawfulItem, Optional};
use std::alloc::Global;
use x509::Attributes;

/// A content that is encrypted with a key that is not part of the message (RFC 5652, 8), borrowed
/// from the input.
#[derive(Clone, Copy, Debug, Drop, PartialEq, Eq)]
pub struct EncryptedData<'a> {
    /// The version: 2 if there are attributes, or else 0. Decoding does not check this.
    pub version: CmsVersion<'a>,
    /// The encrypted content.
    pub encrypted_content_info: EncryptedContentInfo<'a>,
    /// Attributes that are not encrypted, if present.
    pub unprotected_attrs: Optional<Implicit<Attributes<'a>, 1>>,
}

/// The fields of [`EncryptedData`] as one type, in the order in which they are encoded.
pub type EncryptedDataFields<'a> = (
    CmsVersion<'a>,
    EncryptedContentInfo<'a>,
    Optional<Implicit<Attributes<'a>, 1>>,
);

impl<'a> FromFields<EncryptedDataFields<'a>> for EncryptedData<'a> {
    ghost fields = { λ v. (v.version, v.encrypted_content_info, v.unprotected_attrs) };

    fn from_fields(fields: EncryptedDataFields<'a>) -> Self {
        let (version, encrypted_content_info, unprotected_attrs) = fields;
        EncryptedData {
            version,
            encrypted_content_info,
            unprotected_attrs,
        }
    }
}

impl<'a> Sequence for EncryptedData<'a> {
    ghost meaning = { sequence (three_fields (field (alternative
        ⟦<CmsVersion<'a> as Described>⟧.element)) (field (alternative
        ⟦<EncryptedContentInfo<'a> as Described>⟧.element)) (optional (alternative
        ⟦<Implicit<Attributes<'a>, 1> as Described>⟧.element)))
        ⟦<EncryptedData<'a> as FromFields<EncryptedDataFields<'a>>>⟧.fields };

    ghost fits = { (refl, refl) };
}

/// Decodes the fields, first to last. The errors are those that [`Sequence`] lists.
impl<'a, R: Lends<Borrowed = &'a [u8]>> DecodeValue<R> for EncryptedData<'a> {
    type Error = Error;

    ghost decode_value_answers = { λ h s result t.
        ⟦<EncryptedDataFields<'a> as Decode<SliceReader<'a>>>⟧.decode_answers s (map_ok
        ⟦<EncryptedData<'a> as FromFields<EncryptedDataFields<'a>>>⟧.fields result) t };

    fn decode_value(alloc: Global, reader: &mut R, header: Header) -> Result<Self, Error>
    where
        R: Reader,
    {
        decode_sequence::<R, EncryptedDataFields<'a>, Self>(alloc, reader, header)
    }
}

impl<'a> IsValue for EncryptedData<'a> {
    fn is_value(&self) {
        self.version.is_value();
        self.encrypted_content_info.is_value();
        if let Some(value) = &self.unprotected_attrs.0 {
            value.is_value();
        }
    }
}

/// Writes the fields, first to last. The errors are those that [`Sequence`] lists.
impl<'a> HasFields for EncryptedData<'a> {
    ghost fields_size = { λ v. ⟦<EncryptedDataFields<'a> as Encode>⟧.size
        (⟦<EncryptedData<'a> as FromFields<EncryptedDataFields<'a>>>⟧.fields v) };

    ghost fields_answers = { λ v. ⟦<EncryptedDataFields<'a> as Encode>⟧.encode_answers
        (⟦<EncryptedData<'a> as FromFields<EncryptedDataFields<'a>>>⟧.fields v) };

    fn call_fields<S, C: FieldsCall<S>>(
        &self,
        call: &C,
        state: &mut S,
        buf: &mut [u8],
    ) -> C::Output {
        call.call(
            &field_refs!(self, (version, encrypted_content_info, unprotected_attrs)),
            state,
            buf,
        )
    }
}

impl<'a> Item for EncryptedData<'a> {
    ghost item = { sequence_item ⟦<EncryptedData<'a> as Described>⟧.element };
}

impl<'a> LawfulItem for EncryptedData<'a> {
    ghost is_lawful_item = { is_lawful_item ⟦<EncryptedData<'a> as Described>⟧.element refl };
}
