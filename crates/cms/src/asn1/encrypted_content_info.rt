//! Written by asn1_compile from the module CMS: change the module instead.
//!
//! EncryptedContentInfo.
ghost use Rattle.std.specs.Prelude.{◌≡◌};
ghost use Rattle.std.proofs.Common.{refl};
ghost use Rattle.der.specs.Prelude.{map_ok};
ghost use Rattle.der_asn1.specs.Meaning.{alternative, field, is_lawful_item, optional, sequence, sequence_item};
ghost use Rattle.der_asn1.specs.TupleFields.{three_fields};

use crate::EncryptedOctets;
use crate::asn1::content_type::ContentType;
use der::{
    Decode, DecodeValue, Encode, Error, FieldsCall, FromFields, HasFields, Header, IsValue, Lends,
    Reader, Sequence, SliceReader, decode_sequence, field_refs,
};
use der_asn1::{Described, DescribedChoice, Item, LawfulItem, Optional};
use spki::AlgorithmIdentifierRef;
use std::alloc::Global;

/// An encrypted content (RFC 5652, 6.1), borrowed from the input.
#[derive(Clone, Copy, Debug, Drop, PartialEq, Eq)]
pub struct EncryptedContentInfo<'a> {
    /// The type of the content.
    pub content_type: ContentType<'a>,
    /// The algorithm of the encryption.
    pub content_encryption_algorithm: AlgorithmIdentifierRef<'a>,
    /// The encrypted octets. They are absent if they are stored elsewhere.
    pub encrypted_content: Optional<EncryptedOctets<'a>>,
}

/// The fields of [`EncryptedContentInfo`] as one type, in the order in which they are encoded.
pub type EncryptedContentInfoFields<'a> = (
    ContentType<'a>,
    AlgorithmIdentifierRef<'a>,
    Optional<EncryptedOctets<'a>>,
);

impl<'a> FromFields<EncryptedContentInfoFields<'a>> for EncryptedContentInfo<'a> {
    ghost fields = { λ v. (v.content_type, v.content_encryption_algorithm, v.encrypted_content) };

    fn from_fields(fields: EncryptedContentInfoFields<'a>) -> Self {
        let (content_type, content_encryption_algorithm, encrypted_content) = fields;
        EncryptedContentInfo {
            content_type,
            content_encryption_algorithm,
            encrypted_content,
        }
    }
}

impl<'a> Sequence for EncryptedContentInfo<'a> {
    ghost meaning = { sequence (three_fields (field (alternative
        ⟦<ContentType<'a> as Described>⟧.element)) (field (alternative
        ⟦<AlgorithmIdentifierRef<'a> as Described>⟧.element)) (optional
        ⟦<EncryptedOctets<'a> as DescribedChoice>⟧.alternative))
        ⟦<EncryptedContentInfo<'a> as FromFields<EncryptedContentInfoFields<'a>>>⟧.fields };

    ghost fits = { (refl, refl) };
}

/// Decodes the fields, first to last. The errors are those that [`Sequence`] lists.
impl<'a, R: Lends<Borrowed = &'a [u8]>> DecodeValue<R> for EncryptedContentInfo<'a> {
    type Error = Error;

    ghost decode_value_answers = { λ h s result t.
        ⟦<EncryptedContentInfoFields<'a> as Decode<SliceReader<'a>>>⟧.decode_answers s (map_ok
        ⟦<EncryptedContentInfo<'a> as FromFields<EncryptedContentInfoFields<'a>>>⟧.fields result) t };

    fn decode_value(alloc: Global, reader: &mut R, header: Header) -> Result<Self, Error>
    where
        R: Reader,
    {
        decode_sequence::<R, EncryptedContentInfoFields<'a>, Self>(alloc, reader, header)
    }
}

impl<'a> IsValue for EncryptedContentInfo<'a> {
    fn is_value(&self) {
        self.content_type.is_value();
        self.content_encryption_algorithm.is_value();
        if let Some(value) = &self.encrypted_content.0 {
            value.is_value();
        }
    }
}

/// Writes the fields, first to last. The errors are those that [`Sequence`] lists.
impl<'a> HasFields for EncryptedContentInfo<'a> {
    ghost fields_size = { λ v. ⟦<EncryptedContentInfoFields<'a> as Encode>⟧.size
        (⟦<EncryptedContentInfo<'a> as FromFields<EncryptedContentInfoFields<'a>>>⟧.fields v) };

    ghost fields_answers = { λ v. ⟦<EncryptedContentInfoFields<'a> as Encode>⟧.encode_answers
        (⟦<EncryptedContentInfo<'a> as FromFields<EncryptedContentInfoFields<'a>>>⟧.fields v) };

    fn call_fields<S, C: FieldsCall<S>>(
        &self,
        call: &C,
        state: &mut S,
        buf: &mut [u8],
    ) -> C::Output {
        call.call(
            &field_refs!(
                self,
                (
                    content_type,
                    content_encryption_algorithm,
                    encrypted_content
                )
            ),
            state,
            buf,
        )
    }
}

impl<'a> Item for EncryptedContentInfo<'a> {
    ghost item = { sequence_item ⟦<EncryptedContentInfo<'a> as Described>⟧.element };
}

impl<'a> LawfulItem for EncryptedContentInfo<'a> {
    ghost is_lawful_item = { is_lawful_item
        ⟦<EncryptedContentInfo<'a> as Described>⟧.element refl };
}
