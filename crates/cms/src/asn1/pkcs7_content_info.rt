//! Written by asn1_compile from the module CMS: change the module instead.
//!
//! Pkcs7ContentInfo.
ghost use Rattle.std.specs.Prelude.{◌≡◌};
ghost use Rattle.std.proofs.Common.{refl};
ghost use Rattle.der.specs.Prelude.{map_ok};
ghost use Rattle.der_asn1.specs.Meaning.{alternative, field, is_lawful_item, optional, sequence, sequence_item, two_fields};

use crate::asn1::content_type::ContentType;
use der::{
    Decode, DecodeValue, Encode, Error, FieldsCall, FromFields, HasFields, Header, IsValue, Lends,
    Reader, Sequence, SliceReader, decode_sequence, field_refs,
};
use der_asn1::{Described, ExplicitAny, Item, LawfulItem, Optional};
use std::alloc::Global;

/// A content inside a message of PKCS #7 (RFC 2315, 7), borrowed from the input.
#[derive(Clone, Copy, Debug, Drop, PartialEq, Eq)]
pub struct Pkcs7ContentInfo<'a> {
    /// The type of the content.
    pub content_type: ContentType<'a>,
    /// The content: an element of any tag. Its contents are not checked. It is absent if it is
    /// stored elsewhere, as for a detached signature.
    pub content: Optional<ExplicitAny<'a, 0>>,
}

/// The fields of [`Pkcs7ContentInfo`] as one type, in the order in which they are encoded.
pub type Pkcs7ContentInfoFields<'a> = (ContentType<'a>, Optional<ExplicitAny<'a, 0>>);

impl<'a> FromFields<Pkcs7ContentInfoFields<'a>> for Pkcs7ContentInfo<'a> {
    ghost fields = { λ v. (v.content_type, v.content) };

    fn from_fields(fields: Pkcs7ContentInfoFields<'a>) -> Self {
        let (content_type, content) = fields;
        Pkcs7ContentInfo {
            content_type,
            content,
        }
    }
}

impl<'a> Sequence for Pkcs7ContentInfo<'a> {
    ghost meaning = { sequence (two_fields (field (alternative
        ⟦<ContentType<'a> as Described>⟧.element)) (optional (alternative
        ⟦<ExplicitAny<'a, 0> as Described>⟧.element)))
        ⟦<Pkcs7ContentInfo<'a> as FromFields<Pkcs7ContentInfoFields<'a>>>⟧.fields };

    ghost fits = { (refl, refl) };
}

/// Decodes the fields, first to last. The errors are those that [`Sequence`] lists.
impl<'a, R: Lends<Borrowed = &'a [u8]>> DecodeValue<R> for Pkcs7ContentInfo<'a> {
    type Error = Error;

    ghost decode_value_answers = { λ h s result t.
        ⟦<Pkcs7ContentInfoFields<'a> as Decode<SliceReader<'a>>>⟧.decode_answers s (map_ok
        ⟦<Pkcs7ContentInfo<'a> as FromFields<Pkcs7ContentInfoFields<'a>>>⟧.fields result) t };

    fn decode_value(alloc: Global, reader: &mut R, header: Header) -> Result<Self, Error>
    where
        R: Reader,
    {
        decode_sequence::<R, Pkcs7ContentInfoFields<'a>, Self>(alloc, reader, header)
    }
}

impl<'a> IsValue for Pkcs7ContentInfo<'a> {
    fn is_value(&self) {
        self.content_type.is_value();
        if let Some(value) = &self.content.0 {
            value.is_value();
        }
    }
}

/// Writes the fields, first to last. The errors are those that [`Sequence`] lists.
impl<'a> HasFields for Pkcs7ContentInfo<'a> {
    ghost fields_size = { λ v. ⟦<Pkcs7ContentInfoFields<'a> as Encode>⟧.size
        (⟦<Pkcs7ContentInfo<'a> as FromFields<Pkcs7ContentInfoFields<'a>>>⟧.fields v) };

    ghost fields_answers = { λ v. ⟦<Pkcs7ContentInfoFields<'a> as Encode>⟧.encode_answers
        (⟦<Pkcs7ContentInfo<'a> as FromFields<Pkcs7ContentInfoFields<'a>>>⟧.fields v) };

    fn call_fields<S, C: FieldsCall<S>>(
        &self,
        call: &C,
        state: &mut S,
        buf: &mut [u8],
    ) -> C::Output {
        call.call(&field_refs!(self, (content_type, content)), state, buf)
    }
}

impl<'a> Item for Pkcs7ContentInfo<'a> {
    ghost item = { sequence_item ⟦<Pkcs7ContentInfo<'a> as Described>⟧.element };
}

impl<'a> LawfulItem for Pkcs7ContentInfo<'a> {
    ghost is_lawful_item = { is_lawful_item ⟦<Pkcs7ContentInfo<'a> as Described>⟧.element refl };
}
