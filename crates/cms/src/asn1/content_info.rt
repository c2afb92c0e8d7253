//! Written by asn1_compile from the module CMS: change the module instead.
//!
//! ContentInfo.
ghost use Rattle.std.specs.Prelude.{◌≡◌};
ghost use Rattle.std.proofs.Common.{refl};
ghost use Rattle.der.specs.Prelude.{map_ok};
ghost use Rattle.der_asn1.specs.Meaning.{alternative, field, is_lawful_item, sequence, sequence_item, two_fields};

use crate::asn1::content_type::ContentType;
use der::{
    Decode, DecodeValue, Encode, Error, FieldsCall, FromFields, HasFields, Header, IsValue, Lends,
    Reader, Sequence, SliceReader, decode_sequence, field_refs,
};
use der_asn1::{Described, ExplicitAny, Item, LawfulItem};
use std::alloc::Global;

/// A message: a content of any type, and the type (RFC 5652, 3), borrowed from the input.
#[derive(Clone, Copy, Debug, Drop, PartialEq, Eq)]
pub struct ContentInfo<'a> {
    /// The type of the content.
    pub content_type: ContentType<'a>,
    /// The content: an element of any tag. Its contents are not checked.
    pub content: ExplicitAny<'a, 0>,
}

/// The fields of [`ContentInfo`] as one type, in the order in which they are encoded.
pub type ContentInfoFields<'a> = (ContentType<'a>, ExplicitAny<'a, 0>);

impl<'a> FromFields<ContentInfoFields<'a>> for ContentInfo<'a> {
    ghost fields = { λ v. (v.content_type, v.content) };

    fn from_fields(fields: ContentInfoFields<'a>) -> Self {
        let (content_type, content) = fields;
        ContentInfo {
            content_type,
            content,
        }
    }
}

impl<'a> Sequence for ContentInfo<'a> {
    ghost meaning = { sequence (two_fields (field (alternative
        ⟦<ContentType<'a> as Described>⟧.element)) (field (alternative
        ⟦<ExplicitAny<'a, 0> as Described>⟧.element)))
        ⟦<ContentInfo<'a> as FromFields<ContentInfoFields<'a>>>⟧.fields };

    ghost fits = { (refl, refl) };
}

/// Decodes the fields, first to last. The errors are those that [`Sequence`] lists.
impl<'a, R: Lends<Borrowed = &'a [u8]>> DecodeValue<R> for ContentInfo<'a> {
    type Error = Error;

    ghost decode_value_answers = { λ h s result t.
        ⟦<ContentInfoFields<'a> as Decode<SliceReader<'a>>>⟧.decode_answers s (map_ok
        ⟦<ContentInfo<'a> as FromFields<ContentInfoFields<'a>>>⟧.fields result) t };

    fn decode_value(alloc: Global, reader: &mut R, header: Header) -> Result<Self, Error>
    where
        R: Reader,
    {
        decode_sequence::<R, ContentInfoFields<'a>, Self>(alloc, reader, header)
    }
}

impl<'a> IsValue for ContentInfo<'a> {
    fn is_value(&self) {
        self.content_type.is_value();
        self.content.is_value();
    }
}

/// Writes the fields, first to last. The errors are those that [`Sequence`] lists.
impl<'a> HasFields for ContentInfo<'a> {
    ghost fields_size = { λ v. ⟦<ContentInfoFields<'a> as Encode>⟧.size
        (⟦<ContentInfo<'a> as FromFields<ContentInfoFields<'a>>>⟧.fields v) };

    ghost fields_answers = { λ v. ⟦<ContentInfoFields<'a> as Encode>⟧.encode_answers
        (⟦<ContentInfo<'a> as FromFields<ContentInfoFields<'a>>>⟧.fields v) };

    fn call_fields<S, C: FieldsCall<S>>(
        &self,
        call: &C,
        state: &mut S,
        buf: &mut [u8],
    ) -> C::Output {
        call.call(&field_refs!(self, (content_type, content)), state, buf)
    }
}

impl<'a> Item for ContentInfo<'a> {
    ghost item = { sequence_item ⟦<ContentInfo<'a> as Described>⟧.element };
}

impl<'a> LawfulItem for ContentInfo<'a> {
    ghost is_lawful_item = { is_lawful_item ⟦<ContentInfo<'a> as Described>⟧.element refl };
}
