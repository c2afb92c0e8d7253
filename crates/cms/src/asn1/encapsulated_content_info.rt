//! Written by asn1_compile from the module CMS: change the module instead.
//!
//! EncapsulatedContentInfo.
ghost use Rattle.std.specs.Prelude.{◌≡◌};
ghost use Rattle.std.proofs.Common.{refl};
ghost use Rattle.der.specs.Prelude.{map_ok};
ghost use Rattle.der_asn1.specs.Meaning.{alternative, field, is_lawful_item, optional, sequence, sequence_item, two_fields};

use crate::Segmented;
use crate::asn1::content_type::ContentType;
use der::{
    Decode, DecodeValue, Encode, Error, FieldsCall, FromFields, HasFields, Header, IsValue, Lends,
    Reader, Sequence, SliceReader, decode_sequence, field_refs,
};
use der_asn1::{Described, Explicit, Item, LawfulItem, Optional};
use std::alloc::Global;

/// A content inside a message (RFC 5652, 5.2), borrowed from the input. In PKCS #7 the content may
/// be an element with another tag than OCTET STRING (RFC 5652, 5.2.1). Decoding refuses such a
/// content here, and accepts it in a Pkcs7ContentInfo.
#[derive(Clone, Copy, Debug, Drop, PartialEq, Eq)]
pub struct EncapsulatedContentInfo<'a> {
    /// The type of the content.
    pub e_content_type: ContentType<'a>,
    /// The octets of the content, which are not checked. They are absent if they are stored
    /// elsewhere, as for a detached signature.
    pub e_content: Optional<Explicit<Segmented<'a>, 0>>,
}

/// The fields of [`EncapsulatedContentInfo`] as one type, in the order in which they are encoded.
pub type EncapsulatedContentInfoFields<'a> = (
    ContentType<'a>,
    Optional<Explicit<Segmented<'a>, 0>>,
);

impl<'a> FromFields<EncapsulatedContentInfoFields<'a>> for EncapsulatedContentInfo<'a> {
    ghost fields = { λ v. (v.e_content_type, v.e_content) };

    fn from_fields(fields: EncapsulatedContentInfoFields<'a>) -> Self {
        let (e_content_type, e_content) = fields;
        EncapsulatedContentInfo {
            e_content_type,
            e_content,
        }
    }
}

impl<'a> Sequence for EncapsulatedContentInfo<'a> {
    ghost meaning = { sequence (two_fields (field (alternative
        ⟦<ContentType<'a> as Described>⟧.element)) (optional (alternative
        ⟦<Explicit<Segmented<'a>, 0> as Described>⟧.element)))
        ⟦<EncapsulatedContentInfo<'a> as FromFields<EncapsulatedContentInfoFields<'a>>>⟧.fields };

    ghost fits = { (refl, refl) };
}

/// Decodes the fields, first to last. The errors are those that [`Sequence`] lists.
impl<'a, R: Lends<Borrowed = &'a [u8]>> DecodeValue<R> for EncapsulatedContentInfo<'a> {
    type Error = Error;

    ghost decode_value_answers = { λ h s result t.
        ⟦<EncapsulatedContentInfoFields<'a> as Decode<SliceReader<'a>>>⟧.decode_answers s (map_ok
        ⟦<EncapsulatedContentInfo<'a> as FromFields<EncapsulatedContentInfoFields<'a>>>⟧.fields result) t };

    fn decode_value(alloc: Global, reader: &mut R, header: Header) -> Result<Self, Error>
    where
        R: Reader,
    {
        decode_sequence::<R, EncapsulatedContentInfoFields<'a>, Self>(alloc, reader, header)
    }
}

impl<'a> IsValue for EncapsulatedContentInfo<'a> {
    fn is_value(&self) {
        self.e_content_type.is_value();
        if let Some(value) = &self.e_content.0 {
            value.is_value();
        }
    }
}

/// Writes the fields, first to last. The errors are those that [`Sequence`] lists.
impl<'a> HasFields for EncapsulatedContentInfo<'a> {
    ghost fields_size = { λ v. ⟦<EncapsulatedContentInfoFields<'a> as Encode>⟧.size
        (⟦<EncapsulatedContentInfo<'a> as FromFields<EncapsulatedContentInfoFields<'a>>>⟧.fields v) };

    ghost fields_answers = { λ v. ⟦<EncapsulatedContentInfoFields<'a> as Encode>⟧.encode_answers
        (⟦<EncapsulatedContentInfo<'a> as FromFields<EncapsulatedContentInfoFields<'a>>>⟧.fields v) };

    fn call_fields<S, C: FieldsCall<S>>(
        &self,
        call: &C,
        state: &mut S,
        buf: &mut [u8],
    ) -> C::Output {
        call.call(&field_refs!(self, (e_content_type, e_content)), state, buf)
    }
}

impl<'a> Item for EncapsulatedContentInfo<'a> {
    ghost item = { sequence_item ⟦<EncapsulatedContentInfo<'a> as Described>⟧.element };
}

impl<'a> LawfulItem for EncapsulatedContentInfo<'a> {
    ghost is_lawful_item = { is_lawful_item
        ⟦<EncapsulatedContentInfo<'a> as Described>⟧.element refl };
}
