//! Written by asn1_compile from the module CMS: change the module instead.
//!
//! SignedMessage.
ghost use Rattle.std.specs.Prelude.{◌≡◌};
ghost use Rattle.std.proofs.Common.{refl};
ghost use Rattle.der.specs.Prelude.{map_ok};
ghost use Rattle.der_asn1.specs.Meaning.{alternative, field, is_lawful_item, sequence, sequence_item, two_fields};

use crate::asn1::content_type::ContentType;
use crate::asn1::signed_data::SignedData;
use der::{
    Decode, DecodeValue, Encode, Error, FieldsCall, FromFields, HasFields, Header, IsValue, Lends,
    Reader, Sequence, SliceReader, decode_sequence, field_refs,
};
use der_asn1::{Described, Explicit, Item, LawfulItem};
use std::alloc::Global;

/// A message whose content is a SignedData (RFC 5652, 3), borrowed from the input.
#[derive(Clone, Copy, Debug, Drop, PartialEq, Eq)]
pub struct SignedMessage<'a> {
    /// The type of the content. That it is id-signedData is not checked.
    pub content_type: ContentType<'a>,
    /// The SignedData.
    pub content: Explicit<SignedData<'a>, 0>,
}

/// The fields of [`SignedMessage`] as one type, in the order in which they are encoded.
pub type SignedMessageFields<'a> = (ContentType<'a>, Explicit<SignedData<'a>, 0>);

impl<'a> FromFields<SignedMessageFields<'a>> for SignedMessage<'a> {
    ghost fields = { λ v. (v.content_type, v.content) };

    fn from_fields(fields: SignedMessageFields<'a>) -> Self {
        let (content_type, content) = fields;
        SignedMessage {
            content_type,
            content,
        }
    }
}

impl<'a> Sequence for SignedMessage<'a> {
    ghost meaning = { sequence (two_fields (field (alternative
        ⟦<ContentType<'a> as Described>⟧.element)) (field (alternative
        ⟦<Explicit<SignedData<'a>, 0> as Described>⟧.element)))
        ⟦<SignedMessage<'a> as FromFields<SignedMessageFields<'a>>>⟧.fields };

    ghost fits = { (refl, refl) };
}

/// Decodes the fields, first to last. The errors are those that [`Sequence`] lists.
impl<'a, R: Lends<Borrowed = &'a [u8]>> DecodeValue<R> for SignedMessage<'a> {
    type Error = Error;

    ghost decode_value_answers = { λ h s result t.
        ⟦<SignedMessageFields<'a> as Decode<SliceReader<'a>>>⟧.decode_answers s (map_ok
        ⟦<SignedMessage<'a> as FromFields<SignedMessageFields<'a>>>⟧.fields result) t };

    fn decode_value(alloc: Global, reader: &mut R, header: Header) -> Result<Self, Error>
    where
        R: Reader,
    {
        decode_sequence::<R, SignedMessageFields<'a>, Self>(alloc, reader, header)
    }
}

impl<'a> IsValue for SignedMessage<'a> {
    fn is_value(&self) {
        self.content_type.is_value();
        self.content.is_value();
    }
}

/// Writes the fields, first to last. The errors are those that [`Sequence`] lists.
impl<'a> HasFields for SignedMessage<'a> {
    ghost fields_size = { λ v. ⟦<SignedMessageFields<'a> as Encode>⟧.size
        (⟦<SignedMessage<'a> as FromFields<SignedMessageFields<'a>>>⟧.fields v) };

    ghost fields_answers = { λ v. ⟦<SignedMessageFields<'a> as Encode>⟧.encode_answers
        (⟦<SignedMessage<'a> as FromFields<SignedMessageFields<'a>>>⟧.fields v) };

    fn call_fields<S, C: FieldsCall<S>>(
        &self,
        call: &C,
        state: &mut S,
        buf: &mut [u8],
    ) -> C::Output {
        call.call(&field_refs!(self, (content_type, content)), state, buf)
    }
}

impl<'a> Item for SignedMessage<'a> {
    ghost item = { sequence_item ⟦<SignedMessage<'a> as Described>⟧.element };
}

impl<'a> LawfulItem for SignedMessage<'a> {
    ghost is_lawful_item = { is_lawful_item ⟦<SignedMessage<'a> as Described>⟧.element refl };
}
