//! Written by asn1_compile from the module CMS: change the module instead.
//!
//! MessageImprint.
ghost use Rattle.std.specs.Prelude.{◌≡◌};
ghost use Rattle.std.proofs.Common.{refl};
ghost use Rattle.der.specs.Prelude.{map_ok};
ghost use Rattle.der_asn1.specs.Meaning.{alternative, field, is_lawful_item, sequence, sequence_item, two_fields};

use der::{
    Decode, DecodeValue, Encode, Error, FieldsCall, FromFields, HasFields, Header, IsValue, Lends,
    Reader, Sequence, SliceReader, decode_sequence, field_refs,
};
use der_asn1::{Described, Item, LawfulItem, OctetStringRef};
use spki::AlgorithmIdentifierRef;
use std::alloc::Global;

/// A digest with its algorithm (RFC 3161, 2.4.1), borrowed from the input.
#[derive(Clone, Copy, Debug, Drop, PartialEq, Eq)]
pub struct MessageImprint<'a> {
    /// The algorithm of the digest.
    pub hash_algorithm: AlgorithmIdentifierRef<'a>,
    /// The octets of the digest. Their number is not checked.
    pub hashed_message: OctetStringRef<'a>,
}

/// The fields of [`MessageImprint`] as one type, in the order in which they are encoded.
pub type MessageImprintFields<'a> = (AlgorithmIdentifierRef<'a>, OctetStringRef<'a>);

impl<'a> FromFields<MessageImprintFields<'a>> for MessageImprint<'a> {
    ghost fields = { λ v. (v.hash_algorithm, v.hashed_message) };

    fn from_fields(fields: MessageImprintFields<'a>) -> Self {
        let (hash_algorithm, hashed_message) = fields;
        MessageImprint {
            hash_algorithm,
            hashed_message,
        }
    }
}

impl<'a> Sequence for MessageImprint<'a> {
    ghost meaning = { sequence (two_fields (field (alternative
        ⟦<AlgorithmIdentifierRef<'a> as Described>⟧.element)) (field (alternative
        ⟦<OctetStringRef<'a> as Described>⟧.element)))
        ⟦<MessageImprint<'a> as FromFields<MessageImprintFields<'a>>>⟧.fields };

    ghost fits = { (refl, refl) };
}

/// Decodes the fields, first to last. The errors are those that [`Sequence`] lists.
impl<'a, R: Lends<Borrowed = &'a [u8]>> DecodeValue<R> for MessageImprint<'a> {
    type Error = Error;

    ghost decode_value_answers = { λ h s result t.
        ⟦<MessageImprintFields<'a> as Decode<SliceReader<'a>>>⟧.decode_answers s (map_ok
        ⟦<MessageImprint<'a> as FromFields<MessageImprintFields<'a>>>⟧.fields result) t };

    fn decode_value(alloc: Global, reader: &mut R, header: Header) -> Result<Self, Error>
    where
        R: Reader,
    {
        decode_sequence::<R, MessageImprintFields<'a>, Self>(alloc, reader, header)
    }
}

impl<'a> IsValue for MessageImprint<'a> {
    fn is_value(&self) {
        self.hash_algorithm.is_value();
        self.hashed_message.is_value();
    }
}

/// Writes the fields, first to last. The errors are those that [`Sequence`] lists.
impl<'a> HasFields for MessageImprint<'a> {
    ghost fields_size = { λ v. ⟦<MessageImprintFields<'a> as Encode>⟧.size
        (⟦<MessageImprint<'a> as FromFields<MessageImprintFields<'a>>>⟧.fields v) };

    ghost fields_answers = { λ v. ⟦<MessageImprintFields<'a> as Encode>⟧.encode_answers
        (⟦<MessageImprint<'a> as FromFields<MessageImprintFields<'a>>>⟧.fields v) };

    fn call_fields<S, C: FieldsCall<S>>(
        &self,
        call: &C,
        state: &mut S,
        buf: &mut [u8],
    ) -> C::Output {
        call.call(
            &field_refs!(self, (hash_algorithm, hashed_message)),
            state,
            buf,
        )
    }
}

impl<'a> Item for MessageImprint<'a> {
    ghost item = { sequence_item ⟦<MessageImprint<'a> as Described>⟧.element };
}

impl<'a> LawfulItem for MessageImprint<'a> {
    ghost is_lawful_item = { is_lawful_item ⟦<MessageImprint<'a> as Described>⟧.element refl };
}
