//! Written by asn1_compile from the module SNMPv2-PDU: change the module instead.
//!
//! Message.
ghost use Rattle.std.specs.Prelude.{◌≡◌};
ghost use Rattle.std.proofs.Common.{refl};
ghost use Rattle.der.specs.Prelude.{map_ok};
ghost use Rattle.der_asn1.specs.Meaning.{alternative, any_element, field, is_lawful_item, sequence, sequence_item};
ghost use Rattle.der_asn1.specs.TupleFields.{three_fields};

use der::{
    Decode, DecodeValue, Encode, Error, FieldsCall, FromFields, HasFields, Header, IsValue, Lends,
    Reader, Sequence, SliceReader, decode_sequence, field_refs,
};
use der_asn1::{AnyRef, Described, IntRef, Item, LawfulItem, OctetStringRef};
use std::alloc::Global;

/// A message of SNMPv1 or SNMPv2c (RFC 1157, 4).
#[derive(Clone, Copy, Debug, Drop, PartialEq, Eq)]
pub struct Message<'a> {
    /// The version: 0 for SNMPv1, and 1 for SNMPv2c (RFC 1901). Decoding does not check this.
    pub version: IntRef<'a>,
    /// The name of the community: a group of managers and agents.
    pub community: OctetStringRef<'a>,
    /// The contents of the message, mostly one of `PDUs`. Decoding does not check this.
    pub data: AnyRef<'a>,
}

/// The fields of [`Message`] as one type, in the order in which they are encoded.
pub type MessageFields<'a> = (IntRef<'a>, OctetStringRef<'a>, AnyRef<'a>);

impl<'a> FromFields<MessageFields<'a>> for Message<'a> {
    ghost fields = { λ v. (v.version, v.community, v.data) };

    fn from_fields(fields: MessageFields<'a>) -> Self {
        let (version, community, data) = fields;
        Message {
            version,
            community,
            data,
        }
    }
}

impl<'a> Sequence for Message<'a> {
    ghost meaning = { sequence (three_fields (field (alternative
        ⟦<IntRef<'a> as Described>⟧.element)) (field (alternative
        ⟦<OctetStringRef<'a> as Described>⟧.element)) (field any_element))
        ⟦<Message<'a> as FromFields<MessageFields<'a>>>⟧.fields };

    ghost fits = { (refl, refl) };
}

/// Decodes the fields, first to last. The errors are those that [`Sequence`] lists.
impl<'a, R: Lends<Borrowed = &'a [u8]>> DecodeValue<R> for Message<'a> {
    type Error = Error;

    ghost decode_value_answers = { λ h s result t.
        ⟦<MessageFields<'a> as Decode<SliceReader<'a>>>⟧.decode_answers s (map_ok
        ⟦<Message<'a> as FromFields<MessageFields<'a>>>⟧.fields result) t };

    fn decode_value(alloc: Global, reader: &mut R, header: Header) -> Result<Self, Error>
    where
        R: Reader,
    {
        decode_sequence::<R, MessageFields<'a>, Self>(alloc, reader, header)
    }
}

impl<'a> IsValue for Message<'a> {
    fn is_value(&self) {
        self.version.is_value();
        self.community.is_value();
        self.data.is_value();
    }
}

/// Writes the fields, first to last. The errors are those that [`Sequence`] lists.
impl<'a> HasFields for Message<'a> {
    ghost fields_size = { λ v. ⟦<MessageFields<'a> as Encode>⟧.size
        (⟦<Message<'a> as FromFields<MessageFields<'a>>>⟧.fields v) };

    ghost fields_answers = { λ v. ⟦<MessageFields<'a> as Encode>⟧.encode_answers
        (⟦<Message<'a> as FromFields<MessageFields<'a>>>⟧.fields v) };

    fn call_fields<S, C: FieldsCall<S>>(
        &self,
        call: &C,
        state: &mut S,
        buf: &mut [u8],
    ) -> C::Output {
        call.call(&field_refs!(self, (version, community, data)), state, buf)
    }
}

impl<'a> Item for Message<'a> {
    ghost item = { sequence_item ⟦<Message<'a> as Described>⟧.element };
}

impl<'a> LawfulItem for Message<'a> {
    ghost is_lawful_item = { is_lawful_item ⟦<Message<'a> as Described>⟧.element refl };
}
