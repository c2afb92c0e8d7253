//! Written by asn1_compile from the module Parcels: change the module instead.
//!
//! Delivery.
ghost use Rattle.std.specs.Prelude.{◌≡◌, false};
ghost use Rattle.std.proofs.Common.{refl};
ghost use Rattle.der.specs.Prelude.{Set, map_ok};
ghost use Rattle.der_asn1.specs.Meaning.{is_lawful_item, renamed, sequence_item};

use crate::asn1::parcel::Parcel;
use der::{
    DecodeValue, EncodeValue, Error, FixedTag, FromFields, Header, IsValue, Lawful, Lends, Length,
    ReadValue, Reader, SliceReader, Tag, Writer, WrittenValue, decode_wrapped,
};
use der_asn1::{Described, Item, LawfulItem, SetOf};
use std::alloc::Global;

/// The parcels that one car brings, in ascending order of their encodings.
#[derive(Clone, Copy, Debug, Drop, PartialEq, Eq)]
pub struct Delivery<'a> {
    /// The items, as a SET OF.
    pub items: SetOf<'a, Parcel<'a>>,
}

// The list of which the value consists.
type Items<'a> = SetOf<'a, Parcel<'a>>;

impl<'a> FromFields<Items<'a>> for Delivery<'a> {
    ghost fields = { λ v. v.items };

    fn from_fields(items: Items<'a>) -> Self {
        Delivery { items }
    }
}

impl<'a> Described for Delivery<'a> {
    ghost element = { renamed ⟦<Items<'a> as Described>⟧.element (λ v. v.items) };
}

impl<'a> FixedTag for Delivery<'a> {
    ghost tag_is = { Set };

    const TAG: Tag = Tag::Set;

    fn fixed_tag() -> Tag
        ensures { result ≡ Set }
    {
        Tag::Set
    }
}

impl<'a> ReadValue for Delivery<'a> {
    ghost valid = { ⟦<Delivery<'a> as Described>⟧.element.valid };

    ghost takes = { ⟦<Delivery<'a> as Described>⟧.element.takes };

    ghost value_levels = { ⟦<Delivery<'a> as Described>⟧.element.levels };

    ghost allocates = { false };

    ghost takes_valid = { ⟦<Delivery<'a> as Described>⟧.element.holds refl };
}

impl<'a> WrittenValue for Delivery<'a> {
    ghost contents = { ⟦<Delivery<'a> as Described>⟧.element.contents };

    ghost writable = { ⟦<Delivery<'a> as Described>⟧.element.valid };
}

impl<'a> Lawful for Delivery<'a> {
    ghost lawful = { ⟦<Delivery<'a> as Described>⟧.element.lawful refl };
}

/// Decodes the list. The errors are those of decoding a [`SetOf`].
impl<'a, R: Lends<Borrowed = &'a [u8]>> DecodeValue<R> for Delivery<'a> {
    type Error = Error;

    ghost decode_value_answers = { λ h s result t.
        ⟦<Items<'a> as DecodeValue<SliceReader<'a>>>⟧.decode_value_answers h s
        (map_ok (λ v. v.items) result) t };

    fn decode_value(alloc: Global, reader: &mut R, header: Header) -> Result<Self, Error>
    where
        R: Reader,
    {
        decode_wrapped::<R, Items<'a>, Self>(alloc, reader, header)
    }
}

impl<'a> IsValue for Delivery<'a> {
    fn is_value(&self) {
        self.items.is_value();
    }
}

/// Writes the list. The errors are those of writing a [`SetOf`].
impl<'a> EncodeValue for Delivery<'a> {
    ghost value_size = { λ v. ⟦<Items<'a> as EncodeValue>⟧.value_size v.items };

    ghost encode_value_answers = { λ v. ⟦<Items<'a> as EncodeValue>⟧.encode_value_answers v.items };

    fn value_len(&self) -> Result<Length, Error> {
        self.items.value_len()
    }

    fn encode_value<W: Writer>(&self, writer: &mut W) -> Result<(), Error> {
        self.items.encode_value(writer)
    }

    fn value_len_before(&self) -> Option<u32> {
        self.items.value_len_before()
    }

    fn encode_value_before(&self, buf: &mut [u8], end: u32) -> u32 {
        self.items.encode_value_before(buf, end)
    }
}

impl<'a> Item for Delivery<'a> {
    ghost item = { sequence_item ⟦<Delivery<'a> as Described>⟧.element };
}

impl<'a> LawfulItem for Delivery<'a> {
    ghost is_lawful_item = { is_lawful_item ⟦<Delivery<'a> as Described>⟧.element refl };
}
