//! Written by asn1_compile from the module CMS: change the module instead.
//!
//! AuthAttributes.
ghost use Rattle.std.specs.Prelude.{◌≡◌, false};
ghost use Rattle.std.proofs.Common.{refl};
ghost use Rattle.der.specs.Prelude.{Set, map_ok};
ghost use Rattle.der_asn1.specs.Meaning.{is_lawful_item, renamed, sequence_item};

use der::{
    DecodeValue, EncodeValue, Error, FixedTag, FromFields, Header, IsValue, Lawful, Lends, Length,
    ReadValue, Reader, SliceReader, Tag, Writer, WrittenValue, decode_wrapped,
};
use der_asn1::{Described, Item, LawfulItem, SetOf};
use std::alloc::Global;
use x509::Attribute;

/// Attributes of a message with a message authentication code (RFC 5652, 9.1), in ascending order
/// of their encodings.
#[derive(Clone, Copy, Debug, Drop, PartialEq, Eq)]
pub struct AuthAttributes<'a> {
    /// The items, as a SET OF.
    pub items: SetOf<'a, Attribute<'a>>,
}

// The list of which the value consists.
type Items<'a> = SetOf<'a, Attribute<'a>>;

impl<'a> FromFields<Items<'a>> for AuthAttributes<'a> {
    ghost fields = { λ v. v.items };

    fn from_fields(items: Items<'a>) -> Self {
        AuthAttributes { items }
    }
}

impl<'a> Described for AuthAttributes<'a> {
    ghost element = { renamed ⟦<Items<'a> as Described>⟧.element (λ v. v.items) };
}

impl<'a> FixedTag for AuthAttributes<'a> {
    ghost tag_is = { Set };

    const TAG: Tag = Tag::Set;

    fn fixed_tag() -> Tag
        ensures { result ≡ Set }
    {
        Tag::Set
    }
}

impl<'a> ReadValue for AuthAttributes<'a> {
    ghost valid = { ⟦<AuthAttributes<'a> as Described>⟧.element.valid };

    ghost takes = { ⟦<AuthAttributes<'a> as Described>⟧.element.takes };

    ghost value_levels = { ⟦<AuthAttributes<'a> as Described>⟧.element.levels };

    ghost allocates = { false };

    ghost takes_valid = { ⟦<AuthAttributes<'a> as Described>⟧.element.holds refl };
}

impl<'a> WrittenValue for AuthAttributes<'a> {
    ghost contents = { ⟦<AuthAttributes<'a> as Described>⟧.element.contents };

    ghost writable = { ⟦<AuthAttributes<'a> as Described>⟧.element.valid };
}

impl<'a> Lawful for AuthAttributes<'a> {
    ghost lawful = { ⟦<AuthAttributes<'a> as Described>⟧.element.lawful refl };
}

/// Decodes the list. The errors are those of decoding a [`SetOf`].
impl<'a, R: Lends<Borrowed = &'a [u8]>> DecodeValue<R> for AuthAttributes<'a> {
    type Error = Error;

    ghost decode_value_answers = { λ h s result t.
        ⟦<Items<'a> as DecodeValue<SliceReader<'a>>>⟧.decode_value_answers h s
        (map_ok (λ v. v.items) result) t };

    fn decode_value(alloc: Global, reader: &mut R, header: Header) -> Result<Self, Error>
    where
        R: Reader,
    {
        decode_wrapped::<R, Items<'a>, Self>(alloc, reader, header)
    }
}

impl<'a> IsValue for AuthAttributes<'a> {
    fn is_value(&self) {
        self.items.is_value();
    }
}

/// Writes the list. The errors are those of writing a [`SetOf`].
impl<'a> EncodeValue for AuthAttributes<'a> {
    ghost value_size = { λ v. ⟦<Items<'a> as EncodeValue>⟧.value_size v.items };

    ghost encode_value_answers = { λ v. ⟦<Items<'a> as EncodeValue>⟧.encode_value_answers v.items };

    fn value_len(&self) -> Result<Length, Error> {
        self.items.value_len()
    }

    fn encode_value<W: Writer>(&self, writer: &mut W) -> Result<(), Error> {
        self.items.encode_value(writer)
    }

    fn value_len_before(&self) -> Option<u32> {
        self.items.value_len_before()
    }

    fn encode_value_before(&self, buf: &mut [u8], end: u32) -> u32 {
        self.items.encode_value_before(buf, end)
    }
}

impl<'a> Item for AuthAttributes<'a> {
    ghost item = { sequence_item ⟦<AuthAttributes<'a> as Described>⟧.element };
}

impl<'a> LawfulItem for AuthAttributes<'a> {
    ghost is_lawful_item = { is_lawful_item ⟦<AuthAttributes<'a> as Described>⟧.element refl };
}
