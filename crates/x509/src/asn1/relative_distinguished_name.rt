//! Written by asn1_compile from the module X509: change the module instead.
//!
//! RelativeDistinguishedName.
ghost use Rattle.std.specs.Prelude.{◌≡◌, false};
ghost use Rattle.std.proofs.Common.{refl};
ghost use Rattle.der.specs.Prelude.{Set, map_ok};
ghost use Rattle.der_asn1.specs.Meaning.{is_lawful_item, renamed, sequence_item};

use crate::asn1::attribute_type_and_value::AttributeTypeAndValue;
use der::{
    DecodeValue, EncodeValue, Error, FixedTag, FromFields, Header, IsValue, Lawful, Lends, Length,
    ReadValue, Reader, SliceReader, Tag, Writer, WrittenValue, decode_wrapped,
};
use der_asn1::{Described, Item, LawfulItem, SetOf};
use std::alloc::Global;

/// One level of a name (RFC 5280, 4.1.2.4), borrowed from the input.
#[derive(Clone, Copy, Debug, Drop, PartialEq, Eq)]
pub struct RelativeDistinguishedName<'a> {
    /// The items, as a SET OF.
    pub attributes: SetOf<'a, AttributeTypeAndValue<'a>>,
}

// The list of which the value consists.
type Items<'a> = SetOf<'a, AttributeTypeAndValue<'a>>;

impl<'a> FromFields<Items<'a>> for RelativeDistinguishedName<'a> {
    ghost fields = { λ v. v.attributes };

    fn from_fields(attributes: Items<'a>) -> Self {
        RelativeDistinguishedName { attributes }
    }
}

impl<'a> Described for RelativeDistinguishedName<'a> {
    ghost element = { renamed ⟦<Items<'a> as Described>⟧.element (λ v. v.attributes) };
}

impl<'a> FixedTag for RelativeDistinguishedName<'a> {
    ghost tag_is = { Set };

    const TAG: Tag = Tag::Set;

    fn fixed_tag() -> Tag
        ensures { result ≡ Set }
    {
        Tag::Set
    }
}

impl<'a> ReadValue for RelativeDistinguishedName<'a> {
    ghost valid = { ⟦<RelativeDistinguishedName<'a> as Described>⟧.element.valid };

    ghost takes = { ⟦<RelativeDistinguishedName<'a> as Described>⟧.element.takes };

    ghost value_levels = { ⟦<RelativeDistinguishedName<'a> as Described>⟧.element.levels };

    ghost allocates = { false };

    ghost takes_valid = { ⟦<RelativeDistinguishedName<'a> as Described>⟧.element.holds refl };
}

impl<'a> WrittenValue for RelativeDistinguishedName<'a> {
    ghost contents = { ⟦<RelativeDistinguishedName<'a> as Described>⟧.element.contents };

    ghost writable = { ⟦<RelativeDistinguishedName<'a> as Described>⟧.element.valid };
}

impl<'a> Lawful for RelativeDistinguishedName<'a> {
    ghost lawful = { ⟦<RelativeDistinguishedName<'a> as Described>⟧.element.lawful refl };
}

/// Decodes the list. The errors are those of decoding a [`SetOf`].
impl<'a, R: Lends<Borrowed = &'a [u8]>> DecodeValue<R> for RelativeDistinguishedName<'a> {
    type Error = Error;

    ghost decode_value_answers = { λ h s result t.
        ⟦<Items<'a> as DecodeValue<SliceReader<'a>>>⟧.decode_value_answers h s
        (map_ok (λ v. v.attributes) result) t };

    fn decode_value(alloc: Global, reader: &mut R, header: Header) -> Result<Self, Error>
    where
        R: Reader,
    {
        decode_wrapped::<R, Items<'a>, Self>(alloc, reader, header)
    }
}

impl<'a> IsValue for RelativeDistinguishedName<'a> {
    fn is_value(&self) {
        self.attributes.is_value();
    }
}

/// Writes the list. The errors are those of writing a [`SetOf`].
impl<'a> EncodeValue for RelativeDistinguishedName<'a> {
    ghost value_size = { λ v. ⟦<Items<'a> as EncodeValue>⟧.value_size v.attributes };

    ghost encode_value_answers = { λ v.
        ⟦<Items<'a> as EncodeValue>⟧.encode_value_answers v.attributes };

    fn value_len(&self) -> Result<Length, Error> {
        self.attributes.value_len()
    }

    fn encode_value<W: Writer>(&self, writer: &mut W) -> Result<(), Error> {
        self.attributes.encode_value(writer)
    }

    fn value_len_before(&self) -> Option<u32> {
        self.attributes.value_len_before()
    }

    fn encode_value_before(&self, buf: &mut [u8], end: u32) -> u32 {
        self.attributes.encode_value_before(buf, end)
    }
}

impl<'a> Item for RelativeDistinguishedName<'a> {
    ghost item = { sequence_item ⟦<RelativeDistinguishedName<'a> as Described>⟧.element };
}

impl<'a> LawfulItem for RelativeDistinguishedName<'a> {
    ghost is_lawful_item = { is_lawful_item
        ⟦<RelativeDistinguishedName<'a> as Described>⟧.element refl };
}
