//! Written by asn1_compile from the module CMS: change the module instead.
//!
//! CertificateSet.
ghost use Rattle.std.specs.Prelude.{◌≡◌, false};
ghost use Rattle.std.proofs.Common.{refl};
ghost use Rattle.der.specs.Prelude.{Set, map_ok};
ghost use Rattle.der_asn1.specs.Meaning.{is_lawful_item, renamed, sequence_item};

use crate::asn1::certificate_choices::CertificateChoices;
use der::{
    DecodeValue, EncodeValue, Error, FixedTag, FromFields, Header, IsValue, Lawful, Lends, Length,
    ReadValue, Reader, SliceReader, Tag, Writer, WrittenValue, decode_wrapped,
};
use der_asn1::{Described, Item, LawfulItem, SetOf};
use std::alloc::Global;

/// Certificates (RFC 5652, 10.2.3), in ascending order of their encodings.
#[derive(Clone, Copy, Debug, Drop, PartialEq, Eq)]
pub struct CertificateSet<'a> {
    /// The items, as a SET OF.
    pub items: SetOf<'a, CertificateChoices<'a>>,
}

// The list of which the value consists.
type Items<'a> = SetOf<'a, CertificateChoices<'a>>;

impl<'a> FromFields<Items<'a>> for CertificateSet<'a> {
    ghost fields = { λ v. v.items };

    fn from_fields(items: Items<'a>) -> Self {
        CertificateSet { items }
    }
}

impl<'a> Described for CertificateSet<'a> {
    ghost element = { renamed ⟦<Items<'a> as Described>⟧.element (λ v. v.items) };
}

impl<'a> FixedTag for CertificateSet<'a> {
    ghost tag_is = { Set };

    const TAG: Tag = Tag::Set;

    fn fixed_tag() -> Tag
        ensures { result ≡ Set }
    {
        Tag::Set
    }
}

impl<'a> ReadValue for CertificateSet<'a> {
    ghost valid = { ⟦<CertificateSet<'a> as Described>⟧.element.valid };

    ghost takes = { ⟦<CertificateSet<'a> as Described>⟧.element.takes };

    ghost value_levels = { ⟦<CertificateSet<'a> as Described>⟧.element.levels };

    ghost allocates = { false };

    ghost takes_valid = { ⟦<CertificateSet<'a> as Described>⟧.element.holds refl };
}

impl<'a> WrittenValue for CertificateSet<'a> {
    ghost contents = { ⟦<CertificateSet<'a> as Described>⟧.element.contents };

    ghost writable = { ⟦<CertificateSet<'a> as Described>⟧.element.valid };
}

impl<'a> Lawful for CertificateSet<'a> {
    ghost lawful = { ⟦<CertificateSet<'a> as Described>⟧.element.lawful refl };
}

/// Decodes the list. The errors are those of decoding a [`SetOf`].
impl<'a, R: Lends<Borrowed = &'a [u8]>> DecodeValue<R> for CertificateSet<'a> {
    type Error = Error;

    ghost decode_value_answers = { λ h s result t.
        ⟦<Items<'a> as DecodeValue<SliceReader<'a>>>⟧.decode_value_answers h s
        (map_ok (λ v. v.items) result) t };

    fn decode_value(alloc: Global, reader: &mut R, header: Header) -> Result<Self, Error>
    where
        R: Reader,
    {
        decode_wrapped::<R, Items<'a>, Self>(alloc, reader, header)
    }
}

impl<'a> IsValue for CertificateSet<'a> {
    fn is_value(&self) {
        self.items.is_value();
    }
}

/// Writes the list. The errors are those of writing a [`SetOf`].
impl<'a> EncodeValue for CertificateSet<'a> {
    ghost value_size = { λ v. ⟦<Items<'a> as EncodeValue>⟧.value_size v.items };

    ghost encode_value_answers = { λ v. ⟦<Items<'a> as EncodeValue>⟧.encode_value_answers v.items };

    fn value_len(&self) -> Result<Length, Error> {
        self.items.value_len()
    }

    fn encode_value<W: Writer>(&self, writer: &mut W) -> Result<(), Error> {
        self.items.encode_value(writer)
    }

    fn value_len_before(&self) -> Option<u32> {
        self.items.value_len_before()
    }

    fn encode_value_before(&self, buf: &mut [u8], end: u32) -> u32 {
        self.items.encode_value_before(buf, end)
    }
}

impl<'a> Item for CertificateSet<'a> {
    ghost item = { sequence_item ⟦<CertificateSet<'a> as Described>⟧.element };
}

impl<'a> LawfulItem for CertificateSet<'a> {
    ghost is_lawful_item = { is_lawful_item ⟦<CertificateSet<'a> as Described>⟧.element refl };
}
