//! Written by asn1_compile from the module Parcels: change the module instead.
//!
//! Text.
ghost use Rattle.std.specs.Prelude.{◌↔◌, IsTrue, false};
ghost use Rattle.std.proofs.Common.{refl};
ghost use Rattle.der.specs.Prelude.{map_ok};
ghost use Rattle.der_asn1.specs.Item.{decodes_same};
ghost use Rattle.der_asn1.specs.Meaning.{alternative, choice_is_item, choice_item, choice_of, either};
ghost use Rattle.der_asn1.specs.declared.fields.either.Either.TheVariants.{First, Second};
ghost use Rattle.example_parcels.specs.declared.asn1.text.Text.TheVariants as variant;

use crate::asn1::text_part1::TextPart1;
use crate::asn1::text_part2::TextPart2;
use der::{Decode, Encode, Error, FromFields, Lends, Length, Reader, SliceReader, Tag, Writer};
use der_asn1::{
    BorrowedItem, Choice, DecodeChoice, DecodeItem, DescribedChoice, Either, Item,
    PrintableStringRef, TeletexStringRef, Utf8StringRef, VisibleStringRef, WrittenItem,
    decode_choice,
};
use std::alloc::Global;

/// A text of one of several string types. UniversalString is left out: the library does not have
/// it.
#[derive(Clone, Copy, Debug, Drop, PartialEq, Eq)]
pub enum Text<'a> {
    /// A text in a PrintableString.
    Printable(PrintableStringRef<'a>),
    /// A text in a UTF8String.
    Utf8(Utf8StringRef<'a>),
    /// A text in a TeletexString.
    Teletex(TeletexStringRef<'a>),
    /// A text in a VisibleString.
    Visible(VisibleStringRef<'a>),
}

// The alternatives, as nested choices of two.
pub(crate) type TextAlternatives<'a> = Either<TextPart1<'a>, TextPart2<'a>>;

impl<'a> FromFields<TextAlternatives<'a>> for Text<'a> {
    ghost fields = { elim [
      | variant.Printable v ↦ First ((record { choice = First (v) }))
      | variant.Utf8 v ↦ First ((record { choice = Second (v) }))
      | variant.Teletex v ↦ Second ((record { choice = First (v) }))
      | variant.Visible v ↦ Second ((record { choice = Second (v) }))
    ] };

    fn from_fields(alternatives: TextAlternatives<'a>) -> Self {
        match alternatives {
            Either::First(
                TextPart1 {
                    choice: Either::First(value),
                },
            ) => Text::Printable(value),
            Either::First(
                TextPart1 {
                    choice: Either::Second(value),
                },
            ) => Text::Utf8(value),
            Either::Second(
                TextPart2 {
                    choice: Either::First(value),
                },
            ) => Text::Teletex(value),
            Either::Second(
                TextPart2 {
                    choice: Either::Second(value),
                },
            ) => Text::Visible(value),
        }
    }
}

impl<'a> DescribedChoice for Text<'a> {
    ghost alternative = { choice_of (either ⟦<TextPart1<'a> as DescribedChoice>⟧.alternative
        ⟦<TextPart2<'a> as DescribedChoice>⟧.alternative)
        ⟦<Text<'a> as FromFields<TextAlternatives<'a>>>⟧.fields };
}

/// Decodes the alternative with the next tag. The errors are those of decoding an [`Either`].
impl<'a, R: Lends<Borrowed = &'a [u8]>> Decode<R> for Text<'a> {
    type Error = Error;

    ghost is_next = { ⟦<Text<'a> as DescribedChoice>⟧.alternative.is_next };

    ghost decode_levels = { ⟦<Text<'a> as DescribedChoice>⟧.alternative.levels };

    ghost allocates = { false };

    ghost decode_answers = { λ s result t.
        ⟦<TextAlternatives<'a> as Decode<SliceReader<'a>>>⟧.decode_answers s
        (map_ok ⟦<Text<'a> as FromFields<TextAlternatives<'a>>>⟧.fields result) t };

    fn decode(alloc: Global, reader: &mut R) -> Result<Self, Error>
    where
        R: Reader,
    {
        decode_choice::<R, TextAlternatives<'a>, Self>(alloc, reader)
    }
}

impl<'a> Choice for Text<'a> {
    ghost chooses = { ⟦<Text<'a> as DescribedChoice>⟧.alternative.tags };

    fn can_decode(tag: Tag) -> bool
        ensures { IsTrue result ↔ ⟦<Text<'a> as DescribedChoice>⟧.alternative.tags tag }
    {
        <TextAlternatives<'a> as Choice>::can_decode(tag)
    }
}

impl<'a, R: Lends<Borrowed = &'a [u8]>> DecodeChoice<R> for Text<'a> {
    ghost begins = { ⟦<Text<'a> as DescribedChoice>⟧.alternative.begins };
}

/// Writes the alternative that the value has. The errors are those of writing it.
impl<'a> Encode for Text<'a> {
    ghost encoding = { λ v. ⟦<TextAlternatives<'a> as Encode>⟧.encoding
        (⟦<Text<'a> as FromFields<TextAlternatives<'a>>>⟧.fields v) };

    ghost encodable = { λ v. ⟦<TextAlternatives<'a> as Encode>⟧.encodable
        (⟦<Text<'a> as FromFields<TextAlternatives<'a>>>⟧.fields v) };

    ghost size = { λ v. ⟦<TextAlternatives<'a> as Encode>⟧.size
        (⟦<Text<'a> as FromFields<TextAlternatives<'a>>>⟧.fields v) };

    ghost encode_answers = { λ v. ⟦<TextAlternatives<'a> as Encode>⟧.encode_answers
        (⟦<Text<'a> as FromFields<TextAlternatives<'a>>>⟧.fields v) };

    fn encoded_len(&self) -> Result<Length, Error> {
        match self {
            Text::Printable(value) => value.encoded_len(),
            Text::Utf8(value) => value.encoded_len(),
            Text::Teletex(value) => value.encoded_len(),
            Text::Visible(value) => value.encoded_len(),
        }
    }

    fn encode<W: Writer>(&self, writer: &mut W) -> Result<(), Error> {
        match self {
            Text::Printable(value) => value.encode(writer),
            Text::Utf8(value) => value.encode(writer),
            Text::Teletex(value) => value.encode(writer),
            Text::Visible(value) => value.encode(writer),
        }
    }

    fn len_before(&self) -> Option<u32> {
        match self {
            Text::Printable(value) => value.len_before(),
            Text::Utf8(value) => value.len_before(),
            Text::Teletex(value) => value.len_before(),
            Text::Visible(value) => value.len_before(),
        }
    }

    fn encode_before(&self, buf: &mut [u8], end: u32) -> u32 {
        match self {
            Text::Printable(value) => value.encode_before(buf, end),
            Text::Utf8(value) => value.encode_before(buf, end),
            Text::Teletex(value) => value.encode_before(buf, end),
            Text::Visible(value) => value.encode_before(buf, end),
        }
    }
}

impl<'a> Item for Text<'a> {
    ghost item = { choice_item ⟦<Text<'a> as DescribedChoice>⟧.alternative };
}

impl<'a, R: Lends<Borrowed = &'a [u8]>> DecodeItem<R> for Text<'a> {
    ghost is_item = { choice_is_item ⟦<Text<'a> as DescribedChoice>⟧.alternative refl };

    ghost decodes_items = { decodes_same (choice_item
        ⟦<Text<'a> as DescribedChoice>⟧.alternative) };
}

impl<'a> BorrowedItem for Text<'a> {
    ghost borrowed = { refl };
}

impl<'a> WrittenItem for Text<'a> {
    ghost written = { λ v. refl };

    ghost writes_valid = { λ v is. is };
}
