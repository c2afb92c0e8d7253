//! Written by asn1_compile from the module X509: change the module instead.
//!
//! DisplayText.
ghost use Rattle.std.specs.Prelude.{◌↔◌, IsTrue, false};
ghost use Rattle.std.proofs.Common.{refl};
ghost use Rattle.der.specs.Prelude.{map_ok};
ghost use Rattle.der_asn1.specs.Item.{decodes_same};
ghost use Rattle.der_asn1.specs.Meaning.{alternative, choice_is_item, choice_item, choice_of, either};
ghost use Rattle.der_asn1.specs.declared.fields.either.Either.TheVariants.{First, Second};
ghost use Rattle.x509.specs.declared.asn1.display_text.DisplayText.TheVariants as variant;

use crate::asn1::display_text_part1::DisplayTextPart1;
use crate::asn1::display_text_part2::DisplayTextPart2;
use der::{Decode, Encode, Error, FromFields, Lends, Length, Reader, SliceReader, Tag, Writer};
use der_asn1::{
    BmpStringRef, BorrowedItem, Choice, DecodeChoice, DecodeItem, DescribedChoice, Either,
    Ia5StringRef, Item, Utf8StringRef, VisibleStringRef, WrittenItem, decode_choice,
};
use std::alloc::Global;

/// A text of a notice (RFC 5280, 4.2.1.4), borrowed from the input. That it has 1 to 200 characters
/// is not checked.
#[derive(Clone, Copy, Debug, Drop, PartialEq, Eq)]
pub enum DisplayText<'a> {
    /// The alternative `ia5String`.
    Ia5String(Ia5StringRef<'a>),
    /// The alternative `visibleString`.
    VisibleString(VisibleStringRef<'a>),
    /// The alternative `bmpString`.
    BmpString(BmpStringRef<'a>),
    /// The alternative `utf8String`.
    Utf8String(Utf8StringRef<'a>),
}

// The alternatives, as nested choices of two.
pub(crate) type DisplayTextAlternatives<'a> = Either<DisplayTextPart1<'a>, DisplayTextPart2<'a>>;

impl<'a> FromFields<DisplayTextAlternatives<'a>> for DisplayText<'a> {
    ghost fields = { elim [
      | variant.Ia5String v ↦ First ((record { choice = First (v) }))
      | variant.VisibleString v ↦ First ((record { choice = Second (v) }))
      | variant.BmpString v ↦ Second ((record { choice = First (v) }))
      | variant.Utf8String v ↦ Second ((record { choice = Second (v) }))
    ] };

    fn from_fields(alternatives: DisplayTextAlternatives<'a>) -> Self {
        match alternatives {
            Either::First(
                DisplayTextPart1 {
                    choice: Either::First(value),
                },
            ) => DisplayText::Ia5String(value),
            Either::First(
                DisplayTextPart1 {
                    choice: Either::Second(value),
                },
            ) => DisplayText::VisibleString(value),
            Either::Second(
                DisplayTextPart2 {
                    choice: Either::First(value),
                },
            ) => DisplayText::BmpString(value),
            Either::Second(
                DisplayTextPart2 {
                    choice: Either::Second(value),
                },
            ) => DisplayText::Utf8String(value),
        }
    }
}

impl<'a> DescribedChoice for DisplayText<'a> {
    ghost alternative = { choice_of (either ⟦<DisplayTextPart1<'a> as DescribedChoice>⟧.alternative
        ⟦<DisplayTextPart2<'a> as DescribedChoice>⟧.alternative)
        ⟦<DisplayText<'a> as FromFields<DisplayTextAlternatives<'a>>>⟧.fields };
}

/// Decodes the alternative with the next tag. The errors are those of decoding an [`Either`].
impl<'a, R: Lends<Borrowed = &'a [u8]>> Decode<R> for DisplayText<'a> {
    type Error = Error;

    ghost is_next = { ⟦<DisplayText<'a> as DescribedChoice>⟧.alternative.is_next };

    ghost decode_levels = { ⟦<DisplayText<'a> as DescribedChoice>⟧.alternative.levels };

    ghost allocates = { false };

    ghost decode_answers = { λ s result t.
        ⟦<DisplayTextAlternatives<'a> as Decode<SliceReader<'a>>>⟧.decode_answers s
        (map_ok ⟦<DisplayText<'a> as FromFields<DisplayTextAlternatives<'a>>>⟧.fields result) t };

    fn decode(alloc: Global, reader: &mut R) -> Result<Self, Error>
    where
        R: Reader,
    {
        decode_choice::<R, DisplayTextAlternatives<'a>, Self>(alloc, reader)
    }
}

impl<'a> Choice for DisplayText<'a> {
    ghost chooses = { ⟦<DisplayText<'a> as DescribedChoice>⟧.alternative.tags };

    fn can_decode(tag: Tag) -> bool
        ensures { IsTrue result ↔ ⟦<DisplayText<'a> as DescribedChoice>⟧.alternative.tags tag }
    {
        <DisplayTextAlternatives<'a> as Choice>::can_decode(tag)
    }
}

impl<'a, R: Lends<Borrowed = &'a [u8]>> DecodeChoice<R> for DisplayText<'a> {
    ghost begins = { ⟦<DisplayText<'a> as DescribedChoice>⟧.alternative.begins };
}

/// Writes the alternative that the value has. The errors are those of writing it.
impl<'a> Encode for DisplayText<'a> {
    ghost encoding = { λ v. ⟦<DisplayTextAlternatives<'a> as Encode>⟧.encoding
        (⟦<DisplayText<'a> as FromFields<DisplayTextAlternatives<'a>>>⟧.fields v) };

    ghost encodable = { λ v. ⟦<DisplayTextAlternatives<'a> as Encode>⟧.encodable
        (⟦<DisplayText<'a> as FromFields<DisplayTextAlternatives<'a>>>⟧.fields v) };

    ghost size = { λ v. ⟦<DisplayTextAlternatives<'a> as Encode>⟧.size
        (⟦<DisplayText<'a> as FromFields<DisplayTextAlternatives<'a>>>⟧.fields v) };

    ghost encode_answers = { λ v. ⟦<DisplayTextAlternatives<'a> as Encode>⟧.encode_answers
        (⟦<DisplayText<'a> as FromFields<DisplayTextAlternatives<'a>>>⟧.fields v) };

    fn encoded_len(&self) -> Result<Length, Error> {
        match self {
            DisplayText::Ia5String(value) => value.encoded_len(),
            DisplayText::VisibleString(value) => value.encoded_len(),
            DisplayText::BmpString(value) => value.encoded_len(),
            DisplayText::Utf8String(value) => value.encoded_len(),
        }
    }

    fn encode<W: Writer>(&self, writer: &mut W) -> Result<(), Error> {
        match self {
            DisplayText::Ia5String(value) => value.encode(writer),
            DisplayText::VisibleString(value) => value.encode(writer),
            DisplayText::BmpString(value) => value.encode(writer),
            DisplayText::Utf8String(value) => value.encode(writer),
        }
    }

    fn len_before(&self) -> Option<u32> {
        match self {
            DisplayText::Ia5String(value) => value.len_before(),
            DisplayText::VisibleString(value) => value.len_before(),
            DisplayText::BmpString(value) => value.len_before(),
            DisplayText::Utf8String(value) => value.len_before(),
        }
    }

    fn encode_before(&self, buf: &mut [u8], end: u32) -> u32 {
        match self {
            DisplayText::Ia5String(value) => value.encode_before(buf, end),
            DisplayText::VisibleString(value) => value.encode_before(buf, end),
            DisplayText::BmpString(value) => value.encode_before(buf, end),
            DisplayText::Utf8String(value) => value.encode_before(buf, end),
        }
    }
}

impl<'a> Item for DisplayText<'a> {
    ghost item = { choice_item ⟦<DisplayText<'a> as DescribedChoice>⟧.alternative };
}

impl<'a, R: Lends<Borrowed = &'a [u8]>> DecodeItem<R> for DisplayText<'a> {
    ghost is_item = { choice_is_item ⟦<DisplayText<'a> as DescribedChoice>⟧.alternative refl };

    ghost decodes_items = { decodes_same (choice_item
        ⟦<DisplayText<'a> as DescribedChoice>⟧.alternative) };
}

impl<'a> BorrowedItem for DisplayText<'a> {
    ghost borrowed = { refl };
}

impl<'a> WrittenItem for DisplayText<'a> {
    ghost written = { λ v. refl };

    ghost writes_valid = { λ v is. is };
}
