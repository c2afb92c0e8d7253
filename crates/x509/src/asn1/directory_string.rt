//! Written by asn1_compile from the module X509: change the module instead.
//!
//! DirectoryString.
ghost use Rattle.std.specs.Prelude.{◌↔◌, IsTrue, false};
ghost use Rattle.std.proofs.Common.{refl};
ghost use Rattle.der.specs.Prelude.{map_ok};
ghost use Rattle.der_asn1.specs.Item.{decodes_same};
ghost use Rattle.der_asn1.specs.Meaning.{alternative, choice_is_item, choice_item, choice_of, either};
ghost use Rattle.der_asn1.specs.declared.fields.either.Either.TheVariants.{First, Second};
ghost use Rattle.x509.specs.declared.asn1.directory_string.DirectoryString.TheVariants as variant;

use crate::asn1::directory_string_part1::DirectoryStringPart1;
use crate::asn1::directory_string_part2::DirectoryStringPart2;
use der::{Decode, Encode, Error, FromFields, Lends, Length, Reader, SliceReader, Tag, Writer};
use der_asn1::{
    BmpStringRef, BorrowedItem, Choice, DecodeChoice, DecodeItem, DescribedChoice, Either, Item,
    PrintableStringRef, TeletexStringRef, Utf8StringRef, WrittenItem, decode_choice,
};
use std::alloc::Global;

/// A text of a name (RFC 5280, 4.1.2.4), borrowed from the input. The library has no
/// UniversalString, which is left out. That the text is not empty is not checked.
#[derive(Clone, Copy, Debug, Drop, PartialEq, Eq)]
pub enum DirectoryString<'a> {
    /// The alternative `teletexString`.
    TeletexString(TeletexStringRef<'a>),
    /// The alternative `printableString`.
    PrintableString(PrintableStringRef<'a>),
    /// The alternative `utf8String`.
    Utf8String(Utf8StringRef<'a>),
    /// The alternative `bmpString`.
    BmpString(BmpStringRef<'a>),
}

// The alternatives, as nested choices of two.
pub(crate) type DirectoryStringAlternatives<'a> = Either<
    DirectoryStringPart1<'a>,
    DirectoryStringPart2<'a>,
>;

impl<'a> FromFields<DirectoryStringAlternatives<'a>> for DirectoryString<'a> {
    ghost fields = { elim [
      | variant.TeletexString v ↦ First ((record { choice = First (v) }))
      | variant.PrintableString v ↦ First ((record { choice = Second (v) }))
      | variant.Utf8String v ↦ Second ((record { choice = First (v) }))
      | variant.BmpString v ↦ Second ((record { choice = Second (v) }))
    ] };

    fn from_fields(alternatives: DirectoryStringAlternatives<'a>) -> Self {
        match alternatives {
            Either::First(
                DirectoryStringPart1 {
                    choice: Either::First(value),
                },
            ) => DirectoryString::TeletexString(value),
            Either::First(
                DirectoryStringPart1 {
                    choice: Either::Second(value),
                },
            ) => DirectoryString::PrintableString(value),
            Either::Second(
                DirectoryStringPart2 {
                    choice: Either::First(value),
                },
            ) => DirectoryString::Utf8String(value),
            Either::Second(
                DirectoryStringPart2 {
                    choice: Either::Second(value),
                },
            ) => DirectoryString::BmpString(value),
        }
    }
}

impl<'a> DescribedChoice for DirectoryString<'a> {
    ghost alternative = { choice_of (either
        ⟦<DirectoryStringPart1<'a> as DescribedChoice>⟧.alternative
        ⟦<DirectoryStringPart2<'a> as DescribedChoice>⟧.alternative)
        ⟦<DirectoryString<'a> as FromFields<DirectoryStringAlternatives<'a>>>⟧.fields };
}

/// Decodes the alternative with the next tag. The errors are those of decoding an [`Either`].
impl<'a, R: Lends<Borrowed = &'a [u8]>> Decode<R> for DirectoryString<'a> {
    type Error = Error;

    ghost is_next = { ⟦<DirectoryString<'a> as DescribedChoice>⟧.alternative.is_next };

    ghost decode_levels = { ⟦<DirectoryString<'a> as DescribedChoice>⟧.alternative.levels };

    ghost allocates = { false };

    ghost decode_answers = { λ s result t.
        ⟦<DirectoryStringAlternatives<'a> as Decode<SliceReader<'a>>>⟧.decode_answers s
        (map_ok ⟦<DirectoryString<'a> as FromFields<DirectoryStringAlternatives<'a>>>⟧.fields result) t };

    fn decode(alloc: Global, reader: &mut R) -> Result<Self, Error>
    where
        R: Reader,
    {
        decode_choice::<R, DirectoryStringAlternatives<'a>, Self>(alloc, reader)
    }
}

impl<'a> Choice for DirectoryString<'a> {
    ghost chooses = { ⟦<DirectoryString<'a> as DescribedChoice>⟧.alternative.tags };

    fn can_decode(tag: Tag) -> bool
        ensures { IsTrue result ↔ ⟦<DirectoryString<'a> as DescribedChoice>⟧.alternative.tags tag }
    {
        <DirectoryStringAlternatives<'a> as Choice>::can_decode(tag)
    }
}

impl<'a, R: Lends<Borrowed = &'a [u8]>> DecodeChoice<R> for DirectoryString<'a> {
    ghost begins = { ⟦<DirectoryString<'a> as DescribedChoice>⟧.alternative.begins };
}

/// Writes the alternative that the value has. The errors are those of writing it.
impl<'a> Encode for DirectoryString<'a> {
    ghost encoding = { λ v. ⟦<DirectoryStringAlternatives<'a> as Encode>⟧.encoding
        (⟦<DirectoryString<'a> as FromFields<DirectoryStringAlternatives<'a>>>⟧.fields v) };

    ghost encodable = { λ v. ⟦<DirectoryStringAlternatives<'a> as Encode>⟧.encodable
        (⟦<DirectoryString<'a> as FromFields<DirectoryStringAlternatives<'a>>>⟧.fields v) };

    ghost size = { λ v. ⟦<DirectoryStringAlternatives<'a> as Encode>⟧.size
        (⟦<DirectoryString<'a> as FromFields<DirectoryStringAlternatives<'a>>>⟧.fields v) };

    ghost encode_answers = { λ v. ⟦<DirectoryStringAlternatives<'a> as Encode>⟧.encode_answers
        (⟦<DirectoryString<'a> as FromFields<DirectoryStringAlternatives<'a>>>⟧.fields v) };

    fn encoded_len(&self) -> Result<Length, Error> {
        match self {
            DirectoryString::TeletexString(value) => value.encoded_len(),
            DirectoryString::PrintableString(value) => value.encoded_len(),
            DirectoryString::Utf8String(value) => value.encoded_len(),
            DirectoryString::BmpString(value) => value.encoded_len(),
        }
    }

    fn encode<W: Writer>(&self, writer: &mut W) -> Result<(), Error> {
        match self {
            DirectoryString::TeletexString(value) => value.encode(writer),
            DirectoryString::PrintableString(value) => value.encode(writer),
            DirectoryString::Utf8String(value) => value.encode(writer),
            DirectoryString::BmpString(value) => value.encode(writer),
        }
    }

    fn len_before(&self) -> Option<u32> {
        match self {
            DirectoryString::TeletexString(value) => value.len_before(),
            DirectoryString::PrintableString(value) => value.len_before(),
            DirectoryString::Utf8String(value) => value.len_before(),
            DirectoryString::BmpString(value) => value.len_before(),
        }
    }

    fn encode_before(&self, buf: &mut [u8], end: u32) -> u32 {
        match self {
            DirectoryString::TeletexString(value) => value.encode_before(buf, end),
            DirectoryString::PrintableString(value) => value.encode_before(buf, end),
            DirectoryString::Utf8String(value) => value.encode_before(buf, end),
            DirectoryString::BmpString(value) => value.encode_before(buf, end),
        }
    }
}

impl<'a> Item for DirectoryString<'a> {
    ghost item = { choice_item ⟦<DirectoryString<'a> as DescribedChoice>⟧.alternative };
}

impl<'a, R: Lends<Borrowed = &'a [u8]>> DecodeItem<R> for DirectoryString<'a> {
    ghost is_item = { choice_is_item ⟦<DirectoryString<'a> as DescribedChoice>⟧.alternative refl };

    ghost decodes_items = { decodes_same (choice_item
        ⟦<DirectoryString<'a> as DescribedChoice>⟧.alternative) };
}

impl<'a> BorrowedItem for DirectoryString<'a> {
    ghost borrowed = { refl };
}

impl<'a> WrittenItem for DirectoryString<'a> {
    ghost written = { λ v. refl };

    ghost writes_valid = { λ v is. is };
}
