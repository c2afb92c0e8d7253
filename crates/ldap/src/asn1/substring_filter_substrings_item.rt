//! Written by asn1_compile from the module Lightweight-Directory-Access-Protocol-V3: change the module instead.
//!
//! SubstringFilterSubstringsItem.
ghost use Rattle.std.specs.Prelude.{◌↔◌, IsTrue, false};
ghost use Rattle.std.proofs.Common.{refl};
ghost use Rattle.der.specs.Prelude.{map_ok};
ghost use Rattle.der_asn1.specs.Item.{decodes_same};
ghost use Rattle.der_asn1.specs.Meaning.{alternative, choice_is_item, choice_item, choice_of, either};
ghost use Rattle.der_asn1.specs.declared.fields.either.Either.TheVariants.{First, Second};
ghost use Rattle.ldap.specs.declared.asn1.substring_filter_substrings_item.SubstringFilterSubstringsItem.TheVariants as variant;

use crate::asn1::assertion_value::AssertionValue;
use crate::asn1::substring_filter_substrings_item_part1::SubstringFilterSubstringsItemPart1;
use crate::asn1::substring_filter_substrings_item_part2::SubstringFilterSubstringsItemPart2;
use der::{Decode, Encode, Error, FromFields, Lends, Length, Reader, SliceReader, Tag, Writer};
use der_asn1::{
    BorrowedItem, Choice, DecodeChoice, DecodeItem, DescribedChoice, Either, Implicit, Item,
    WrittenItem, decode_choice,
};
use std::alloc::Global;

/// A type inside another type, to which the ASN.1 module gives no name. Its name here is made of the
/// names of the types and components around it.
#[derive(Clone, Copy, Debug, Drop, PartialEq, Eq)]
pub enum SubstringFilterSubstringsItem<'a> {
    /// The value begins with this part.
    Initial(Implicit<AssertionValue<'a>, 0>),
    /// The value contains this part.
    Any(Implicit<AssertionValue<'a>, 1>),
    /// The value ends with this part.
    Final(Implicit<AssertionValue<'a>, 2>),
}

// The alternatives, as nested choices of two.
pub(crate) type SubstringFilterSubstringsItemAlternatives<'a> = Either<
    SubstringFilterSubstringsItemPart1<'a>,
    SubstringFilterSubstringsItemPart2<'a>,
>;

impl<'a> FromFields<SubstringFilterSubstringsItemAlternatives<'a>>
    for SubstringFilterSubstringsItem<'a> {
    ghost fields = { elim [
      | variant.Initial v ↦ First ((record { choice = First (v) }))
      | variant.Any v ↦ First ((record { choice = Second (v) }))
      | variant.Final v ↦ Second ((record { choice = v }))
    ] };

    fn from_fields(alternatives: SubstringFilterSubstringsItemAlternatives<'a>) -> Self {
        match alternatives {
            Either::First(
                SubstringFilterSubstringsItemPart1 {
                    choice: Either::First(value),
                },
            ) => SubstringFilterSubstringsItem::Initial(value),
            Either::First(
                SubstringFilterSubstringsItemPart1 {
                    choice: Either::Second(value),
                },
            ) => SubstringFilterSubstringsItem::Any(value),
            Either::Second(SubstringFilterSubstringsItemPart2 { choice: value }) =>
                SubstringFilterSubstringsItem::Final(value),
        }
    }
}

impl<'a> DescribedChoice for SubstringFilterSubstringsItem<'a> {
    ghost alternative = { choice_of (either
        ⟦<SubstringFilterSubstringsItemPart1<'a> as DescribedChoice>⟧.alternative
        ⟦<SubstringFilterSubstringsItemPart2<'a> as DescribedChoice>⟧.alternative)
        ⟦<SubstringFilterSubstringsItem<'a> as FromFields<SubstringFilterSubstringsItemAlternatives<'a>>>⟧.fields };
}

/// Decodes the alternative with the next tag. The errors are those of decoding an [`Either`].
impl<'a, R: Lends<Borrowed = &'a [u8]>> Decode<R> for SubstringFilterSubstringsItem<'a> {
    type Error = Error;

    ghost is_next = { ⟦<SubstringFilterSubstringsItem<'a> as DescribedChoice>⟧.alternative.is_next };

    ghost decode_levels = { ⟦<SubstringFilterSubstringsItem<'a> as DescribedChoice>⟧.alternative.levels };

    ghost allocates = { false };

    ghost decode_answers = { λ s result t.
        ⟦<SubstringFilterSubstringsItemAlternatives<'a> as Decode<SliceReader<'a>>>⟧.decode_answers s
        (map_ok
        ⟦<SubstringFilterSubstringsItem<'a> as FromFields<SubstringFilterSubstringsItemAlternatives<'a>>>⟧.fields result) t };

    fn decode(alloc: Global, reader: &mut R) -> Result<Self, Error>
    where
        R: Reader,
    {
        decode_choice::<R, SubstringFilterSubstringsItemAlternatives<'a>, Self>(alloc, reader)
    }
}

impl<'a> Choice for SubstringFilterSubstringsItem<'a> {
    ghost chooses = { ⟦<SubstringFilterSubstringsItem<'a> as DescribedChoice>⟧.alternative.tags };

    fn can_decode(tag: Tag) -> bool
        ensures { IsTrue result ↔
            ⟦<SubstringFilterSubstringsItem<'a> as DescribedChoice>⟧.alternative.tags tag }
    {
        <SubstringFilterSubstringsItemAlternatives<'a> as Choice>::can_decode(tag)
    }
}

impl<'a, R: Lends<Borrowed = &'a [u8]>> DecodeChoice<R> for SubstringFilterSubstringsItem<'a> {
    ghost begins = { ⟦<SubstringFilterSubstringsItem<'a> as DescribedChoice>⟧.alternative.begins };
}

/// Writes the alternative that the value has. The errors are those of writing it.
impl<'a> Encode for SubstringFilterSubstringsItem<'a> {
    ghost encoding = { λ v. ⟦<SubstringFilterSubstringsItemAlternatives<'a> as Encode>⟧.encoding
        (⟦<SubstringFilterSubstringsItem<'a> as FromFields<SubstringFilterSubstringsItemAlternatives<'a>>>⟧.fields v) };

    ghost encodable = { λ v. ⟦<SubstringFilterSubstringsItemAlternatives<'a> as Encode>⟧.encodable
        (⟦<SubstringFilterSubstringsItem<'a> as FromFields<SubstringFilterSubstringsItemAlternatives<'a>>>⟧.fields v) };

    ghost size = { λ v. ⟦<SubstringFilterSubstringsItemAlternatives<'a> as Encode>⟧.size
        (⟦<SubstringFilterSubstringsItem<'a> as FromFields<SubstringFilterSubstringsItemAlternatives<'a>>>⟧.fields v) };

    ghost encode_answers = { λ v.
        ⟦<SubstringFilterSubstringsItemAlternatives<'a> as Encode>⟧.encode_answers
        (⟦<SubstringFilterSubstringsItem<'a> as FromFields<SubstringFilterSubstringsItemAlternatives<'a>>>⟧.fields v) };

    fn encoded_len(&self) -> Result<Length, Error> {
        match self {
            SubstringFilterSubstringsItem::Initial(value) => value.encoded_len(),
            SubstringFilterSubstringsItem::Any(value) => value.encoded_len(),
            SubstringFilterSubstringsItem::Final(value) => value.encoded_len(),
        }
    }

    fn encode<W: Writer>(&self, writer: &mut W) -> Result<(), Error> {
        match self {
            SubstringFilterSubstringsItem::Initial(value) => value.encode(writer),
            SubstringFilterSubstringsItem::Any(value) => value.encode(writer),
            SubstringFilterSubstringsItem::Final(value) => value.encode(writer),
        }
    }

    fn len_before(&self) -> Option<u32> {
        match self {
            SubstringFilterSubstringsItem::Initial(value) => value.len_before(),
            SubstringFilterSubstringsItem::Any(value) => value.len_before(),
            SubstringFilterSubstringsItem::Final(value) => value.len_before(),
        }
    }

    fn encode_before(&self, buf: &mut [u8], end: u32) -> u32 {
        match self {
            SubstringFilterSubstringsItem::Initial(value) => value.encode_before(buf, end),
            SubstringFilterSubstringsItem::Any(value) => value.encode_before(buf, end),
            SubstringFilterSubstringsItem::Final(value) => value.encode_before(buf, end),
        }
    }
}

impl<'a> Item for SubstringFilterSubstringsItem<'a> {
    ghost item = { choice_item
        ⟦<SubstringFilterSubstringsItem<'a> as DescribedChoice>⟧.alternative };
}

impl<'a, R: Lends<Borrowed = &'a [u8]>> DecodeItem<R> for SubstringFilterSubstringsItem<'a> {
    ghost is_item = { choice_is_item
        ⟦<SubstringFilterSubstringsItem<'a> as DescribedChoice>⟧.alternative refl };

    ghost decodes_items = { decodes_same (choice_item
        ⟦<SubstringFilterSubstringsItem<'a> as DescribedChoice>⟧.alternative) };
}

impl<'a> BorrowedItem for SubstringFilterSubstringsItem<'a> {
    ghost borrowed = { refl };
}

impl<'a> WrittenItem for SubstringFilterSubstringsItem<'a> {
    ghost written = { λ v. refl };

    ghost writes_valid = { λ v is. is };
}
