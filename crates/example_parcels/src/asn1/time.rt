//! Written by asn1_compile from the module Parcels: change the module instead.
//!
//! Time.
ghost use Rattle.std.specs.Prelude.{◌↔◌, IsTrue, false};
ghost use Rattle.std.proofs.Common.{refl};
ghost use Rattle.der.specs.Prelude.{map_ok};
ghost use Rattle.der_asn1.specs.Item.{decodes_same};
ghost use Rattle.der_asn1.specs.Meaning.{alternative, choice_is_item, choice_item, choice_of, either};
ghost use Rattle.der_asn1.specs.declared.fields.either.Either.TheVariants.{First, Second};
ghost use Rattle.example_parcels.specs.declared.asn1.time.Time.TheVariants as variant;

use crate::asn1::time_part1::TimePart1;
use crate::asn1::time_part2::TimePart2;
use der::{Decode, Encode, Error, FromFields, Lends, Length, Reader, SliceReader, Tag, Writer};
use der_asn1::{
    BorrowedItem, Choice, DecodeChoice, DecodeItem, DescribedChoice, Either, GeneralizedTime, Item,
    Null, UtcTime, WrittenItem, decode_choice,
};
use std::alloc::Global;

/// A time, or that it is not known.
#[derive(Clone, Copy, Debug, Drop, PartialEq, Eq)]
pub enum Time<'a> {
    /// The time as a UTCTime.
    Utc(UtcTime),
    /// The time as a GeneralizedTime.
    General(GeneralizedTime),
    /// The time is not known.
    Unknown(Null<'a>),
}

// The alternatives, as nested choices of two.
pub(crate) type TimeAlternatives<'a> = Either<TimePart1, TimePart2<'a>>;

impl<'a> FromFields<TimeAlternatives<'a>> for Time<'a> {
    ghost fields = { elim [
      | variant.Utc v ↦ First ((record { choice = First (v) }))
      | variant.General v ↦ First ((record { choice = Second (v) }))
      | variant.Unknown v ↦ Second ((record { choice = v }))
    ] };

    fn from_fields(alternatives: TimeAlternatives<'a>) -> Self {
        match alternatives {
            Either::First(
                TimePart1 {
                    choice: Either::First(value),
                },
            ) => Time::Utc(value),
            Either::First(
                TimePart1 {
                    choice: Either::Second(value),
                },
            ) => Time::General(value),
            Either::Second(TimePart2 { choice: value }) => Time::Unknown(value),
        }
    }
}

impl<'a> DescribedChoice for Time<'a> {
    ghost alternative = { choice_of (either ⟦<TimePart1 as DescribedChoice>⟧.alternative
        ⟦<TimePart2<'a> as DescribedChoice>⟧.alternative)
        ⟦<Time<'a> as FromFields<TimeAlternatives<'a>>>⟧.fields };
}

/// Decodes the alternative with the next tag. The errors are those of decoding an [`Either`].
impl<'a, R: Lends<Borrowed = &'a [u8]>> Decode<R> for Time<'a> {
    type Error = Error;

    ghost is_next = { ⟦<Time<'a> as DescribedChoice>⟧.alternative.is_next };

    ghost decode_levels = { ⟦<Time<'a> as DescribedChoice>⟧.alternative.levels };

    ghost allocates = { false };

    ghost decode_answers = { λ s result t.
        ⟦<TimeAlternatives<'a> as Decode<SliceReader<'a>>>⟧.decode_answers s
        (map_ok ⟦<Time<'a> as FromFields<TimeAlternatives<'a>>>⟧.fields result) t };

    fn decode(alloc: Global, reader: &mut R) -> Result<Self, Error>
    where
        R: Reader,
    {
        decode_choice::<R, TimeAlternatives<'a>, Self>(alloc, reader)
    }
}

impl<'a> Choice for Time<'a> {
    ghost chooses = { ⟦<Time<'a> as DescribedChoice>⟧.alternative.tags };

    fn can_decode(tag: Tag) -> bool
        ensures { IsTrue result ↔ ⟦<Time<'a> as DescribedChoice>⟧.alternative.tags tag }
    {
        <TimeAlternatives<'a> as Choice>::can_decode(tag)
    }
}

impl<'a, R: Lends<Borrowed = &'a [u8]>> DecodeChoice<R> for Time<'a> {
    ghost begins = { ⟦<Time<'a> as DescribedChoice>⟧.alternative.begins };
}

/// Writes the alternative that the value has. The errors are those of writing it.
impl<'a> Encode for Time<'a> {
    ghost encoding = { λ v. ⟦<TimeAlternatives<'a> as Encode>⟧.encoding
        (⟦<Time<'a> as FromFields<TimeAlternatives<'a>>>⟧.fields v) };

    ghost encodable = { λ v. ⟦<TimeAlternatives<'a> as Encode>⟧.encodable
        (⟦<Time<'a> as FromFields<TimeAlternatives<'a>>>⟧.fields v) };

    ghost size = { λ v. ⟦<TimeAlternatives<'a> as Encode>⟧.size
        (⟦<Time<'a> as FromFields<TimeAlternatives<'a>>>⟧.fields v) };

    ghost encode_answers = { λ v. ⟦<TimeAlternatives<'a> as Encode>⟧.encode_answers
        (⟦<Time<'a> as FromFields<TimeAlternatives<'a>>>⟧.fields v) };

    fn encoded_len(&self) -> Result<Length, Error> {
        match self {
            Time::Utc(value) => value.encoded_len(),
            Time::General(value) => value.encoded_len(),
            Time::Unknown(value) => value.encoded_len(),
        }
    }

    fn encode<W: Writer>(&self, writer: &mut W) -> Result<(), Error> {
        match self {
            Time::Utc(value) => value.encode(writer),
            Time::General(value) => value.encode(writer),
            Time::Unknown(value) => value.encode(writer),
        }
    }

    fn len_before(&self) -> Option<u32> {
        match self {
            Time::Utc(value) => value.len_before(),
            Time::General(value) => value.len_before(),
            Time::Unknown(value) => value.len_before(),
        }
    }

    fn encode_before(&self, buf: &mut [u8], end: u32) -> u32 {
        match self {
            Time::Utc(value) => value.encode_before(buf, end),
            Time::General(value) => value.encode_before(buf, end),
            Time::Unknown(value) => value.encode_before(buf, end),
        }
    }
}

impl<'a> Item for Time<'a> {
    ghost item = { choice_item ⟦<Time<'a> as DescribedChoice>⟧.alternative };
}

impl<'a, R: Lends<Borrowed = &'a [u8]>> DecodeItem<R> for Time<'a> {
    ghost is_item = { choice_is_item ⟦<Time<'a> as DescribedChoice>⟧.alternative refl };

    ghost decodes_items = { decodes_same (choice_item
        ⟦<Time<'a> as DescribedChoice>⟧.alternative) };
}

impl<'a> BorrowedItem for Time<'a> {
    ghost borrowed = { refl };
}

impl<'a> WrittenItem for Time<'a> {
    ghost written = { λ v. refl };

    ghost writes_valid = { λ v is. is };
}
