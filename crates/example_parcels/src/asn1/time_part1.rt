//! Written by asn1_compile from the module Parcels: change the module instead.
//!
//! TimePart1.
ghost use Rattle.std.specs.Prelude.{◌↔◌, IsTrue, false};
ghost use Rattle.der.specs.Prelude.{map_ok};
ghost use Rattle.der_asn1.specs.Meaning.{alternative, choice_of, either};

use der::{Decode, Encode, Error, FromFields, Lends, Length, Reader, SliceReader, Tag, Writer};
use der_asn1::{
    Choice, DecodeChoice, Described, DescribedChoice, Either, GeneralizedTime, UtcTime,
    decode_choice,
};
use std::alloc::Global;

// Some alternatives of a Time.
#[derive(Drop)]
pub(crate) struct TimePart1 {
    pub(crate) choice: TimePart1Alternatives,
}

// The alternatives, as nested choices of two.
pub(crate) type TimePart1Alternatives = Either<UtcTime, GeneralizedTime>;

impl FromFields<TimePart1Alternatives> for TimePart1 {
    ghost fields = { λ v. v.choice };

    fn from_fields(choice: TimePart1Alternatives) -> Self {
        TimePart1 { choice }
    }
}

impl DescribedChoice for TimePart1 {
    ghost alternative = { choice_of (either (alternative ⟦<UtcTime as Described>⟧.element)
        (alternative ⟦<GeneralizedTime as Described>⟧.element)) (λ v. v.choice) };
}

impl<'a, R: Lends<Borrowed = &'a [u8]>> Decode<R> for TimePart1 {
    type Error = Error;

    ghost is_next = { ⟦<TimePart1 as DescribedChoice>⟧.alternative.is_next };

    ghost decode_levels = { ⟦<TimePart1 as DescribedChoice>⟧.alternative.levels };

    ghost allocates = { false };

    ghost decode_answers = { λ s result t.
        ⟦<TimePart1Alternatives as Decode<SliceReader<'a>>>⟧.decode_answers s
        (map_ok (λ v. v.choice) result) t };

    #[inline(always)]
    fn decode(alloc: Global, reader: &mut R) -> Result<Self, Error>
    where
        R: Reader,
    {
        decode_choice::<R, TimePart1Alternatives, Self>(alloc, reader)
    }
}

impl Choice for TimePart1 {
    ghost chooses = { ⟦<TimePart1 as DescribedChoice>⟧.alternative.tags };

    #[inline(always)]
    fn can_decode(tag: Tag) -> bool
        ensures { IsTrue result ↔ ⟦<TimePart1 as DescribedChoice>⟧.alternative.tags tag }
    {
        <TimePart1Alternatives as Choice>::can_decode(tag)
    }
}

impl<'a, R: Lends<Borrowed = &'a [u8]>> DecodeChoice<R> for TimePart1 {
    ghost begins = { ⟦<TimePart1 as DescribedChoice>⟧.alternative.begins };
}

impl Encode for TimePart1 {
    ghost encoding = { λ v. ⟦<TimePart1Alternatives as Encode>⟧.encoding v.choice };

    ghost encodable = { λ v. ⟦<TimePart1Alternatives as Encode>⟧.encodable v.choice };

    ghost size = { λ v. ⟦<TimePart1Alternatives as Encode>⟧.size v.choice };

    ghost encode_answers = { λ v. ⟦<TimePart1Alternatives as Encode>⟧.encode_answers v.choice };

    #[inline(always)]
    fn encoded_len(&self) -> Result<Length, Error> {
        self.choice.encoded_len()
    }

    #[inline(always)]
    fn encode<W: Writer>(&self, writer: &mut W) -> Result<(), Error> {
        self.choice.encode(writer)
    }
}
