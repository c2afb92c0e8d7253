//! Written by asn1_compile from the module Parcels: change the module instead.
//!
//! TextPart1.
ghost use Rattle.std.specs.Prelude.{◌↔◌, IsTrue, false};
ghost use Rattle.der.specs.Prelude.{map_ok};
ghost use Rattle.der_asn1.specs.Meaning.{alternative, choice_of, either};

use der::{Decode, Encode, Error, FromFields, Lends, Length, Reader, SliceReader, Tag, Writer};
use der_asn1::{
    Choice, DecodeChoice, Described, DescribedChoice, Either, PrintableStringRef, Utf8StringRef,
    decode_choice,
};
use std::alloc::Global;

// Some alternatives of a Text.
#[derive(Drop)]
pub(crate) struct TextPart1<'a> {
    pub(crate) choice: TextPart1Alternatives<'a>,
}

// The alternatives, as nested choices of two.
pub(crate) type TextPart1Alternatives<'a> = Either<PrintableStringRef<'a>, Utf8StringRef<'a>>;

impl<'a> FromFields<TextPart1Alternatives<'a>> for TextPart1<'a> {
    ghost fields = { λ v. v.choice };

    fn from_fields(choice: TextPart1Alternatives<'a>) -> Self {
        TextPart1 { choice }
    }
}

impl<'a> DescribedChoice for TextPart1<'a> {
    ghost alternative = { choice_of (either (alternative
        ⟦<PrintableStringRef<'a> as Described>⟧.element) (alternative
        ⟦<Utf8StringRef<'a> as Described>⟧.element)) (λ v. v.choice) };
}

impl<'a, R: Lends<Borrowed = &'a [u8]>> Decode<R> for TextPart1<'a> {
    type Error = Error;

    ghost is_next = { ⟦<TextPart1<'a> as DescribedChoice>⟧.alternative.is_next };

    ghost decode_levels = { ⟦<TextPart1<'a> as DescribedChoice>⟧.alternative.levels };

    ghost allocates = { false };

    ghost decode_answers = { λ s result t.
        ⟦<TextPart1Alternatives<'a> as Decode<SliceReader<'a>>>⟧.decode_answers s
        (map_ok (λ v. v.choice) result) t };

    #[inline(always)]
    fn decode(alloc: Global, reader: &mut R) -> Result<Self, Error>
    where
        R: Reader,
    {
        decode_choice::<R, TextPart1Alternatives<'a>, Self>(alloc, reader)
    }
}

impl<'a> Choice for TextPart1<'a> {
    ghost chooses = { ⟦<TextPart1<'a> as DescribedChoice>⟧.alternative.tags };

    #[inline(always)]
    fn can_decode(tag: Tag) -> bool
        ensures { IsTrue result ↔ ⟦<TextPart1<'a> as DescribedChoice>⟧.alternative.tags tag }
    {
        <TextPart1Alternatives<'a> as Choice>::can_decode(tag)
    }
}

impl<'a, R: Lends<Borrowed = &'a [u8]>> DecodeChoice<R> for TextPart1<'a> {
    ghost begins = { ⟦<TextPart1<'a> as DescribedChoice>⟧.alternative.begins };
}

impl<'a> Encode for TextPart1<'a> {
    ghost encoding = { λ v. ⟦<TextPart1Alternatives<'a> as Encode>⟧.encoding v.choice };

    ghost encodable = { λ v. ⟦<TextPart1Alternatives<'a> as Encode>⟧.encodable v.choice };

    ghost size = { λ v. ⟦<TextPart1Alternatives<'a> as Encode>⟧.size v.choice };

    ghost encode_answers = { λ v. ⟦<TextPart1Alternatives<'a> as Encode>⟧.encode_answers v.choice };

    #[inline(always)]
    fn encoded_len(&self) -> Result<Length, Error> {
        self.choice.encoded_len()
    }

    #[inline(always)]
    fn encode<W: Writer>(&self, writer: &mut W) -> Result<(), Error> {
        self.choice.encode(writer)
    }
}
