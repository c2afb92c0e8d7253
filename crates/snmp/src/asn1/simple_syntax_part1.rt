//! Written by asn1_compile from the module SNMPv2-PDU: change the module instead.
//!
//! SimpleSyntaxPart1.
ghost use Rattle.std.specs.Prelude.{◌↔◌, IsTrue, false};
ghost use Rattle.der.specs.Prelude.{map_ok};
ghost use Rattle.der_asn1.specs.Meaning.{alternative, choice_of, either};

use der::{Decode, Encode, Error, FromFields, Lends, Length, Reader, SliceReader, Tag, Writer};
use der_asn1::{
    Choice, DecodeChoice, Described, DescribedChoice, Either, IntRef, OctetStringRef, decode_choice,
};
use std::alloc::Global;

// Some alternatives of a SimpleSyntax.
#[derive(Drop)]
pub(crate) struct SimpleSyntaxPart1<'a> {
    pub(crate) choice: SimpleSyntaxPart1Alternatives<'a>,
}

// The alternatives, as nested choices of two.
pub(crate) type SimpleSyntaxPart1Alternatives<'a> = Either<IntRef<'a>, OctetStringRef<'a>>;

impl<'a> FromFields<SimpleSyntaxPart1Alternatives<'a>> for SimpleSyntaxPart1<'a> {
    ghost fields = { λ v. v.choice };

    fn from_fields(choice: SimpleSyntaxPart1Alternatives<'a>) -> Self {
        SimpleSyntaxPart1 { choice }
    }
}

impl<'a> DescribedChoice for SimpleSyntaxPart1<'a> {
    ghost alternative = { choice_of (either (alternative ⟦<IntRef<'a> as Described>⟧.element)
        (alternative ⟦<OctetStringRef<'a> as Described>⟧.element)) (λ v. v.choice) };
}

impl<'a, R: Lends<Borrowed = &'a [u8]>> Decode<R> for SimpleSyntaxPart1<'a> {
    type Error = Error;

    ghost is_next = { ⟦<SimpleSyntaxPart1<'a> as DescribedChoice>⟧.alternative.is_next };

    ghost decode_levels = { ⟦<SimpleSyntaxPart1<'a> as DescribedChoice>⟧.alternative.levels };

    ghost allocates = { false };

    ghost decode_answers = { λ s result t.
        ⟦<SimpleSyntaxPart1Alternatives<'a> as Decode<SliceReader<'a>>>⟧.decode_answers s
        (map_ok (λ v. v.choice) result) t };

    #[inline(always)]
    fn decode(alloc: Global, reader: &mut R) -> Result<Self, Error>
    where
        R: Reader,
    {
        decode_choice::<R, SimpleSyntaxPart1Alternatives<'a>, Self>(alloc, reader)
    }
}

impl<'a> Choice for SimpleSyntaxPart1<'a> {
    ghost chooses = { ⟦<SimpleSyntaxPart1<'a> as DescribedChoice>⟧.alternative.tags };

    #[inline(always)]
    fn can_decode(tag: Tag) -> bool
        ensures { IsTrue result ↔
            ⟦<SimpleSyntaxPart1<'a> as DescribedChoice>⟧.alternative.tags tag }
    {
        <SimpleSyntaxPart1Alternatives<'a> as Choice>::can_decode(tag)
    }
}

impl<'a, R: Lends<Borrowed = &'a [u8]>> DecodeChoice<R> for SimpleSyntaxPart1<'a> {
    ghost begins = { ⟦<SimpleSyntaxPart1<'a> as DescribedChoice>⟧.alternative.begins };
}

impl<'a> Encode for SimpleSyntaxPart1<'a> {
    ghost encoding = { λ v. ⟦<SimpleSyntaxPart1Alternatives<'a> as Encode>⟧.encoding v.choice };

    ghost encodable = { λ v. ⟦<SimpleSyntaxPart1Alternatives<'a> as Encode>⟧.encodable v.choice };

    ghost size = { λ v. ⟦<SimpleSyntaxPart1Alternatives<'a> as Encode>⟧.size v.choice };

    ghost encode_answers = { λ v.
        ⟦<SimpleSyntaxPart1Alternatives<'a> as Encode>⟧.encode_answers v.choice };

    #[inline(always)]
    fn encoded_len(&self) -> Result<Length, Error> {
        self.choice.encoded_len()
    }

    #[inline(always)]
    fn encode<W: Writer>(&self, writer: &mut W) -> Result<(), Error> {
        self.choice.encode(writer)
    }
}
