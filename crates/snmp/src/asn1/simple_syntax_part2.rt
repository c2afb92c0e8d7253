//! Written by asn1_compile from the module SNMPv2-PDU: change the module instead.
//!
//! SimpleSyntaxPart2.
ghost use Rattle.std.specs.Prelude.{◌↔◌, IsTrue, false};
ghost use Rattle.der.specs.Prelude.{map_ok};
ghost use Rattle.der_asn1.specs.Meaning.{alternative, choice_of};

use der::{Decode, Encode, Error, FromFields, Lends, Length, Reader, SliceReader, Tag, Writer};
use der_asn1::{
    Choice, DecodeChoice, Described, DescribedChoice, ObjectIdentifierRef, decode_choice,
};
use std::alloc::Global;

// Some alternatives of a SimpleSyntax.
#[derive(Drop)]
pub(crate) struct SimpleSyntaxPart2<'a> {
    pub(crate) choice: SimpleSyntaxPart2Alternatives<'a>,
}

// The alternatives, as nested choices of two.
pub(crate) type SimpleSyntaxPart2Alternatives<'a> = ObjectIdentifierRef<'a>;

impl<'a> FromFields<SimpleSyntaxPart2Alternatives<'a>> for SimpleSyntaxPart2<'a> {
    ghost fields = { λ v. v.choice };

    fn from_fields(choice: SimpleSyntaxPart2Alternatives<'a>) -> Self {
        SimpleSyntaxPart2 { choice }
    }
}

impl<'a> DescribedChoice for SimpleSyntaxPart2<'a> {
    ghost alternative = { choice_of (alternative ⟦<ObjectIdentifierRef<'a> as Described>⟧.element)
        (λ v. v.choice) };
}

impl<'a, R: Lends<Borrowed = &'a [u8]>> Decode<R> for SimpleSyntaxPart2<'a> {
    type Error = Error;

    ghost is_next = { ⟦<SimpleSyntaxPart2<'a> as DescribedChoice>⟧.alternative.is_next };

    ghost decode_levels = { ⟦<SimpleSyntaxPart2<'a> as DescribedChoice>⟧.alternative.levels };

    ghost allocates = { false };

    ghost decode_answers = { λ s result t.
        ⟦<SimpleSyntaxPart2Alternatives<'a> as Decode<SliceReader<'a>>>⟧.decode_answers s
        (map_ok (λ v. v.choice) result) t };

    #[inline(always)]
    fn decode(alloc: Global, reader: &mut R) -> Result<Self, Error>
    where
        R: Reader,
    {
        decode_choice::<R, SimpleSyntaxPart2Alternatives<'a>, Self>(alloc, reader)
    }
}

impl<'a> Choice for SimpleSyntaxPart2<'a> {
    ghost chooses = { ⟦<SimpleSyntaxPart2<'a> as DescribedChoice>⟧.alternative.tags };

    #[inline(always)]
    fn can_decode(tag: Tag) -> bool
        ensures { IsTrue result ↔
            ⟦<SimpleSyntaxPart2<'a> as DescribedChoice>⟧.alternative.tags tag }
    {
        <SimpleSyntaxPart2Alternatives<'a> as Choice>::can_decode(tag)
    }
}

impl<'a, R: Lends<Borrowed = &'a [u8]>> DecodeChoice<R> for SimpleSyntaxPart2<'a> {
    ghost begins = { ⟦<SimpleSyntaxPart2<'a> as DescribedChoice>⟧.alternative.begins };
}

impl<'a> Encode for SimpleSyntaxPart2<'a> {
    ghost encoding = { λ v. ⟦<SimpleSyntaxPart2Alternatives<'a> as Encode>⟧.encoding v.choice };

    ghost encodable = { λ v. ⟦<SimpleSyntaxPart2Alternatives<'a> as Encode>⟧.encodable v.choice };

    ghost size = { λ v. ⟦<SimpleSyntaxPart2Alternatives<'a> as Encode>⟧.size v.choice };

    ghost encode_answers = { λ v.
        ⟦<SimpleSyntaxPart2Alternatives<'a> as Encode>⟧.encode_answers v.choice };

    #[inline(always)]
    fn encoded_len(&self) -> Result<Length, Error> {
        self.choice.encoded_len()
    }

    #[inline(always)]
    fn encode<W: Writer>(&self, writer: &mut W) -> Result<(), Error> {
        self.choice.encode(writer)
    }
}
