//! Written by asn1_compile from the module Lightweight-Directory-Access-Protocol-V3: change the module instead.
//!
//! SubstringFilterSubstringsItemPart2.
ghost use Rattle.std.specs.Prelude.{◌↔◌, IsTrue, false};
ghost use Rattle.der.specs.Prelude.{map_ok};
ghost use Rattle.der_asn1.specs.Meaning.{alternative, choice_of};

use crate::asn1::assertion_value::AssertionValue;
use der::{Decode, Encode, Error, FromFields, Lends, Length, Reader, SliceReader, Tag, Writer};
use der_asn1::{Choice, DecodeChoice, Described, DescribedChoice, Implicit, decode_choice};
use std::alloc::Global;

// Some alternatives of a SubstringFilterSubstringsItem.
#[derive(Drop)]
pub(crate) struct SubstringFilterSubstringsItemPart2<'a> {
    pub(crate) choice: SubstringFilterSubstringsItemPart2Alternatives<'a>,
}

// The alternatives, as nested choices of two.
pub(crate) type SubstringFilterSubstringsItemPart2Alternatives<'a> = Implicit<
    AssertionValue<'a>,
    2,
>;

impl<'a> FromFields<SubstringFilterSubstringsItemPart2Alternatives<'a>>
    for SubstringFilterSubstringsItemPart2<'a> {
    ghost fields = { λ v. v.choice };

    fn from_fields(choice: SubstringFilterSubstringsItemPart2Alternatives<'a>) -> Self {
        SubstringFilterSubstringsItemPart2 { choice }
    }
}

impl<'a> DescribedChoice for SubstringFilterSubstringsItemPart2<'a> {
    ghost alternative = { choice_of (alternative
        ⟦<Implicit<AssertionValue<'a>, 2> as Described>⟧.element) (λ v. v.choice) };
}

impl<'a, R: Lends<Borrowed = &'a [u8]>> Decode<R> for SubstringFilterSubstringsItemPart2<'a> {
    type Error = Error;

    ghost is_next = { ⟦<SubstringFilterSubstringsItemPart2<'a> as DescribedChoice>⟧.alternative.is_next };

    ghost decode_levels = { ⟦<SubstringFilterSubstringsItemPart2<'a> as DescribedChoice>⟧.alternative.levels };

    ghost allocates = { false };

    ghost decode_answers = { λ s result t.
        ⟦<SubstringFilterSubstringsItemPart2Alternatives<'a> as Decode<SliceReader<'a>>>⟧.decode_answers s
        (map_ok (λ v. v.choice) result) t };

    #[inline(always)]
    fn decode(alloc: Global, reader: &mut R) -> Result<Self, Error>
    where
        R: Reader,
    {
        decode_choice::<R, SubstringFilterSubstringsItemPart2Alternatives<'a>, Self>(alloc, reader)
    }
}

impl<'a> Choice for SubstringFilterSubstringsItemPart2<'a> {
    ghost chooses = { ⟦<SubstringFilterSubstringsItemPart2<'a> as DescribedChoice>⟧.alternative.tags };

    #[inline(always)]
    fn can_decode(tag: Tag) -> bool
        ensures { IsTrue result ↔
            ⟦<SubstringFilterSubstringsItemPart2<'a> as DescribedChoice>⟧.alternative.tags tag }
    {
        <SubstringFilterSubstringsItemPart2Alternatives<'a> as Choice>::can_decode(tag)
    }
}

impl<'a, R: Lends<Borrowed = &'a [u8]>> DecodeChoice<R> for SubstringFilterSubstringsItemPart2<'a> {
    ghost begins = { ⟦<SubstringFilterSubstringsItemPart2<'a> as DescribedChoice>⟧.alternative.begins };
}

impl<'a> Encode for SubstringFilterSubstringsItemPart2<'a> {
    ghost encoding = { λ v.
        ⟦<SubstringFilterSubstringsItemPart2Alternatives<'a> as Encode>⟧.encoding v.choice };

    ghost encodable = { λ v.
        ⟦<SubstringFilterSubstringsItemPart2Alternatives<'a> as Encode>⟧.encodable v.choice };

    ghost size = { λ v.
        ⟦<SubstringFilterSubstringsItemPart2Alternatives<'a> as Encode>⟧.size v.choice };

    ghost encode_answers = { λ v.
        ⟦<SubstringFilterSubstringsItemPart2Alternatives<'a> as Encode>⟧.encode_answers v.choice };

    #[inline(always)]
    fn encoded_len(&self) -> Result<Length, Error> {
        self.choice.encoded_len()
    }

    #[inline(always)]
    fn encode<W: Writer>(&self, writer: &mut W) -> Result<(), Error> {
        self.choice.encode(writer)
    }
}
