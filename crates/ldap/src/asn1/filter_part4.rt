//! Written by asn1_compile from the module Lightweight-Directory-Access-Protocol-V3: change the module instead.
//!
//! FilterPart4.
ghost use Rattle.std.specs.Prelude.{◌↔◌, IsTrue, false};
ghost use Rattle.der.specs.Prelude.{map_ok};
ghost use Rattle.der_asn1.specs.Meaning.{alternative, choice_of, either};

use crate::asn1::filter_known::FilterKnown;
use crate::asn1::matching_rule_assertion::MatchingRuleAssertion;
use der::{Decode, Encode, Error, FromFields, Lends, Length, Reader, SliceReader, Tag, Writer};
use der_asn1::{
    Choice, DecodeChoice, Described, DescribedChoice, Either, Implicit, UnknownElement,
    decode_choice,
};
use std::alloc::Global;

// Some alternatives of a Filter.
#[derive(Drop)]
pub(crate) struct FilterPart4<'a> {
    pub(crate) choice: FilterPart4Alternatives<'a>,
}

// The alternatives, as nested choices of two.
pub(crate) type FilterPart4Alternatives<'a> = Either<
    Implicit<MatchingRuleAssertion<'a>, 9>,
    UnknownElement<'a, FilterKnown>,
>;

impl<'a> FromFields<FilterPart4Alternatives<'a>> for FilterPart4<'a> {
    ghost fields = { λ v. v.choice };

    fn from_fields(choice: FilterPart4Alternatives<'a>) -> Self {
        FilterPart4 { choice }
    }
}

impl<'a> DescribedChoice for FilterPart4<'a> {
    ghost alternative = { choice_of (either (alternative
        ⟦<Implicit<MatchingRuleAssertion<'a>, 9> as Described>⟧.element)
        ⟦<UnknownElement<'a, FilterKnown> as DescribedChoice>⟧.alternative) (λ v. v.choice) };
}

impl<'a, R: Lends<Borrowed = &'a [u8]>> Decode<R> for FilterPart4<'a> {
    type Error = Error;

    ghost is_next = { ⟦<FilterPart4<'a> as DescribedChoice>⟧.alternative.is_next };

    ghost decode_levels = { ⟦<FilterPart4<'a> as DescribedChoice>⟧.alternative.levels };

    ghost allocates = { false };

    ghost decode_answers = { λ s result t.
        ⟦<FilterPart4Alternatives<'a> as Decode<SliceReader<'a>>>⟧.decode_answers s
        (map_ok (λ v. v.choice) result) t };

    #[inline(always)]
    fn decode(alloc: Global, reader: &mut R) -> Result<Self, Error>
    where
        R: Reader,
    {
        decode_choice::<R, FilterPart4Alternatives<'a>, Self>(alloc, reader)
    }
}

impl<'a> Choice for FilterPart4<'a> {
    ghost chooses = { ⟦<FilterPart4<'a> as DescribedChoice>⟧.alternative.tags };

    #[inline(always)]
    fn can_decode(tag: Tag) -> bool
        ensures { IsTrue result ↔ ⟦<FilterPart4<'a> as DescribedChoice>⟧.alternative.tags tag }
    {
        <FilterPart4Alternatives<'a> as Choice>::can_decode(tag)
    }
}

impl<'a, R: Lends<Borrowed = &'a [u8]>> DecodeChoice<R> for FilterPart4<'a> {
    ghost begins = { ⟦<FilterPart4<'a> as DescribedChoice>⟧.alternative.begins };
}

impl<'a> Encode for FilterPart4<'a> {
    ghost encoding = { λ v. ⟦<FilterPart4Alternatives<'a> as Encode>⟧.encoding v.choice };

    ghost encodable = { λ v. ⟦<FilterPart4Alternatives<'a> as Encode>⟧.encodable v.choice };

    ghost size = { λ v. ⟦<FilterPart4Alternatives<'a> as Encode>⟧.size v.choice };

    ghost encode_answers = { λ v.
        ⟦<FilterPart4Alternatives<'a> as Encode>⟧.encode_answers v.choice };

    #[inline(always)]
    fn encoded_len(&self) -> Result<Length, Error> {
        self.choice.encoded_len()
    }

    #[inline(always)]
    fn encode<W: Writer>(&self, writer: &mut W) -> Result<(), Error> {
        self.choice.encode(writer)
    }
}
