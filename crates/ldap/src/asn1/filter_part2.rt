//! Written by asn1_compile from the module Lightweight-Directory-Access-Protocol-V3: change the module instead.
//!
//! FilterPart2.
ghost use Rattle.std.specs.Prelude.{◌↔◌, IsTrue, false};
ghost use Rattle.der.specs.Prelude.{map_ok};
ghost use Rattle.der_asn1.specs.Meaning.{alternative, choice_of, either};

use crate::asn1::attribute_value_assertion::AttributeValueAssertion;
use crate::asn1::substring_filter::SubstringFilter;
use der::{Decode, Encode, Error, FromFields, Lends, Length, Reader, SliceReader, Tag, Writer};
use der_asn1::{Choice, DecodeChoice, Described, DescribedChoice, Either, Implicit, decode_choice};
use std::alloc::Global;

// Some alternatives of a Filter.
#[derive(Drop)]
pub(crate) struct FilterPart2<'a> {
    pub(crate) choice: FilterPart2Alternatives<'a>,
}

// The alternatives, as nested choices of two.
pub(crate) type FilterPart2Alternatives<'a> = Either<
    Implicit<AttributeValueAssertion<'a>, 3>,
    Either<Implicit<SubstringFilter<'a>, 4>, Implicit<AttributeValueAssertion<'a>, 5>>,
>;

impl<'a> FromFields<FilterPart2Alternatives<'a>> for FilterPart2<'a> {
    ghost fields = { λ v. v.choice };

    fn from_fields(choice: FilterPart2Alternatives<'a>) -> Self {
        FilterPart2 { choice }
    }
}

impl<'a> DescribedChoice for FilterPart2<'a> {
    ghost alternative = { choice_of (either (alternative
        ⟦<Implicit<AttributeValueAssertion<'a>, 3> as Described>⟧.element) (either (alternative
        ⟦<Implicit<SubstringFilter<'a>, 4> as Described>⟧.element) (alternative
        ⟦<Implicit<AttributeValueAssertion<'a>, 5> as Described>⟧.element))) (λ v. v.choice) };
}

impl<'a, R: Lends<Borrowed = &'a [u8]>> Decode<R> for FilterPart2<'a> {
    type Error = Error;

    ghost is_next = { ⟦<FilterPart2<'a> as DescribedChoice>⟧.alternative.is_next };

    ghost decode_levels = { ⟦<FilterPart2<'a> as DescribedChoice>⟧.alternative.levels };

    ghost allocates = { false };

    ghost decode_answers = { λ s result t.
        ⟦<FilterPart2Alternatives<'a> as Decode<SliceReader<'a>>>⟧.decode_answers s
        (map_ok (λ v. v.choice) result) t };

    #[inline(always)]
    fn decode(alloc: Global, reader: &mut R) -> Result<Self, Error>
    where
        R: Reader,
    {
        decode_choice::<R, FilterPart2Alternatives<'a>, Self>(alloc, reader)
    }
}

impl<'a> Choice for FilterPart2<'a> {
    ghost chooses = { ⟦<FilterPart2<'a> as DescribedChoice>⟧.alternative.tags };

    #[inline(always)]
    fn can_decode(tag: Tag) -> bool
        ensures { IsTrue result ↔ ⟦<FilterPart2<'a> as DescribedChoice>⟧.alternative.tags tag }
    {
        <FilterPart2Alternatives<'a> as Choice>::can_decode(tag)
    }
}

impl<'a, R: Lends<Borrowed = &'a [u8]>> DecodeChoice<R> for FilterPart2<'a> {
    ghost begins = { ⟦<FilterPart2<'a> as DescribedChoice>⟧.alternative.begins };
}

impl<'a> Encode for FilterPart2<'a> {
    ghost encoding = { λ v. ⟦<FilterPart2Alternatives<'a> as Encode>⟧.encoding v.choice };

    ghost encodable = { λ v. ⟦<FilterPart2Alternatives<'a> as Encode>⟧.encodable v.choice };

    ghost size = { λ v. ⟦<FilterPart2Alternatives<'a> as Encode>⟧.size v.choice };

    ghost encode_answers = { λ v.
        ⟦<FilterPart2Alternatives<'a> as Encode>⟧.encode_answers v.choice };

    #[inline(always)]
    fn encoded_len(&self) -> Result<Length, Error> {
        self.choice.encoded_len()
    }

    #[inline(always)]
    fn encode<W: Writer>(&self, writer: &mut W) -> Result<(), Error> {
        self.choice.encode(writer)
    }
}
