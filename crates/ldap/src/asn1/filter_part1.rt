//! Written by asn1_compile from the module Lightweight-Directory-Access-Protocol-V3: change the module instead.
//!
//! FilterPart1.
ghost use Rattle.std.specs.Prelude.{◌↔◌, IsTrue, false};
ghost use Rattle.der.specs.Prelude.{map_ok};
ghost use Rattle.der_asn1.specs.Meaning.{alternative, choice_of, either};

use der::{Decode, Encode, Error, FromFields, Lends, Length, Reader, SliceReader, Tag, Writer};
use der_asn1::{
    AnyRef, Choice, DecodeChoice, Described, DescribedChoice, Either, ExplicitAny, Implicit, SetOf,
    decode_choice,
};
use std::alloc::Global;

// Some alternatives of a Filter.
#[derive(Drop)]
pub(crate) struct FilterPart1<'a> {
    pub(crate) choice: FilterPart1Alternatives<'a>,
}

// The alternatives, as nested choices of two.
pub(crate) type FilterPart1Alternatives<'a> = Either<
    Implicit<SetOf<'a, AnyRef<'a>>, 0>,
    Either<Implicit<SetOf<'a, AnyRef<'a>>, 1>, ExplicitAny<'a, 2>>,
>;

impl<'a> FromFields<FilterPart1Alternatives<'a>> for FilterPart1<'a> {
    ghost fields = { λ v. v.choice };

    fn from_fields(choice: FilterPart1Alternatives<'a>) -> Self {
        FilterPart1 { choice }
    }
}

impl<'a> DescribedChoice for FilterPart1<'a> {
    ghost alternative = { choice_of (either (alternative
        ⟦<Implicit<SetOf<'a, AnyRef<'a>>, 0> as Described>⟧.element) (either (alternative
        ⟦<Implicit<SetOf<'a, AnyRef<'a>>, 1> as Described>⟧.element) (alternative
        ⟦<ExplicitAny<'a, 2> as Described>⟧.element))) (λ v. v.choice) };
}

impl<'a, R: Lends<Borrowed = &'a [u8]>> Decode<R> for FilterPart1<'a> {
    type Error = Error;

    ghost is_next = { ⟦<FilterPart1<'a> as DescribedChoice>⟧.alternative.is_next };

    ghost decode_levels = { ⟦<FilterPart1<'a> as DescribedChoice>⟧.alternative.levels };

    ghost allocates = { false };

    ghost decode_answers = { λ s result t.
        ⟦<FilterPart1Alternatives<'a> as Decode<SliceReader<'a>>>⟧.decode_answers s
        (map_ok (λ v. v.choice) result) t };

    #[inline(always)]
    fn decode(alloc: Global, reader: &mut R) -> Result<Self, Error>
    where
        R: Reader,
    {
        decode_choice::<R, FilterPart1Alternatives<'a>, Self>(alloc, reader)
    }
}

impl<'a> Choice for FilterPart1<'a> {
    ghost chooses = { ⟦<FilterPart1<'a> as DescribedChoice>⟧.alternative.tags };

    #[inline(always)]
    fn can_decode(tag: Tag) -> bool
        ensures { IsTrue result ↔ ⟦<FilterPart1<'a> as DescribedChoice>⟧.alternative.tags tag }
    {
        <FilterPart1Alternatives<'a> as Choice>::can_decode(tag)
    }
}

impl<'a, R: Lends<Borrowed = &'a [u8]>> DecodeChoice<R> for FilterPart1<'a> {
    ghost begins = { ⟦<FilterPart1<'a> as DescribedChoice>⟧.alternative.begins };
}

impl<'a> Encode for FilterPart1<'a> {
    ghost encoding = { λ v. ⟦<FilterPart1Alternatives<'a> as Encode>⟧.encoding v.choice };

    ghost encodable = { λ v. ⟦<FilterPart1Alternatives<'a> as Encode>⟧.encodable v.choice };

    ghost size = { λ v. ⟦<FilterPart1Alternatives<'a> as Encode>⟧.size v.choice };

    ghost encode_answers = { λ v.
        ⟦<FilterPart1Alternatives<'a> as Encode>⟧.encode_answers v.choice };

    #[inline(always)]
    fn encoded_len(&self) -> Result<Length, Error> {
        self.choice.encoded_len()
    }

    #[inline(always)]
    fn encode<W: Writer>(&self, writer: &mut W) -> Result<(), Error> {
        self.choice.encode(writer)
    }
}
