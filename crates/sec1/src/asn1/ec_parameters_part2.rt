//! Written by asn1_compile from the module SEC1: change the module instead.
//!
//! EcParametersPart2.
ghost use Rattle.std.specs.Prelude.{◌↔◌, IsTrue, false};
ghost use Rattle.der.specs.Prelude.{map_ok};
ghost use Rattle.der_asn1.specs.Meaning.{alternative, choice_of};

use crate::asn1::specified_ec_domain::SpecifiedEcDomain;
use der::{Decode, Encode, Error, FromFields, Lends, Length, Reader, SliceReader, Tag, Writer};
use der_asn1::{Choice, DecodeChoice, Described, DescribedChoice, decode_choice};
use std::alloc::Global;

// Some alternatives of a EcParameters.
#[derive(Drop)]
pub(crate) struct EcParametersPart2<'a> {
    pub(crate) choice: EcParametersPart2Alternatives<'a>,
}

// The alternatives, as nested choices of two.
pub(crate) type EcParametersPart2Alternatives<'a> = SpecifiedEcDomain<'a>;

impl<'a> FromFields<EcParametersPart2Alternatives<'a>> for EcParametersPart2<'a> {
    ghost fields = { λ v. v.choice };

    fn from_fields(choice: EcParametersPart2Alternatives<'a>) -> Self {
        EcParametersPart2 { choice }
    }
}

impl<'a> DescribedChoice for EcParametersPart2<'a> {
    ghost alternative = { choice_of (alternative ⟦<SpecifiedEcDomain<'a> as Described>⟧.element)
        (λ v. v.choice) };
}

impl<'a, R: Lends<Borrowed = &'a [u8]>> Decode<R> for EcParametersPart2<'a> {
    type Error = Error;

    ghost is_next = { ⟦<EcParametersPart2<'a> as DescribedChoice>⟧.alternative.is_next };

    ghost decode_levels = { ⟦<EcParametersPart2<'a> as DescribedChoice>⟧.alternative.levels };

    ghost allocates = { false };

    ghost decode_answers = { λ s result t.
        ⟦<EcParametersPart2Alternatives<'a> as Decode<SliceReader<'a>>>⟧.decode_answers s
        (map_ok (λ v. v.choice) result) t };

    #[inline(always)]
    fn decode(alloc: Global, reader: &mut R) -> Result<Self, Error>
    where
        R: Reader,
    {
        decode_choice::<R, EcParametersPart2Alternatives<'a>, Self>(alloc, reader)
    }
}

impl<'a> Choice for EcParametersPart2<'a> {
    ghost chooses = { ⟦<EcParametersPart2<'a> as DescribedChoice>⟧.alternative.tags };

    #[inline(always)]
    fn can_decode(tag: Tag) -> bool
        ensures { IsTrue result ↔
            ⟦<EcParametersPart2<'a> as DescribedChoice>⟧.alternative.tags tag }
    {
        <EcParametersPart2Alternatives<'a> as Choice>::can_decode(tag)
    }
}

impl<'a, R: Lends<Borrowed = &'a [u8]>> DecodeChoice<R> for EcParametersPart2<'a> {
    ghost begins = { ⟦<EcParametersPart2<'a> as DescribedChoice>⟧.alternative.begins };
}

impl<'a> Encode for EcParametersPart2<'a> {
    ghost encoding = { λ v. ⟦<EcParametersPart2Alternatives<'a> as Encode>⟧.encoding v.choice };

    ghost encodable = { λ v. ⟦<EcParametersPart2Alternatives<'a> as Encode>⟧.encodable v.choice };

    ghost size = { λ v. ⟦<EcParametersPart2Alternatives<'a> as Encode>⟧.size v.choice };

    ghost encode_answers = { λ v.
        ⟦<EcParametersPart2Alternatives<'a> as Encode>⟧.encode_answers v.choice };

    #[inline(always)]
    fn encoded_len(&self) -> Result<Length, Error> {
        self.choice.encoded_len()
    }

    #[inline(always)]
    fn encode<W: Writer>(&self, writer: &mut W) -> Result<(), Error> {
        self.choice.encode(writer)
    }
}
