//! Written by asn1_compile from the module SNMPv2-PDU: change the module instead.
//!
//! ApplicationSyntaxPart3.
ghost use Rattle.std.specs.Prelude.{◌↔◌, IsTrue, false};
ghost use Rattle.der.specs.Prelude.{map_ok};
ghost use Rattle.der_asn1.specs.Meaning.{alternative, choice_of, either};

use crate::asn1::counter64::Counter64;
use crate::asn1::unsigned32::Unsigned32;
use der::{Decode, Encode, Error, FromFields, Lends, Length, Reader, SliceReader, Tag, Writer};
use der_asn1::{Choice, DecodeChoice, Described, DescribedChoice, Either, decode_choice};
use std::alloc::Global;

// Some alternatives of a ApplicationSyntax.
#[derive(Drop)]
pub(crate) struct ApplicationSyntaxPart3 {
    pub(crate) choice: ApplicationSyntaxPart3Alternatives,
}

// The alternatives, as nested choices of two.
pub(crate) type ApplicationSyntaxPart3Alternatives = Either<Counter64, Unsigned32>;

impl FromFields<ApplicationSyntaxPart3Alternatives> for ApplicationSyntaxPart3 {
    ghost fields = { λ v. v.choice };

    fn from_fields(choice: ApplicationSyntaxPart3Alternatives) -> Self {
        ApplicationSyntaxPart3 { choice }
    }
}

impl DescribedChoice for ApplicationSyntaxPart3 {
    ghost alternative = { choice_of (either (alternative ⟦<Counter64 as Described>⟧.element)
        (alternative ⟦<Unsigned32 as Described>⟧.element)) (λ v. v.choice) };
}

impl<'a, R: Lends<Borrowed = &'a [u8]>> Decode<R> for ApplicationSyntaxPart3 {
    type Error = Error;

    ghost is_next = { ⟦<ApplicationSyntaxPart3 as DescribedChoice>⟧.alternative.is_next };

    ghost decode_levels = { ⟦<ApplicationSyntaxPart3 as DescribedChoice>⟧.alternative.levels };

    ghost allocates = { false };

    ghost decode_answers = { λ s result t.
        ⟦<ApplicationSyntaxPart3Alternatives as Decode<SliceReader<'a>>>⟧.decode_answers s
        (map_ok (λ v. v.choice) result) t };

    #[inline(always)]
    fn decode(alloc: Global, reader: &mut R) -> Result<Self, Error>
    where
        R: Reader,
    {
        decode_choice::<R, ApplicationSyntaxPart3Alternatives, Self>(alloc, reader)
    }
}

impl Choice for ApplicationSyntaxPart3 {
    ghost chooses = { ⟦<ApplicationSyntaxPart3 as DescribedChoice>⟧.alternative.tags };

    #[inline(always)]
    fn can_decode(tag: Tag) -> bool
        ensures { IsTrue result ↔
            ⟦<ApplicationSyntaxPart3 as DescribedChoice>⟧.alternative.tags tag }
    {
        <ApplicationSyntaxPart3Alternatives as Choice>::can_decode(tag)
    }
}

impl<'a, R: Lends<Borrowed = &'a [u8]>> DecodeChoice<R> for ApplicationSyntaxPart3 {
    ghost begins = { ⟦<ApplicationSyntaxPart3 as DescribedChoice>⟧.alternative.begins };
}

impl Encode for ApplicationSyntaxPart3 {
    ghost encoding = { λ v. ⟦<ApplicationSyntaxPart3Alternatives as Encode>⟧.encoding v.choice };

    ghost encodable = { λ v. ⟦<ApplicationSyntaxPart3Alternatives as Encode>⟧.encodable v.choice };

    ghost size = { λ v. ⟦<ApplicationSyntaxPart3Alternatives as Encode>⟧.size v.choice };

    ghost encode_answers = { λ v.
        ⟦<ApplicationSyntaxPart3Alternatives as Encode>⟧.encode_answers v.choice };

    #[inline(always)]
    fn encoded_len(&self) -> Result<Length, Error> {
        self.choice.encoded_len()
    }

    #[inline(always)]
    fn encode<W: Writer>(&self, writer: &mut W) -> Result<(), Error> {
        self.choice.encode(writer)
    }
}
