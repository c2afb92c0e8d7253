//! Written by asn1_compile from the module SNMPv2-PDU: change the module instead.
//!
//! ApplicationSyntaxPart1.
ghost use Rattle.std.specs.Prelude.{◌↔◌, IsTrue, false};
ghost use Rattle.der.specs.Prelude.{map_ok};
ghost use Rattle.der_asn1.specs.Meaning.{alternative, choice_of, either};

use crate::asn1::counter32::Counter32;
use crate::asn1::ip_address::IpAddress;
use der::{Decode, Encode, Error, FromFields, Lends, Length, Reader, SliceReader, Tag, Writer};
use der_asn1::{Choice, DecodeChoice, Described, DescribedChoice, Either, decode_choice};
use std::alloc::Global;

// Some alternatives of a ApplicationSyntax.
#[derive(Drop)]
pub(crate) struct ApplicationSyntaxPart1<'a> {
    pub(crate) choice: ApplicationSyntaxPart1Alternatives<'a>,
}

// The alternatives, as nested choices of two.
pub(crate) type ApplicationSyntaxPart1Alternatives<'a> = Either<IpAddress<'a>, Counter32>;

impl<'a> FromFields<ApplicationSyntaxPart1Alternatives<'a>> for ApplicationSyntaxPart1<'a> {
    ghost fields = { λ v. v.choice };

    fn from_fields(choice: ApplicationSyntaxPart1Alternatives<'a>) -> Self {
        ApplicationSyntaxPart1 { choice }
    }
}

impl<'a> DescribedChoice for ApplicationSyntaxPart1<'a> {
    ghost alternative = { choice_of (either (alternative ⟦<IpAddress<'a> as Described>⟧.element)
        (alternative ⟦<Counter32 as Described>⟧.element)) (λ v. v.choice) };
}

impl<'a, R: Lends<Borrowed = &'a [u8]>> Decode<R> for ApplicationSyntaxPart1<'a> {
    type Error = Error;

    ghost is_next = { ⟦<ApplicationSyntaxPart1<'a> as DescribedChoice>⟧.alternative.is_next };

    ghost decode_levels = { ⟦<ApplicationSyntaxPart1<'a> as DescribedChoice>⟧.alternative.levels };

    ghost allocates = { false };

    ghost decode_answers = { λ s result t.
        ⟦<ApplicationSyntaxPart1Alternatives<'a> as Decode<SliceReader<'a>>>⟧.decode_answers s
        (map_ok (λ v. v.choice) result) t };

    #[inline(always)]
    fn decode(alloc: Global, reader: &mut R) -> Result<Self, Error>
    where
        R: Reader,
    {
        decode_choice::<R, ApplicationSyntaxPart1Alternatives<'a>, Self>(alloc, reader)
    }
}

impl<'a> Choice for ApplicationSyntaxPart1<'a> {
    ghost chooses = { ⟦<ApplicationSyntaxPart1<'a> as DescribedChoice>⟧.alternative.tags };

    #[inline(always)]
    fn can_decode(tag: Tag) -> bool
        ensures { IsTrue result ↔
            ⟦<ApplicationSyntaxPart1<'a> as DescribedChoice>⟧.alternative.tags tag }
    {
        <ApplicationSyntaxPart1Alternatives<'a> as Choice>::can_decode(tag)
    }
}

impl<'a, R: Lends<Borrowed = &'a [u8]>> DecodeChoice<R> for ApplicationSyntaxPart1<'a> {
    ghost begins = { ⟦<ApplicationSyntaxPart1<'a> as DescribedChoice>⟧.alternative.begins };
}

impl<'a> Encode for ApplicationSyntaxPart1<'a> {
    ghost encoding = { λ v.
        ⟦<ApplicationSyntaxPart1Alternatives<'a> as Encode>⟧.encoding v.choice };

    ghost encodable = { λ v.
        ⟦<ApplicationSyntaxPart1Alternatives<'a> as Encode>⟧.encodable v.choice };

    ghost size = { λ v. ⟦<ApplicationSyntaxPart1Alternatives<'a> as Encode>⟧.size v.choice };

    ghost encode_answers = { λ v.
        ⟦<ApplicationSyntaxPart1Alternatives<'a> as Encode>⟧.encode_answers v.choice };

    #[inline(always)]
    fn encoded_len(&self) -> Result<Length, Error> {
        self.choice.encoded_len()
    }

    #[inline(always)]
    fn encode<W: Writer>(&self, writer: &mut W) -> Result<(), Error> {
        self.choice.encode(writer)
    }
}
