//! Written by asn1_compile from the module OCSP: change the module instead.
//!
//! CertStatusPart1.
ghost use Rattle.std.specs.Prelude.{◌↔◌, IsTrue, false};
ghost use Rattle.der.specs.Prelude.{map_ok};
ghost use Rattle.der_asn1.specs.Meaning.{alternative, choice_of, either};

use crate::asn1::revoked_info::RevokedInfo;
use der::{Decode, Encode, Error, FromFields, Lends, Length, Reader, SliceReader, Tag, Writer};
use der_asn1::{
    Choice, DecodeChoice, Described, DescribedChoice, Either, Implicit, Null, decode_choice,
};
use std::alloc::Global;

// Some alternatives of a CertStatus.
#[derive(Drop)]
pub(crate) struct CertStatusPart1<'a> {
    pub(crate) choice: CertStatusPart1Alternatives<'a>,
}

// The alternatives, as nested choices of two.
pub(crate) type CertStatusPart1Alternatives<'a> = Either<
    Implicit<Null<'a>, 0>,
    Implicit<RevokedInfo, 1>,
>;

impl<'a> FromFields<CertStatusPart1Alternatives<'a>> for CertStatusPart1<'a> {
    ghost fields = { λ v. v.choice };

    fn from_fields(choice: CertStatusPart1Alternatives<'a>) -> Self {
        CertStatusPart1 { choice }
    }
}

impl<'a> DescribedChoice for CertStatusPart1<'a> {
    ghost alternative = { choice_of (either (alternative
        ⟦<Implicit<Null<'a>, 0> as Described>⟧.element) (alternative
        ⟦<Implicit<RevokedInfo, 1> as Described>⟧.element)) (λ v. v.choice) };
}

impl<'a, R: Lends<Borrowed = &'a [u8]>> Decode<R> for CertStatusPart1<'a> {
    type Error = Error;

    ghost is_next = { ⟦<CertStatusPart1<'a> as DescribedChoice>⟧.alternative.is_next };

    ghost decode_levels = { ⟦<CertStatusPart1<'a> as DescribedChoice>⟧.alternative.levels };

    ghost allocates = { false };

    ghost decode_answers = { λ s result t.
        ⟦<CertStatusPart1Alternatives<'a> as Decode<SliceReader<'a>>>⟧.decode_answers s
        (map_ok (λ v. v.choice) result) t };

    #[inline(always)]
    fn decode(alloc: Global, reader: &mut R) -> Result<Self, Error>
    where
        R: Reader,
    {
        decode_choice::<R, CertStatusPart1Alternatives<'a>, Self>(alloc, reader)
    }
}

impl<'a> Choice for CertStatusPart1<'a> {
    ghost chooses = { ⟦<CertStatusPart1<'a> as DescribedChoice>⟧.alternative.tags };

    #[inline(always)]
    fn can_decode(tag: Tag) -> bool
        ensures { IsTrue result ↔ ⟦<CertStatusPart1<'a> as DescribedChoice>⟧.alternative.tags tag }
    {
        <CertStatusPart1Alternatives<'a> as Choice>::can_decode(tag)
    }
}

impl<'a, R: Lends<Borrowed = &'a [u8]>> DecodeChoice<R> for CertStatusPart1<'a> {
    ghost begins = { ⟦<CertStatusPart1<'a> as DescribedChoice>⟧.alternative.begins };
}

impl<'a> Encode for CertStatusPart1<'a> {
    ghost encoding = { λ v. ⟦<CertStatusPart1Alternatives<'a> as Encode>⟧.encoding v.choice };

    ghost encodable = { λ v. ⟦<CertStatusPart1Alternatives<'a> as Encode>⟧.encodable v.choice };

    ghost size = { λ v. ⟦<CertStatusPart1Alternatives<'a> as Encode>⟧.size v.choice };

    ghost encode_answers = { λ v.
        ⟦<CertStatusPart1Alternatives<'a> as Encode>⟧.encode_answers v.choice };

    #[inline(always)]
    fn encoded_len(&self) -> Result<Length, Error> {
        self.choice.encoded_len()
    }

    #[inline(always)]
    fn encode<W: Writer>(&self, writer: &mut W) -> Result<(), Error> {
        self.choice.encode(writer)
    }
}
