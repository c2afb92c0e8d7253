//! Written by asn1_compile from the module CMS: change the module instead.
//!
//! CertificateChoicesPart1.
ghost use Rattle.std.specs.Prelude.{◌↔◌, IsTrue, false};
ghost use Rattle.der.specs.Prelude.{map_ok};
ghost use Rattle.der_asn1.specs.Meaning.{alternative, choice_of, either};

use der::{Decode, Encode, Error, FromFields, Lends, Length, Reader, SliceReader, Tag, Writer};
use der_asn1::{
    Choice, DecodeChoice, Described, DescribedChoice, Either, Implicit, SequenceRef, decode_choice,
};
use std::alloc::Global;
use x509::Certificate;

// Some alternatives of a CertificateChoices.
#[derive(Drop)]
pub(crate) struct CertificateChoicesPart1<'a> {
    pub(crate) choice: CertificateChoicesPart1Alternatives<'a>,
}

// The alternatives, as nested choices of two.
pub(crate) type CertificateChoicesPart1Alternatives<'a> = Either<
    Certificate<'a>,
    Implicit<SequenceRef<'a>, 0>,
>;

impl<'a> FromFields<CertificateChoicesPart1Alternatives<'a>> for CertificateChoicesPart1<'a> {
    ghost fields = { λ v. v.choice };

    fn from_fields(choice: CertificateChoicesPart1Alternatives<'a>) -> Self {
        CertificateChoicesPart1 { choice }
    }
}

impl<'a> DescribedChoice for CertificateChoicesPart1<'a> {
    ghost alternative = { choice_of (either (alternative ⟦<Certificate<'a> as Described>⟧.element)
        (alternative ⟦<Implicit<SequenceRef<'a>, 0> as Described>⟧.element)) (λ v. v.choice) };
}

impl<'a, R: Lends<Borrowed = &'a [u8]>> Decode<R> for CertificateChoicesPart1<'a> {
    type Error = Error;

    ghost is_next = { ⟦<CertificateChoicesPart1<'a> as DescribedChoice>⟧.alternative.is_next };

    ghost decode_levels = { ⟦<CertificateChoicesPart1<'a> as DescribedChoice>⟧.alternative.levels };

    ghost allocates = { false };

    ghost decode_answers = { λ s result t.
        ⟦<CertificateChoicesPart1Alternatives<'a> as Decode<SliceReader<'a>>>⟧.decode_answers s
        (map_ok (λ v. v.choice) result) t };

    #[inline(always)]
    fn decode(alloc: Global, reader: &mut R) -> Result<Self, Error>
    where
        R: Reader,
    {
        decode_choice::<R, CertificateChoicesPart1Alternatives<'a>, Self>(alloc, reader)
    }
}

impl<'a> Choice for CertificateChoicesPart1<'a> {
    ghost chooses = { ⟦<CertificateChoicesPart1<'a> as DescribedChoice>⟧.alternative.tags };

    #[inline(always)]
    fn can_decode(tag: Tag) -> bool
        ensures { IsTrue result ↔
            ⟦<CertificateChoicesPart1<'a> as DescribedChoice>⟧.alternative.tags tag }
    {
        <CertificateChoicesPart1Alternatives<'a> as Choice>::can_decode(tag)
    }
}

impl<'a, R: Lends<Borrowed = &'a [u8]>> DecodeChoice<R> for CertificateChoicesPart1<'a> {
    ghost begins = { ⟦<CertificateChoicesPart1<'a> as DescribedChoice>⟧.alternative.begins };
}

impl<'a> Encode for CertificateChoicesPart1<'a> {
    ghost encoding = { λ v.
        ⟦<CertificateChoicesPart1Alternatives<'a> as Encode>⟧.encoding v.choice };

    ghost encodable = { λ v.
        ⟦<CertificateChoicesPart1Alternatives<'a> as Encode>⟧.encodable v.choice };

    ghost size = { λ v. ⟦<CertificateChoicesPart1Alternatives<'a> as Encode>⟧.size v.choice };

    ghost encode_answers = { λ v.
        ⟦<CertificateChoicesPart1Alternatives<'a> as Encode>⟧.encode_answers v.choice };

    #[inline(always)]
    fn encoded_len(&self) -> Result<Length, Error> {
        self.choice.encoded_len()
    }

    #[inline(always)]
    fn encode<W: Writer>(&self, writer: &mut W) -> Result<(), Error> {
        self.choice.encode(writer)
    }
}
