//! Written by asn1_compile from the module CMS: change the module instead.
//!
//! CertificateChoicesPart3.
ghost use Rattle.std.specs.Prelude.{◌↔◌, IsTrue, false};
ghost use Rattle.der.specs.Prelude.{map_ok};
ghost use Rattle.der_asn1.specs.Meaning.{alternative, choice_of};

use crate::asn1::other_certificate_format::OtherCertificateFormat;
use der::{Decode, Encode, Error, FromFields, Lends, Length, Reader, SliceReader, Tag, Writer};
use der_asn1::{Choice, DecodeChoice, Described, DescribedChoice, Implicit, decode_choice};
use std::alloc::Global;

// Some alternatives of a CertificateChoices.
#[derive(Drop)]
pub(crate) struct CertificateChoicesPart3<'a> {
    pub(crate) choice: CertificateChoicesPart3Alternatives<'a>,
}

// The alternatives, as nested choices of two.
pub(crate) type CertificateChoicesPart3Alternatives<'a> = Implicit<OtherCertificateFormat<'a>, 3>;

impl<'a> FromFields<CertificateChoicesPart3Alternatives<'a>> for CertificateChoicesPart3<'a> {
    ghost fields = { λ v. v.choice };

    fn from_fields(choice: CertificateChoicesPart3Alternatives<'a>) -> Self {
        CertificateChoicesPart3 { choice }
    }
}

impl<'a> DescribedChoice for CertificateChoicesPart3<'a> {
    ghost alternative = { choice_of (alternative
        ⟦<Implicit<OtherCertificateFormat<'a>, 3> as Described>⟧.element) (λ v. v.choice) };
}

impl<'a, R: Lends<Borrowed = &'a [u8]>> Decode<R> for CertificateChoicesPart3<'a> {
    type Error = Error;

    ghost is_next = { ⟦<CertificateChoicesPart3<'a> as DescribedChoice>⟧.alternative.is_next };

    ghost decode_levels = { ⟦<CertificateChoicesPart3<'a> as DescribedChoice>⟧.alternative.levels };

    ghost allocates = { false };

    ghost decode_answers = { λ s result t.
        ⟦<CertificateChoicesPart3Alternatives<'a> as Decode<SliceReader<'a>>>⟧.decode_answers s
        (map_ok (λ v. v.choice) result) t };

    #[inline(always)]
    fn decode(alloc: Global, reader: &mut R) -> Result<Self, Error>
    where
        R: Reader,
    {
        decode_choice::<R, CertificateChoicesPart3Alternatives<'a>, Self>(alloc, reader)
    }
}

impl<'a> Choice for CertificateChoicesPart3<'a> {
    ghost chooses = { ⟦<CertificateChoicesPart3<'a> as DescribedChoice>⟧.alternative.tags };

    #[inline(always)]
    fn can_decode(tag: Tag) -> bool
        ensures { IsTrue result ↔
            ⟦<CertificateChoicesPart3<'a> as DescribedChoice>⟧.alternative.tags tag }
    {
        <CertificateChoicesPart3Alternatives<'a> as Choice>::can_decode(tag)
    }
}

impl<'a, R: Lends<Borrowed = &'a [u8]>> DecodeChoice<R> for CertificateChoicesPart3<'a> {
    ghost begins = { ⟦<CertificateChoicesPart3<'a> as DescribedChoice>⟧.alternative.begins };
}

impl<'a> Encode for CertificateChoicesPart3<'a> {
    ghost encoding = { λ v.
        ⟦<CertificateChoicesPart3Alternatives<'a> as Encode>⟧.encoding v.choice };

    ghost encodable = { λ v.
        ⟦<CertificateChoicesPart3Alternatives<'a> as Encode>⟧.encodable v.choice };

    ghost size = { λ v. ⟦<CertificateChoicesPart3Alternatives<'a> as Encode>⟧.size v.choice };

    ghost encode_answers = { λ v.
        ⟦<CertificateChoicesPart3Alternatives<'a> as Encode>⟧.encode_answers v.choice };

    #[inline(always)]
    fn encoded_len(&self) -> Result<Length, Error> {
        self.choice.encoded_len()
    }

    #[inline(always)]
    fn encode<W: Writer>(&self, writer: &mut W) -> Result<(), Error> {
        self.choice.encode(writer)
    }
}
