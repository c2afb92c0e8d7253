//! Written by asn1_compile from the module X509: change the module instead.
//!
//! GeneralNamePart2.
ghost use Rattle.std.specs.Prelude.{◌↔◌, IsTrue, false};
ghost use Rattle.der.specs.Prelude.{map_ok};
ghost use Rattle.der_asn1.specs.Meaning.{alternative, choice_of, either};

use crate::asn1::edi_party_name::EdiPartyName;
use crate::asn1::name::Name;
use der::{Decode, Encode, Error, FromFields, Lends, Length, Reader, SliceReader, Tag, Writer};
use der_asn1::{
    Choice, DecodeChoice, Described, DescribedChoice, Either, Explicit, Implicit, SequenceRef,
    decode_choice,
};
use std::alloc::Global;

// Some alternatives of a GeneralName.
#[derive(Drop)]
pub(crate) struct GeneralNamePart2<'a> {
    pub(crate) choice: GeneralNamePart2Alternatives<'a>,
}

// The alternatives, as nested choices of two.
pub(crate) type GeneralNamePart2Alternatives<'a> = Either<
    Implicit<SequenceRef<'a>, 3>,
    Either<Explicit<Name<'a>, 4>, Implicit<EdiPartyName<'a>, 5>>,
>;

impl<'a> FromFields<GeneralNamePart2Alternatives<'a>> for GeneralNamePart2<'a> {
    ghost fields = { λ v. v.choice };

    fn from_fields(choice: GeneralNamePart2Alternatives<'a>) -> Self {
        GeneralNamePart2 { choice }
    }
}

impl<'a> DescribedChoice for GeneralNamePart2<'a> {
    ghost alternative = { choice_of (either (alternative
        ⟦<Implicit<SequenceRef<'a>, 3> as Described>⟧.element) (either (alternative
        ⟦<Explicit<Name<'a>, 4> as Described>⟧.element) (alternative
        ⟦<Implicit<EdiPartyName<'a>, 5> as Described>⟧.element))) (λ v. v.choice) };
}

impl<'a, R: Lends<Borrowed = &'a [u8]>> Decode<R> for GeneralNamePart2<'a> {
    type Error = Error;

    ghost is_next = { ⟦<GeneralNamePart2<'a> as DescribedChoice>⟧.alternative.is_next };

    ghost decode_levels = { ⟦<GeneralNamePart2<'a> as DescribedChoice>⟧.alternative.levels };

    ghost allocates = { false };

    ghost decode_answers = { λ s result t.
        ⟦<GeneralNamePart2Alternatives<'a> as Decode<SliceReader<'a>>>⟧.decode_answers s
        (map_ok (λ v. v.choice) result) t };

    #[inline(always)]
    fn decode(alloc: Global, reader: &mut R) -> Result<Self, Error>
    where
        R: Reader,
    {
        decode_choice::<R, GeneralNamePart2Alternatives<'a>, Self>(alloc, reader)
    }
}

impl<'a> Choice for GeneralNamePart2<'a> {
    ghost chooses = { ⟦<GeneralNamePart2<'a> as DescribedChoice>⟧.alternative.tags };

    #[inline(always)]
    fn can_decode(tag: Tag) -> bool
        ensures { IsTrue result ↔ ⟦<GeneralNamePart2<'a> as DescribedChoice>⟧.alternative.tags tag }
    {
        <GeneralNamePart2Alternatives<'a> as Choice>::can_decode(tag)
    }
}

impl<'a, R: Lends<Borrowed = &'a [u8]>> DecodeChoice<R> for GeneralNamePart2<'a> {
    ghost begins = { ⟦<GeneralNamePart2<'a> as DescribedChoice>⟧.alternative.begins };
}

impl<'a> Encode for GeneralNamePart2<'a> {
    ghost encoding = { λ v. ⟦<GeneralNamePart2Alternatives<'a> as Encode>⟧.encoding v.choice };

    ghost encodable = { λ v. ⟦<GeneralNamePart2Alternatives<'a> as Encode>⟧.encodable v.choice };

    ghost size = { λ v. ⟦<GeneralNamePart2Alternatives<'a> as Encode>⟧.size v.choice };

    ghost encode_answers = { λ v.
        ⟦<GeneralNamePart2Alternatives<'a> as Encode>⟧.encode_answers v.choice };

    #[inline(always)]
    fn encoded_len(&self) -> Result<Length, Error> {
        self.choice.encoded_len()
    }

    #[inline(always)]
    fn encode<W: Writer>(&self, writer: &mut W) -> Result<(), Error> {
        self.choice.encode(writer)
    }
}
