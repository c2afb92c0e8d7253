//! Written by asn1_compile from the module X509: change the module instead.
//!
//! GeneralNamePart3.
ghost use Rattle.std.specs.Prelude.{◌↔◌, IsTrue, false};
ghost use Rattle.der.specs.Prelude.{map_ok};
ghost use Rattle.der_asn1.specs.Meaning.{alternative, choice_of, either};

use der::{Decode, Encode, Error, FromFields, Lends, Length, Reader, SliceReader, Tag, Writer};
use der_asn1::{
    Choice, DecodeChoice, Described, DescribedChoice, Either, Ia5StringRef, Implicit,
    ObjectIdentifierRef, OctetStringRef, decode_choice,
};
use std::alloc::Global;

// Some alternatives of a GeneralName.
#[derive(Drop)]
pub(crate) struct GeneralNamePart3<'a> {
    pub(crate) choice: GeneralNamePart3Alternatives<'a>,
}

// The alternatives, as nested choices of two.
pub(crate) type GeneralNamePart3Alternatives<'a> = Either<
    Implicit<Ia5StringRef<'a>, 6>,
    Either<Implicit<OctetStringRef<'a>, 7>, Implicit<ObjectIdentifierRef<'a>, 8>>,
>;

impl<'a> FromFields<GeneralNamePart3Alternatives<'a>> for GeneralNamePart3<'a> {
    ghost fields = { λ v. v.choice };

    fn from_fields(choice: GeneralNamePart3Alternatives<'a>) -> Self {
        GeneralNamePart3 { choice }
    }
}

impl<'a> DescribedChoice for GeneralNamePart3<'a> {
    ghost alternative = { choice_of (either (alternative
        ⟦<Implicit<Ia5StringRef<'a>, 6> as Described>⟧.element) (either (alternative
        ⟦<Implicit<OctetStringRef<'a>, 7> as Described>⟧.element) (alternative
        ⟦<Implicit<ObjectIdentifierRef<'a>, 8> as Described>⟧.element))) (λ v. v.choice) };
}

impl<'a, R: Lends<Borrowed = &'a [u8]>> Decode<R> for GeneralNamePart3<'a> {
    type Error = Error;

    ghost is_next = { ⟦<GeneralNamePart3<'a> as DescribedChoice>⟧.alternative.is_next };

    ghost decode_levels = { ⟦<GeneralNamePart3<'a> as DescribedChoice>⟧.alternative.levels };

    ghost allocates = { false };

    ghost decode_answers = { λ s result t.
        ⟦<GeneralNamePart3Alternatives<'a> as Decode<SliceReader<'a>>>⟧.decode_answers s
        (map_ok (λ v. v.choice) result) t };

    #[inline(always)]
    fn decode(alloc: Global, reader: &mut R) -> Result<Self, Error>
    where
        R: Reader,
    {
        decode_choice::<R, GeneralNamePart3Alternatives<'a>, Self>(alloc, reader)
    }
}

impl<'a> Choice for GeneralNamePart3<'a> {
    ghost chooses = { ⟦<GeneralNamePart3<'a> as DescribedChoice>⟧.alternative.tags };

    #[inline(always)]
    fn can_decode(tag: Tag) -> bool
        ensures { IsTrue result ↔ ⟦<GeneralNamePart3<'a> as DescribedChoice>⟧.alternative.tags tag }
    {
        <GeneralNamePart3Alternatives<'a> as Choice>::can_decode(tag)
    }
}

impl<'a, R: Lends<Borrowed = &'a [u8]>> DecodeChoice<R> for GeneralNamePart3<'a> {
    ghost begins = { ⟦<GeneralNamePart3<'a> as DescribedChoice>⟧.alternative.begins };
}

impl<'a> Encode for GeneralNamePart3<'a> {
    ghost encoding = { λ v. ⟦<GeneralNamePart3Alternatives<'a> as Encode>⟧.encoding v.choice };

    ghost encodable = { λ v. ⟦<GeneralNamePart3Alternatives<'a> as Encode>⟧.encodable v.choice };

    ghost size = { λ v. ⟦<GeneralNamePart3Alternatives<'a> as Encode>⟧.size v.choice };

    ghost encode_answers = { λ v.
        ⟦<GeneralNamePart3Alternatives<'a> as Encode>⟧.encode_answers v.choice };

    #[inline(always)]
    fn encoded_len(&self) -> Result<Length, Error> {
        self.choice.encoded_len()
    }

    #[inline(always)]
    fn encode<W: Writer>(&self, writer: &mut W) -> Result<(), Error> {
        self.choice.encode(writer)
    }
}
