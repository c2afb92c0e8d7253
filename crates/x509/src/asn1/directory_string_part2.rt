//! Written by asn1_compile from the module X509: change the module instead.
//!
//! DirectoryStringPart2.
ghost use Rattle.std.specs.Prelude.{◌↔◌, IsTrue, false};
ghost use Rattle.der.specs.Prelude.{map_ok};
ghost use Rattle.der_asn1.specs.Meaning.{alternative, choice_of, either};

use der::{Decode, Encode, Error, FromFields, Lends, Length, Reader, SliceReader, Tag, Writer};
use der_asn1::{
    BmpStringRef, Choice, DecodeChoice, Described, DescribedChoice, Either, Utf8StringRef,
    decode_choice,
};
use std::alloc::Global;

// Some alternatives of a DirectoryString.
#[derive(Drop)]
pub(crate) struct DirectoryStringPart2<'a> {
    pub(crate) choice: DirectoryStringPart2Alternatives<'a>,
}

// The alternatives, as nested choices of two.
pub(crate) type DirectoryStringPart2Alternatives<'a> = Either<Utf8StringRef<'a>, BmpStringRef<'a>>;

impl<'a> FromFields<DirectoryStringPart2Alternatives<'a>> for DirectoryStringPart2<'a> {
    ghost fields = { λ v. v.choice };

    fn from_fields(choice: DirectoryStringPart2Alternatives<'a>) -> Self {
        DirectoryStringPart2 { choice }
    }
}

impl<'a> DescribedChoice for DirectoryStringPart2<'a> {
    ghost alternative = { choice_of (either (alternative ⟦<Utf8StringRef<'a> as Described>⟧.element)
        (alternative ⟦<BmpStringRef<'a> as Described>⟧.element)) (λ v. v.choice) };
}

impl<'a, R: Lends<Borrowed = &'a [u8]>> Decode<R> for DirectoryStringPart2<'a> {
    type Error = Error;

    ghost is_next = { ⟦<DirectoryStringPart2<'a> as DescribedChoice>⟧.alternative.is_next };

    ghost decode_levels = { ⟦<DirectoryStringPart2<'a> as DescribedChoice>⟧.alternative.levels };

    ghost allocates = { false };

    ghost decode_answers = { λ s result t.
        ⟦<DirectoryStringPart2Alternatives<'a> as Decode<SliceReader<'a>>>⟧.decode_answers s
        (map_ok (λ v. v.choice) result) t };

    #[inline(always)]
    fn decode(alloc: Global, reader: &mut R) -> Result<Self, Error>
    where
        R: Reader,
    {
        decode_choice::<R, DirectoryStringPart2Alternatives<'a>, Self>(alloc, reader)
    }
}

impl<'a> Choice for DirectoryStringPart2<'a> {
    ghost chooses = { ⟦<DirectoryStringPart2<'a> as DescribedChoice>⟧.alternative.tags };

    #[inline(always)]
    fn can_decode(tag: Tag) -> bool
        ensures { IsTrue result ↔
            ⟦<DirectoryStringPart2<'a> as DescribedChoice>⟧.alternative.tags tag }
    {
        <DirectoryStringPart2Alternatives<'a> as Choice>::can_decode(tag)
    }
}

impl<'a, R: Lends<Borrowed = &'a [u8]>> DecodeChoice<R> for DirectoryStringPart2<'a> {
    ghost begins = { ⟦<DirectoryStringPart2<'a> as DescribedChoice>⟧.alternative.begins };
}

impl<'a> Encode for DirectoryStringPart2<'a> {
    ghost encoding = { λ v. ⟦<DirectoryStringPart2Alternatives<'a> as Encode>⟧.encoding v.choice };

    ghost encodable = { λ v.
        ⟦<DirectoryStringPart2Alternatives<'a> as Encode>⟧.encodable v.choice };

    ghost size = { λ v. ⟦<DirectoryStringPart2Alternatives<'a> as Encode>⟧.size v.choice };

    ghost encode_answers = { λ v.
        ⟦<DirectoryStringPart2Alternatives<'a> as Encode>⟧.encode_answers v.choice };

    #[inline(always)]
    fn encoded_len(&self) -> Result<Length, Error> {
        self.choice.encoded_len()
    }

    #[inline(always)]
    fn encode<W: Writer>(&self, writer: &mut W) -> Result<(), Error> {
        self.choice.encode(writer)
    }
}
