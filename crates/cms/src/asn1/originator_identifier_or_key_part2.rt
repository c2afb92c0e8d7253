//! Written by asn1_compile from the module CMS: change the module instead.
//!
//! OriginatorIdentifierOrKeyPart2.
ghost use Rattle.std.specs.Prelude.{◌↔◌, IsTrue, false};
ghost use Rattle.der.specs.Prelude.{map_ok};
ghost use Rattle.der_asn1.specs.Meaning.{alternative, choice_of};

use crate::asn1::originator_public_key::OriginatorPublicKey;
use der::{Decode, Encode, Error, FromFields, Lends, Length, Reader, SliceReader, Tag, Writer};
use der_asn1::{Choice, DecodeChoice, Described, DescribedChoice, Implicit, decode_choice};
use std::alloc::Global;

// Some alternatives of a OriginatorIdentifierOrKey.
#[derive(Drop)]
pub(crate) struct OriginatorIdentifierOrKeyPart2<'a> {
    pub(crate) choice: OriginatorIdentifierOrKeyPart2Alternatives<'a>,
}

// The alternatives, as nested choices of two.
pub(crate) type OriginatorIdentifierOrKeyPart2Alternatives<'a> = Implicit<
    OriginatorPublicKey<'a>,
    1,
>;

impl<'a> FromFields<OriginatorIdentifierOrKeyPart2Alternatives<'a>>
    for OriginatorIdentifierOrKeyPart2<'a> {
    ghost fields = { λ v. v.choice };

    fn from_fields(choice: OriginatorIdentifierOrKeyPart2Alternatives<'a>) -> Self {
        OriginatorIdentifierOrKeyPart2 { choice }
    }
}

impl<'a> DescribedChoice for OriginatorIdentifierOrKeyPart2<'a> {
    ghost alternative = { choice_of (alternative
        ⟦<Implicit<OriginatorPublicKey<'a>, 1> as Described>⟧.element) (λ v. v.choice) };
}

impl<'a, R: Lends<Borrowed = &'a [u8]>> Decode<R> for OriginatorIdentifierOrKeyPart2<'a> {
    type Error = Error;

    ghost is_next = { ⟦<OriginatorIdentifierOrKeyPart2<'a> as DescribedChoice>⟧.alternative.is_next };

    ghost decode_levels = { ⟦<OriginatorIdentifierOrKeyPart2<'a> as DescribedChoice>⟧.alternative.levels };

    ghost allocates = { false };

    ghost decode_answers = { λ s result t.
        ⟦<OriginatorIdentifierOrKeyPart2Alternatives<'a> as Decode<SliceReader<'a>>>⟧.decode_answers s
        (map_ok (λ v. v.choice) result) t };

    #[inline(always)]
    fn decode(alloc: Global, reader: &mut R) -> Result<Self, Error>
    where
        R: Reader,
    {
        decode_choice::<R, OriginatorIdentifierOrKeyPart2Alternatives<'a>, Self>(alloc, reader)
    }
}

impl<'a> Choice for OriginatorIdentifierOrKeyPart2<'a> {
    ghost chooses = { ⟦<OriginatorIdentifierOrKeyPart2<'a> as DescribedChoice>⟧.alternative.tags };

    #[inline(always)]
    fn can_decode(tag: Tag) -> bool
        ensures { IsTrue result ↔
            ⟦<OriginatorIdentifierOrKeyPart2<'a> as DescribedChoice>⟧.alternative.tags tag }
    {
        <OriginatorIdentifierOrKeyPart2Alternatives<'a> as Choice>::can_decode(tag)
    }
}

impl<'a, R: Lends<Borrowed = &'a [u8]>> DecodeChoice<R> for OriginatorIdentifierOrKeyPart2<'a> {
    ghost begins = { ⟦<OriginatorIdentifierOrKeyPart2<'a> as DescribedChoice>⟧.alternative.begins };
}

impl<'a> Encode for OriginatorIdentifierOrKeyPart2<'a> {
    ghost encoding = { λ v.
        ⟦<OriginatorIdentifierOrKeyPart2Alternatives<'a> as Encode>⟧.encoding v.choice };

    ghost encodable = { λ v.
        ⟦<OriginatorIdentifierOrKeyPart2Alternatives<'a> as Encode>⟧.encodable v.choice };

    ghost size = { λ v.
        ⟦<OriginatorIdentifierOrKeyPart2Alternatives<'a> as Encode>⟧.size v.choice };

    ghost encode_answers = { λ v.
        ⟦<OriginatorIdentifierOrKeyPart2Alternatives<'a> as Encode>⟧.encode_answers v.choice };

    #[inline(always)]
    fn encoded_len(&self) -> Result<Length, Error> {
        self.choice.encoded_len()
    }

    #[inline(always)]
    fn encode<W: Writer>(&self, writer: &mut W) -> Result<(), Error> {
        self.choice.encode(writer)
    }
}
