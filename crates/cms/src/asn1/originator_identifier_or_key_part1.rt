//! Written by asn1_compile from the module CMS: change the module instead.
//!
//! OriginatorIdentifierOrKeyPart1.
ghost use Rattle.std.specs.Prelude.{◌↔◌, IsTrue, false};
ghost use Rattle.der.specs.Prelude.{map_ok};
ghost use Rattle.der_asn1.specs.Meaning.{alternative, choice_of, either};

use crate::asn1::issuer_and_serial_number::IssuerAndSerialNumber;
use der::{Decode, Encode, Error, FromFields, Lends, Length, Reader, SliceReader, Tag, Writer};
use der_asn1::{Choice, DecodeChoice, Described, DescribedChoice, Either, Implicit, decode_choice};
use std::alloc::Global;
use x509::SubjectKeyIdentifier;

// Some alternatives of a OriginatorIdentifierOrKey.
#[derive(Drop)]
pub(crate) struct OriginatorIdentifierOrKeyPart1<'a> {
    pub(crate) choice: OriginatorIdentifierOrKeyPart1Alternatives<'a>,
}

// The alternatives, as nested choices of two.
pub(crate) type OriginatorIdentifierOrKeyPart1Alternatives<'a> = Either<
    IssuerAndSerialNumber<'a>,
    Implicit<SubjectKeyIdentifier<'a>, 0>,
>;

impl<'a> FromFields<OriginatorIdentifierOrKeyPart1Alternatives<'a>>
    for OriginatorIdentifierOrKeyPart1<'a> {
    ghost fields = { λ v. v.choice };

    fn from_fields(choice: OriginatorIdentifierOrKeyPart1Alternatives<'a>) -> Self {
        OriginatorIdentifierOrKeyPart1 { choice }
    }
}

impl<'a> DescribedChoice for OriginatorIdentifierOrKeyPart1<'a> {
    ghost alternative = { choice_of (either (alternative
        ⟦<IssuerAndSerialNumber<'a> as Described>⟧.element) (alternative
        ⟦<Implicit<SubjectKeyIdentifier<'a>, 0> as Described>⟧.element)) (λ v. v.choice) };
}

impl<'a, R: Lends<Borrowed = &'a [u8]>> Decode<R> for OriginatorIdentifierOrKeyPart1<'a> {
    type Error = Error;

    ghost is_next = { ⟦<OriginatorIdentifierOrKeyPart1<'a> as DescribedChoice>⟧.alternative.is_next };

    ghost decode_levels = { ⟦<OriginatorIdentifierOrKeyPart1<'a> as DescribedChoice>⟧.alternative.levels };

    ghost allocates = { false };

    ghost decode_answers = { λ s result t.
        ⟦<OriginatorIdentifierOrKeyPart1Alternatives<'a> as Decode<SliceReader<'a>>>⟧.decode_answers s
        (map_ok (λ v. v.choice) result) t };

    #[inline(always)]
    fn decode(alloc: Global, reader: &mut R) -> Result<Self, Error>
    where
        R: Reader,
    {
        decode_choice::<R, OriginatorIdentifierOrKeyPart1Alternatives<'a>, Self>(alloc, reader)
    }
}

impl<'a> Choice for OriginatorIdentifierOrKeyPart1<'a> {
    ghost chooses = { ⟦<OriginatorIdentifierOrKeyPart1<'a> as DescribedChoice>⟧.alternative.tags };

    #[inline(always)]
    fn can_decode(tag: Tag) -> bool
        ensures { IsTrue result ↔
            ⟦<OriginatorIdentifierOrKeyPart1<'a> as DescribedChoice>⟧.alternative.tags tag }
    {
        <OriginatorIdentifierOrKeyPart1Alternatives<'a> as Choice>::can_decode(tag)
    }
}

impl<'a, R: Lends<Borrowed = &'a [u8]>> DecodeChoice<R> for OriginatorIdentifierOrKeyPart1<'a> {
    ghost begins = { ⟦<OriginatorIdentifierOrKeyPart1<'a> as DescribedChoice>⟧.alternative.begins };
}

impl<'a> Encode for OriginatorIdentifierOrKeyPart1<'a> {
    ghost encoding = { λ v.
        ⟦<OriginatorIdentifierOrKeyPart1Alternatives<'a> as Encode>⟧.encoding v.choice };

    ghost encodable = { λ v.
        ⟦<OriginatorIdentifierOrKeyPart1Alternatives<'a> as Encode>⟧.encodable v.choice };

    ghost size = { λ v.
        ⟦<OriginatorIdentifierOrKeyPart1Alternatives<'a> as Encode>⟧.size v.choice };

    ghost encode_answers = { λ v.
        ⟦<OriginatorIdentifierOrKeyPart1Alternatives<'a> as Encode>⟧.encode_answers v.choice };

    #[inline(always)]
    fn encoded_len(&self) -> Result<Length, Error> {
        self.choice.encoded_len()
    }

    #[inline(always)]
    fn encode<W: Writer>(&self, writer: &mut W) -> Result<(), Error> {
        self.choice.encode(writer)
    }
}
