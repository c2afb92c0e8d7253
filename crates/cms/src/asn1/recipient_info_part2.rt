//! Written by asn1_compile from the module CMS: change the module instead.
//!
//! RecipientInfoPart2.
ghost use Rattle.std.specs.Prelude.{◌↔◌, IsTrue, false};
ghost use Rattle.der.specs.Prelude.{map_ok};
ghost use Rattle.der_asn1.specs.Meaning.{alternative, choice_of, either};

use crate::asn1::kek_recipient_info::KekRecipientInfo;
use crate::asn1::password_recipient_info::PasswordRecipientInfo;
use der::{Decode, Encode, Error, FromFields, Lends, Length, Reader, SliceReader, Tag, Writer};
use der_asn1::{Choice, DecodeChoice, Described, DescribedChoice, Either, Implicit, decode_choice};
use std::alloc::Global;

// Some alternatives of a RecipientInfo.
#[derive(Drop)]
pub(crate) struct RecipientInfoPart2<'a> {
    pub(crate) choice: RecipientInfoPart2Alternatives<'a>,
}

// The alternatives, as nested choices of two.
pub(crate) type RecipientInfoPart2Alternatives<'a> = Either<
    Implicit<KekRecipientInfo<'a>, 2>,
    Implicit<PasswordRecipientInfo<'a>, 3>,
>;

impl<'a> FromFields<RecipientInfoPart2Alternatives<'a>> for RecipientInfoPart2<'a> {
    ghost fields = { λ v. v.choice };

    fn from_fields(choice: RecipientInfoPart2Alternatives<'a>) -> Self {
        RecipientInfoPart2 { choice }
    }
}

impl<'a> DescribedChoice for RecipientInfoPart2<'a> {
    ghost alternative = { choice_of (either (alternative
        ⟦<Implicit<KekRecipientInfo<'a>, 2> as Described>⟧.element) (alternative
        ⟦<Implicit<PasswordRecipientInfo<'a>, 3> as Described>⟧.element)) (λ v. v.choice) };
}

impl<'a, R: Lends<Borrowed = &'a [u8]>> Decode<R> for RecipientInfoPart2<'a> {
    type Error = Error;

    ghost is_next = { ⟦<RecipientInfoPart2<'a> as DescribedChoice>⟧.alternative.is_next };

    ghost decode_levels = { ⟦<RecipientInfoPart2<'a> as DescribedChoice>⟧.alternative.levels };

    ghost allocates = { false };

    ghost decode_answers = { λ s result t.
        ⟦<RecipientInfoPart2Alternatives<'a> as Decode<SliceReader<'a>>>⟧.decode_answers s
        (map_ok (λ v. v.choice) result) t };

    #[inline(always)]
    fn decode(alloc: Global, reader: &mut R) -> Result<Self, Error>
    where
        R: Reader,
    {
        decode_choice::<R, RecipientInfoPart2Alternatives<'a>, Self>(alloc, reader)
    }
}

impl<'a> Choice for RecipientInfoPart2<'a> {
    ghost chooses = { ⟦<RecipientInfoPart2<'a> as DescribedChoice>⟧.alternative.tags };

    #[inline(always)]
    fn can_decode(tag: Tag) -> bool
        ensures { IsTrue result ↔
            ⟦<RecipientInfoPart2<'a> as DescribedChoice>⟧.alternative.tags tag }
    {
        <RecipientInfoPart2Alternatives<'a> as Choice>::can_decode(tag)
    }
}

impl<'a, R: Lends<Borrowed = &'a [u8]>> DecodeChoice<R> for RecipientInfoPart2<'a> {
    ghost begins = { ⟦<RecipientInfoPart2<'a> as DescribedChoice>⟧.alternative.begins };
}

impl<'a> Encode for RecipientInfoPart2<'a> {
    ghost encoding = { λ v. ⟦<RecipientInfoPart2Alternatives<'a> as Encode>⟧.encoding v.choice };

    ghost encodable = { λ v. ⟦<RecipientInfoPart2Alternatives<'a> as Encode>⟧.encodable v.choice };

    ghost size = { λ v. ⟦<RecipientInfoPart2Alternatives<'a> as Encode>⟧.size v.choice };

    ghost encode_answers = { λ v.
        ⟦<RecipientInfoPart2Alternatives<'a> as Encode>⟧.encode_answers v.choice };

    #[inline(always)]
    fn encoded_len(&self) -> Result<Length, Error> {
        self.choice.encoded_len()
    }

    #[inline(always)]
    fn encode<W: Writer>(&self, writer: &mut W) -> Result<(), Error> {
        self.choice.encode(writer)
    }
}
