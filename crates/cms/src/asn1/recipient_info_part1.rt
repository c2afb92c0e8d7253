//! Written by asn1_compile from the module CMS: change the module instead.
//!
//! RecipientInfoPart1.
ghost use Rattle.std.specs.Prelude.{◌↔◌, IsTrue, false};
ghost use Rattle.der.specs.Prelude.{map_ok};
ghost use Rattle.der_asn1.specs.Meaning.{alternative, choice_of, either};

use crate::asn1::key_agree_recipient_info::KeyAgreeRecipientInfo;
use crate::asn1::key_trans_recipient_info::KeyTransRecipientInfo;
use der::{Decode, Encode, Error, FromFields, Lends, Length, Reader, SliceReader, Tag, Writer};
use der_asn1::{Choice, DecodeChoice, Described, DescribedChoice, Either, Implicit, decode_choice};
use std::alloc::Global;

// Some alternatives of a RecipientInfo.
#[derive(Drop)]
pub(crate) struct RecipientInfoPart1<'a> {
    pub(crate) choice: RecipientInfoPart1Alternatives<'a>,
}

// The alternatives, as nested choices of two.
pub(crate) type RecipientInfoPart1Alternatives<'a> = Either<
    KeyTransRecipientInfo<'a>,
    Implicit<KeyAgreeRecipientInfo<'a>, 1>,
>;

impl<'a> FromFields<RecipientInfoPart1Alternatives<'a>> for RecipientInfoPart1<'a> {
    ghost fields = { λ v. v.choice };

    fn from_fields(choice: RecipientInfoPart1Alternatives<'a>) -> Self {
        RecipientInfoPart1 { choice }
    }
}

impl<'a> DescribedChoice for RecipientInfoPart1<'a> {
    ghost alternative = { choice_of (either (alternative
        ⟦<KeyTransRecipientInfo<'a> as Described>⟧.element) (alternative
        ⟦<Implicit<KeyAgreeRecipientInfo<'a>, 1> as Described>⟧.element)) (λ v. v.choice) };
}

impl<'a, R: Lends<Borrowed = &'a [u8]>> Decode<R> for RecipientInfoPart1<'a> {
    type Error = Error;

    ghost is_next = { ⟦<RecipientInfoPart1<'a> as DescribedChoice>⟧.alternative.is_next };

    ghost decode_levels = { ⟦<RecipientInfoPart1<'a> as DescribedChoice>⟧.alternative.levels };

    ghost allocates = { false };

    ghost decode_answers = { λ s result t.
        ⟦<RecipientInfoPart1Alternatives<'a> as Decode<SliceReader<'a>>>⟧.decode_answers s
        (map_ok (λ v. v.choice) result) t };

    #[inline(always)]
    fn decode(alloc: Global, reader: &mut R) -> Result<Self, Error>
    where
        R: Reader,
    {
        decode_choice::<R, RecipientInfoPart1Alternatives<'a>, Self>(alloc, reader)
    }
}

impl<'a> Choice for RecipientInfoPart1<'a> {
    ghost chooses = { ⟦<RecipientInfoPart1<'a> as DescribedChoice>⟧.alternative.tags };

    #[inline(always)]
    fn can_decode(tag: Tag) -> bool
        ensures { IsTrue result ↔
            ⟦<RecipientInfoPart1<'a> as DescribedChoice>⟧.alternative.tags tag }
    {
        <RecipientInfoPart1Alternatives<'a> as Choice>::can_decode(tag)
    }
}

impl<'a, R: Lends<Borrowed = &'a [u8]>> DecodeChoice<R> for RecipientInfoPart1<'a> {
    ghost begins = { ⟦<RecipientInfoPart1<'a> as DescribedChoice>⟧.alternative.begins };
}

impl<'a> Encode for RecipientInfoPart1<'a> {
    ghost encoding = { λ v. ⟦<RecipientInfoPart1Alternatives<'a> as Encode>⟧.encoding v.choice };

    ghost encodable = { λ v. ⟦<RecipientInfoPart1Alternatives<'a> as Encode>⟧.encodable v.choice };

    ghost size = { λ v. ⟦<RecipientInfoPart1Alternatives<'a> as Encode>⟧.size v.choice };

    ghost encode_answers = { λ v.
        ⟦<RecipientInfoPart1Alternatives<'a> as Encode>⟧.encode_answers v.choice };

    #[inline(always)]
    fn encoded_len(&self) -> Result<Length, Error> {
        self.choice.encoded_len()
    }

    #[inline(always)]
    fn encode<W: Writer>(&self, writer: &mut W) -> Result<(), Error> {
        self.choice.encode(writer)
    }
}
