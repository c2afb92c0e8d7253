//! Written by asn1_compile from the module CMS: change the module instead.
//!
//! RecipientInfo.
ghost use Rattle.std.specs.Prelude.{◌↔◌, IsTrue, false};
ghost use Rattle.std.proofs.Common.{refl};
ghost use Rattle.der.specs.Prelude.{map_ok};
ghost use Rattle.der_asn1.specs.Item.{decodes_same};
ghost use Rattle.der_asn1.specs.Meaning.{alternative, choice_is_item, choice_item, choice_of, either};
ghost use Rattle.der_asn1.specs.declared.fields.either.Either.TheVariants.{First, Second};
ghost use Rattle.cms.specs.declared.asn1.recipient_info.RecipientInfo.TheVariants as variant;

use crate::asn1::kek_recipient_info::KekRecipientInfo;
use crate::asn1::key_agree_recipient_info::KeyAgreeRecipientInfo;
use crate::asn1::key_trans_recipient_info::KeyTransRecipientInfo;
use crate::asn1::other_recipient_info::OtherRecipientInfo;
use crate::asn1::password_recipient_info::PasswordRecipientInfo;
use crate::asn1::recipient_info_part1::RecipientInfoPart1;
use crate::asn1::recipient_info_part2::RecipientInfoPart2;
use crate::asn1::recipient_info_part3::RecipientInfoPart3;
use der::{Decode, Encode, Error, FromFields, Lends, Length, Reader, SliceReader, Tag, Writer};
use der_asn1::{
    BorrowedItem, Choice, DecodeChoice, DecodeItem, DescribedChoice, Either, Implicit, Item,
    WrittenItem, decode_choice,
};
use std::alloc::Global;

/// The key of a content, encrypted for one recipient in one of five ways (RFC 5652, 6.2), borrowed
/// from the input.
#[derive(Clone, Copy, Debug, Drop, PartialEq, Eq)]
pub enum RecipientInfo<'a> {
    /// The key is encrypted with the public key of the recipient.
    Ktri(KeyTransRecipientInfo<'a>),
    /// The key is encrypted with a key that the originator and the recipient agree on.
    Kari(Implicit<KeyAgreeRecipientInfo<'a>, 1>),
    /// The key is encrypted with a key that the originator and the recipient share already.
    Kekri(Implicit<KekRecipientInfo<'a>, 2>),
    /// The key is encrypted with a key that is derived from a password.
    Pwri(Implicit<PasswordRecipientInfo<'a>, 3>),
    /// The key is encrypted in another way, which an object identifier names.
    Ori(Implicit<OtherRecipientInfo<'a>, 4>),
}

// The alternatives, as nested choices of two.
pub(crate) type RecipientInfoAlternatives<'a> = Either<
    RecipientInfoPart1<'a>,
    Either<RecipientInfoPart2<'a>, RecipientInfoPart3<'a>>,
>;

impl<'a> FromFields<RecipientInfoAlternatives<'a>> for RecipientInfo<'a> {
    ghost fields = { elim [
      | variant.Ktri v ↦ First ((record { choice = First (v) }))
      | variant.Kari v ↦ First ((record { choice = Second (v) }))
      | variant.Kekri v ↦ Second (First ((record { choice = First (v) })))
      | variant.Pwri v ↦ Second (First ((record { choice = Second (v) })))
      | variant.Ori v ↦ Second (Second ((record { choice = v })))
    ] };

    fn from_fields(alternatives: RecipientInfoAlternatives<'a>) -> Self {
        match alternatives {
            Either::First(
                RecipientInfoPart1 {
                    choice: Either::First(value),
                },
            ) => RecipientInfo::Ktri(value),
            Either::First(
                RecipientInfoPart1 {
                    choice: Either::Second(value),
                },
            ) => RecipientInfo::Kari(value),
            Either::Second(
                Either::First(
                    RecipientInfoPart2 {
                        choice: Either::First(value),
                    },
                ),
            ) => RecipientInfo::Kekri(value),
            Either::Second(
                Either::First(
                    RecipientInfoPart2 {
                        choice: Either::Second(value),
                    },
                ),
            ) => RecipientInfo::Pwri(value),
            Either::Second(Either::Second(RecipientInfoPart3 { choice: value })) =>
                RecipientInfo::Ori(value),
        }
    }
}

impl<'a> DescribedChoice for RecipientInfo<'a> {
    ghost alternative = { choice_of (either
        ⟦<RecipientInfoPart1<'a> as DescribedChoice>⟧.alternative (either
        ⟦<RecipientInfoPart2<'a> as DescribedChoice>⟧.alternative
        ⟦<RecipientInfoPart3<'a> as DescribedChoice>⟧.alternative))
        ⟦<RecipientInfo<'a> as FromFields<RecipientInfoAlternatives<'a>>>⟧.fields };
}

/// Decodes the alternative with the next tag. The errors are those of decoding an [`Either`].
impl<'a, R: Lends<Borrowed = &'a [u8]>> Decode<R> for RecipientInfo<'a> {
    type Error = Error;

    ghost is_next = { ⟦<RecipientInfo<'a> as DescribedChoice>⟧.alternative.is_next };

    ghost decode_levels = { ⟦<RecipientInfo<'a> as DescribedChoice>⟧.alternative.levels };

    ghost allocates = { false };

    ghost decode_answers = { λ s result t.
        ⟦<RecipientInfoAlternatives<'a> as Decode<SliceReader<'a>>>⟧.decode_answers s
        (map_ok ⟦<RecipientInfo<'a> as FromFields<RecipientInfoAlternatives<'a>>>⟧.fields result) t };

    fn decode(alloc: Global, reader: &mut R) -> Result<Self, Error>
    where
        R: Reader,
    {
        decode_choice::<R, RecipientInfoAlternatives<'a>, Self>(alloc, reader)
    }
}

impl<'a> Choice for RecipientInfo<'a> {
    ghost chooses = { ⟦<RecipientInfo<'a> as DescribedChoice>⟧.alternative.tags };

    fn can_decode(tag: Tag) -> bool
        ensures { IsTrue result ↔ ⟦<RecipientInfo<'a> as DescribedChoice>⟧.alternative.tags tag }
    {
        <RecipientInfoAlternatives<'a> as Choice>::can_decode(tag)
    }
}

impl<'a, R: Lends<Borrowed = &'a [u8]>> DecodeChoice<R> for RecipientInfo<'a> {
    ghost begins = { ⟦<RecipientInfo<'a> as DescribedChoice>⟧.alternative.begins };
}

/// Writes the alternative that the value has. The errors are those of writing it.
impl<'a> Encode for RecipientInfo<'a> {
    ghost encoding = { λ v. ⟦<RecipientInfoAlternatives<'a> as Encode>⟧.encoding
        (⟦<RecipientInfo<'a> as FromFields<RecipientInfoAlternatives<'a>>>⟧.fields v) };

    ghost encodable = { λ v. ⟦<RecipientInfoAlternatives<'a> as Encode>⟧.encodable
        (⟦<RecipientInfo<'a> as FromFields<RecipientInfoAlternatives<'a>>>⟧.fields v) };

    ghost size = { λ v. ⟦<RecipientInfoAlternatives<'a> as Encode>⟧.size
        (⟦<RecipientInfo<'a> as FromFields<RecipientInfoAlternatives<'a>>>⟧.fields v) };

    ghost encode_answers = { λ v. ⟦<RecipientInfoAlternatives<'a> as Encode>⟧.encode_answers
        (⟦<RecipientInfo<'a> as FromFields<RecipientInfoAlternatives<'a>>>⟧.fields v) };

    fn encoded_len(&self) -> Result<Length, Error> {
        match self {
            RecipientInfo::Ktri(value) => value.encoded_len(),
            RecipientInfo::Kari(value) => value.encoded_len(),
            RecipientInfo::Kekri(value) => value.encoded_len(),
            RecipientInfo::Pwri(value) => value.encoded_len(),
            RecipientInfo::Ori(value) => value.encoded_len(),
        }
    }

    fn encode<W: Writer>(&self, writer: &mut W) -> Result<(), Error> {
        match self {
            RecipientInfo::Ktri(value) => value.encode(writer),
            RecipientInfo::Kari(value) => value.encode(writer),
            RecipientInfo::Kekri(value) => value.encode(writer),
            RecipientInfo::Pwri(value) => value.encode(writer),
            RecipientInfo::Ori(value) => value.encode(writer),
        }
    }

    fn len_before(&self) -> Option<u32> {
        match self {
            RecipientInfo::Ktri(value) => value.len_before(),
            RecipientInfo::Kari(value) => value.len_before(),
            RecipientInfo::Kekri(value) => value.len_before(),
            RecipientInfo::Pwri(value) => value.len_before(),
            RecipientInfo::Ori(value) => value.len_before(),
        }
    }

    fn encode_before(&self, buf: &mut [u8], end: u32) -> u32 {
        match self {
            RecipientInfo::Ktri(value) => value.encode_before(buf, end),
            RecipientInfo::Kari(value) => value.encode_before(buf, end),
            RecipientInfo::Kekri(value) => value.encode_before(buf, end),
            RecipientInfo::Pwri(value) => value.encode_before(buf, end),
            RecipientInfo::Ori(value) => value.encode_before(buf, end),
        }
    }
}

impl<'a> Item for RecipientInfo<'a> {
    ghost item = { choice_item ⟦<RecipientInfo<'a> as DescribedChoice>⟧.alternative };
}

impl<'a, R: Lends<Borrowed = &'a [u8]>> DecodeItem<R> for RecipientInfo<'a> {
    ghost is_item = { choice_is_item ⟦<RecipientInfo<'a> as DescribedChoice>⟧.alternative refl };

    ghost decodes_items = { decodes_same (choice_item
        ⟦<RecipientInfo<'a> as DescribedChoice>⟧.alternative) };
}

impl<'a> BorrowedItem for RecipientInfo<'a> {
    ghost borrowed = { refl };
}

impl<'a> WrittenItem for RecipientInfo<'a> {
    ghost written = { λ v. refl };

    ghost writes_valid = { λ v is. is };
}
