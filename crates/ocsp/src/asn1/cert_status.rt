//! Written by asn1_compile from the module OCSP: change the module instead.
//!
//! CertStatus.
ghost use Rattle.std.specs.Prelude.{◌↔◌, IsTrue, false};
ghost use Rattle.std.proofs.Common.{refl};
ghost use Rattle.der.specs.Prelude.{map_ok};
ghost use Rattle.der_asn1.specs.Item.{decodes_same};
ghost use Rattle.der_asn1.specs.Meaning.{alternative, choice_is_item, choice_item, choice_of, either};
ghost use Rattle.der_asn1.specs.declared.fields.either.Either.TheVariants.{First, Second};
ghost use Rattle.ocsp.specs.declared.asn1.cert_status.CertStatus.TheVariants as variant;

use crate::asn1::cert_status_part1::CertStatusPart1;
use crate::asn1::cert_status_part2::CertStatusPart2;
use crate::asn1::revoked_info::RevokedInfo;
use crate::asn1::unknown_info::UnknownInfo;
use der::{Decode, Encode, Error, FromFields, Lends, Length, Reader, SliceReader, Tag, Writer};
use der_asn1::{
    BorrowedItem, Choice, DecodeChoice, DecodeItem, DescribedChoice, Either, Implicit, Item, Null,
    WrittenItem, decode_choice,
};
use std::alloc::Global;

/// Whether a certificate is revoked (RFC 6960, 4.2.1), borrowed from the input.
#[derive(Clone, Copy, Debug, Drop, PartialEq, Eq)]
pub enum CertStatus<'a> {
    /// The certificate is not revoked.
    Good(Implicit<Null<'a>, 0>),
    /// The certificate is revoked.
    Revoked(Implicit<RevokedInfo, 1>),
    /// The responder does not know the certificate.
    Unknown(Implicit<UnknownInfo<'a>, 2>),
}

// The alternatives, as nested choices of two.
pub(crate) type CertStatusAlternatives<'a> = Either<CertStatusPart1<'a>, CertStatusPart2<'a>>;

impl<'a> FromFields<CertStatusAlternatives<'a>> for CertStatus<'a> {
    ghost fields = { elim [
      | variant.Good v ↦ First ((record { choice = First (v) }))
      | variant.Revoked v ↦ First ((record { choice = Second (v) }))
      | variant.Unknown v ↦ Second ((record { choice = v }))
    ] };

    fn from_fields(alternatives: CertStatusAlternatives<'a>) -> Self {
        match alternatives {
            Either::First(
                CertStatusPart1 {
                    choice: Either::First(value),
                },
            ) => CertStatus::Good(value),
            Either::First(
                CertStatusPart1 {
                    choice: Either::Second(value),
                },
            ) => CertStatus::Revoked(value),
            Either::Second(CertStatusPart2 { choice: value }) => CertStatus::Unknown(value),
        }
    }
}

impl<'a> DescribedChoice for CertStatus<'a> {
    ghost alternative = { choice_of (either ⟦<CertStatusPart1<'a> as DescribedChoice>⟧.alternative
        ⟦<CertStatusPart2<'a> as DescribedChoice>⟧.alternative)
        ⟦<CertStatus<'a> as FromFields<CertStatusAlternatives<'a>>>⟧.fields };
}

/// Decodes the alternative with the next tag. The errors are those of decoding an [`Either`].
impl<'a, R: Lends<Borrowed = &'a [u8]>> Decode<R> for CertStatus<'a> {
    type Error = Error;

    ghost is_next = { ⟦<CertStatus<'a> as DescribedChoice>⟧.alternative.is_next };

    ghost decode_levels = { ⟦<CertStatus<'a> as DescribedChoice>⟧.alternative.levels };

    ghost allocates = { false };

    ghost decode_answers = { λ s result t.
        ⟦<CertStatusAlternatives<'a> as Decode<SliceReader<'a>>>⟧.decode_answers s
        (map_ok ⟦<CertStatus<'a> as FromFields<CertStatusAlternatives<'a>>>⟧.fields result) t };

    fn decode(alloc: Global, reader: &mut R) -> Result<Self, Error>
    where
        R: Reader,
    {
        decode_choice::<R, CertStatusAlternatives<'a>, Self>(alloc, reader)
    }
}

impl<'a> Choice for CertStatus<'a> {
    ghost chooses = { ⟦<CertStatus<'a> as DescribedChoice>⟧.alternative.tags };

    fn can_decode(tag: Tag) -> bool
        ensures { IsTrue result ↔ ⟦<CertStatus<'a> as DescribedChoice>⟧.alternative.tags tag }
    {
        <CertStatusAlternatives<'a> as Choice>::can_decode(tag)
    }
}

impl<'a, R: Lends<Borrowed = &'a [u8]>> DecodeChoice<R> for CertStatus<'a> {
    ghost begins = { ⟦<CertStatus<'a> as DescribedChoice>⟧.alternative.begins };
}

/// Writes the alternative that the value has. The errors are those of writing it.
impl<'a> Encode for CertStatus<'a> {
    ghost encoding = { λ v. ⟦<CertStatusAlternatives<'a> as Encode>⟧.encoding
        (⟦<CertStatus<'a> as FromFields<CertStatusAlternatives<'a>>>⟧.fields v) };

    ghost encodable = { λ v. ⟦<CertStatusAlternatives<'a> as Encode>⟧.encodable
        (⟦<CertStatus<'a> as FromFields<CertStatusAlternatives<'a>>>⟧.fields v) };

    ghost size = { λ v. ⟦<CertStatusAlternatives<'a> as Encode>⟧.size
        (⟦<CertStatus<'a> as FromFields<CertStatusAlternatives<'a>>>⟧.fields v) };

    ghost encode_answers = { λ v. ⟦<CertStatusAlternatives<'a> as Encode>⟧.encode_answers
        (⟦<CertStatus<'a> as FromFields<CertStatusAlternatives<'a>>>⟧.fields v) };

    fn encoded_len(&self) -> Result<Length, Error> {
        match self {
            CertStatus::Good(value) => value.encoded_len(),
            CertStatus::Revoked(value) => value.encoded_len(),
            CertStatus::Unknown(value) => value.encoded_len(),
        }
    }

    fn encode<W: Writer>(&self, writer: &mut W) -> Result<(), Error> {
        match self {
            CertStatus::Good(value) => value.encode(writer),
            CertStatus::Revoked(value) => value.encode(writer),
            CertStatus::Unknown(value) => value.encode(writer),
        }
    }

    fn len_before(&self) -> Option<u32> {
        match self {
            CertStatus::Good(value) => value.len_before(),
            CertStatus::Revoked(value) => value.len_before(),
            CertStatus::Unknown(value) => value.len_before(),
        }
    }

    fn encode_before(&self, buf: &mut [u8], end: u32) -> u32 {
        match self {
            CertStatus::Good(value) => value.encode_before(buf, end),
            CertStatus::Revoked(value) => value.encode_before(buf, end),
            CertStatus::Unknown(value) => value.encode_before(buf, end),
        }
    }
}

impl<'a> Item for CertStatus<'a> {
    ghost item = { choice_item ⟦<CertStatus<'a> as DescribedChoice>⟧.alternative };
}

impl<'a, R: Lends<Borrowed = &'a [u8]>> DecodeItem<R> for CertStatus<'a> {
    ghost is_item = { choice_is_item ⟦<CertStatus<'a> as DescribedChoice>⟧.alternative refl };

    ghost decodes_items = { decodes_same (choice_item
        ⟦<CertStatus<'a> as DescribedChoice>⟧.alternative) };
}

impl<'a> BorrowedItem for CertStatus<'a> {
    ghost borrowed = { refl };
}

impl<'a> WrittenItem for CertStatus<'a> {
    ghost written = { λ v. refl };

    ghost writes_valid = { λ v is. is };
}
