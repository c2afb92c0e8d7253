//! Written by asn1_compile from the module CMS: change the module instead.
//!
//! RevocationInfoChoice.
ghost use Rattle.std.specs.Prelude.{◌↔◌, IsTrue, false};
ghost use Rattle.std.proofs.Common.{refl};
ghost use Rattle.der.specs.Prelude.{map_ok};
ghost use Rattle.der_asn1.specs.Item.{decodes_same};
ghost use Rattle.der_asn1.specs.Meaning.{alternative, choice_is_item, choice_item, choice_of, either};
ghost use Rattle.der_asn1.specs.declared.fields.either.Either.TheVariants.{First, Second};
ghost use Rattle.cms.specs.declared.asn1.revocation_info_choice.RevocationInfoChoice.TheVariants as variant;

use crate::asn1::other_revocation_info_format::OtherRevocationInfoFormat;
use der::{Decode, Encode, Error, FromFields, Lends, Length, Reader, SliceReader, Tag, Writer};
use der_asn1::{
    BorrowedItem, Choice, DecodeChoice, DecodeItem, Described, DescribedChoice, Either, Implicit,
    Item, WrittenItem, decode_choice,
};
use std::alloc::Global;
use x509::CertificateList;

/// Information about revoked certificates (RFC 5652, 10.2.1), borrowed from the input.
#[derive(Clone, Copy, Debug, Drop, PartialEq, Eq)]
pub enum RevocationInfoChoice<'a> {
    /// A revocation list as in RFC 5280.
    Crl(CertificateList<'a>),
    /// Information of another kind, such as a response of OCSP.
    Other(Implicit<OtherRevocationInfoFormat<'a>, 1>),
}

/// The alternatives as one type: an [`Either`] of two, which may be [`Either`]s in turn.
pub type RevocationInfoChoiceAlternatives<'a> = Either<
    CertificateList<'a>,
    Implicit<OtherRevocationInfoFormat<'a>, 1>,
>;

impl<'a> FromFields<RevocationInfoChoiceAlternatives<'a>> for RevocationInfoChoice<'a> {
    ghost fields = { elim [
      | variant.Crl v ↦ First (v)
      | variant.Other v ↦ Second (v)
    ] };

    fn from_fields(alternatives: RevocationInfoChoiceAlternatives<'a>) -> Self {
        match alternatives {
            Either::First(value) => RevocationInfoChoice::Crl(value),
            Either::Second(value) => RevocationInfoChoice::Other(value),
        }
    }
}

impl<'a> DescribedChoice for RevocationInfoChoice<'a> {
    ghost alternative = { choice_of (either (alternative
        ⟦<CertificateList<'a> as Described>⟧.element) (alternative
        ⟦<Implicit<OtherRevocationInfoFormat<'a>, 1> as Described>⟧.element))
        ⟦<RevocationInfoChoice<'a> as FromFields<RevocationInfoChoiceAlternatives<'a>>>⟧.fields };
}

/// Decodes the alternative with the next tag. The errors are those of decoding an [`Either`].
impl<'a, R: Lends<Borrowed = &'a [u8]>> Decode<R> for RevocationInfoChoice<'a> {
    type Error = Error;

    ghost is_next = { ⟦<RevocationInfoChoice<'a> as DescribedChoice>⟧.alternative.is_next };

    ghost decode_levels = { ⟦<RevocationInfoChoice<'a> as DescribedChoice>⟧.alternative.levels };

    ghost allocates = { false };

    ghost decode_answers = { λ s result t.
        ⟦<RevocationInfoChoiceAlternatives<'a> as Decode<SliceReader<'a>>>⟧.decode_answers s
        (map_ok
        ⟦<RevocationInfoChoice<'a> as FromFields<RevocationInfoChoiceAlternatives<'a>>>⟧.fields result) t };

    fn decode(alloc: Global, reader: &mut R) -> Result<Self, Error>
    where
        R: Reader,
    {
        decode_choice::<R, RevocationInfoChoiceAlternatives<'a>, Self>(alloc, reader)
    }
}

impl<'a> Choice for RevocationInfoChoice<'a> {
    ghost chooses = { ⟦<RevocationInfoChoice<'a> as DescribedChoice>⟧.alternative.tags };

    fn can_decode(tag: Tag) -> bool
        ensures { IsTrue result ↔
            ⟦<RevocationInfoChoice<'a> as DescribedChoice>⟧.alternative.tags tag }
    {
        <RevocationInfoChoiceAlternatives<'a> as Choice>::can_decode(tag)
    }
}

impl<'a, R: Lends<Borrowed = &'a [u8]>> DecodeChoice<R> for RevocationInfoChoice<'a> {
    ghost begins = { ⟦<RevocationInfoChoice<'a> as DescribedChoice>⟧.alternative.begins };
}

/// Writes the alternative that the value has. The errors are those of writing it.
impl<'a> Encode for RevocationInfoChoice<'a> {
    ghost encoding = { λ v. ⟦<RevocationInfoChoiceAlternatives<'a> as Encode>⟧.encoding
        (⟦<RevocationInfoChoice<'a> as FromFields<RevocationInfoChoiceAlternatives<'a>>>⟧.fields v) };

    ghost encodable = { λ v. ⟦<RevocationInfoChoiceAlternatives<'a> as Encode>⟧.encodable
        (⟦<RevocationInfoChoice<'a> as FromFields<RevocationInfoChoiceAlternatives<'a>>>⟧.fields v) };

    ghost size = { λ v. ⟦<RevocationInfoChoiceAlternatives<'a> as Encode>⟧.size
        (⟦<RevocationInfoChoice<'a> as FromFields<RevocationInfoChoiceAlternatives<'a>>>⟧.fields v) };

    ghost encode_answers = { λ v. ⟦<RevocationInfoChoiceAlternatives<'a> as Encode>⟧.encode_answers
        (⟦<RevocationInfoChoice<'a> as FromFields<RevocationInfoChoiceAlternatives<'a>>>⟧.fields v) };

    fn encoded_len(&self) -> Result<Length, Error> {
        match self {
            RevocationInfoChoice::Crl(value) => value.encoded_len(),
            RevocationInfoChoice::Other(value) => value.encoded_len(),
        }
    }

    fn encode<W: Writer>(&self, writer: &mut W) -> Result<(), Error> {
        match self {
            RevocationInfoChoice::Crl(value) => value.encode(writer),
            RevocationInfoChoice::Other(value) => value.encode(writer),
        }
    }

    fn len_before(&self) -> Option<u32> {
        match self {
            RevocationInfoChoice::Crl(value) => value.len_before(),
            RevocationInfoChoice::Other(value) => value.len_before(),
        }
    }

    fn encode_before(&self, buf: &mut [u8], end: u32) -> u32 {
        match self {
            RevocationInfoChoice::Crl(value) => value.encode_before(buf, end),
            RevocationInfoChoice::Other(value) => value.encode_before(buf, end),
        }
    }
}

impl<'a> Item for RevocationInfoChoice<'a> {
    ghost item = { choice_item ⟦<RevocationInfoChoice<'a> as DescribedChoice>⟧.alternative };
}

impl<'a, R: Lends<Borrowed = &'a [u8]>> DecodeItem<R> for RevocationInfoChoice<'a> {
    ghost is_item = { choice_is_item
        ⟦<RevocationInfoChoice<'a> as DescribedChoice>⟧.alternative refl };

    ghost decodes_items = { decodes_same (choice_item
        ⟦<RevocationInfoChoice<'a> as DescribedChoice>⟧.alternative) };
}

impl<'a> BorrowedItem for RevocationInfoChoice<'a> {
    ghost borrowed = { refl };
}

impl<'a> WrittenItem for RevocationInfoChoice<'a> {
    ghost written = { λ v. refl };

    ghost writes_valid = { λ v is. is };
}
