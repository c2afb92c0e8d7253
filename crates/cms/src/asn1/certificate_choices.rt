//! Written by asn1_compile from the module CMS: change the module instead.
//!
//! CertificateChoices.
ghost use Rattle.std.specs.Prelude.{◌↔◌, IsTrue, false};
ghost use Rattle.std.proofs.Common.{refl};
ghost use Rattle.der.specs.Prelude.{map_ok};
ghost use Rattle.der_asn1.specs.Item.{decodes_same};
ghost use Rattle.der_asn1.specs.Meaning.{alternative, choice_is_item, choice_item, choice_of, either};
ghost use Rattle.der_asn1.specs.declared.fields.either.Either.TheVariants.{First, Second};
ghost use Rattle.cms.specs.declared.asn1.certificate_choices.CertificateChoices.TheVariants as variant;

use crate::asn1::certificate_choices_part1::CertificateChoicesPart1;
use crate::asn1::certificate_choices_part2::CertificateChoicesPart2;
use crate::asn1::certificate_choices_part3::CertificateChoicesPart3;
use crate::asn1::other_certificate_format::OtherCertificateFormat;
use der::{Decode, Encode, Error, FromFields, Lends, Length, Reader, SliceReader, Tag, Writer};
use der_asn1::{
    BorrowedItem, Choice, DecodeChoice, DecodeItem, DescribedChoice, Either, Implicit, Item,
    SequenceRef, WrittenItem, decode_choice,
};
use std::alloc::Global;
use x509::Certificate;

/// A certificate of one of several kinds (RFC 5652, 10.2.2), borrowed from the input. The contents
/// of the alternatives with the tags 0 to 2 are not checked.
#[derive(Clone, Copy, Debug, Drop, PartialEq, Eq)]
pub enum CertificateChoices<'a> {
    /// A certificate as in RFC 5280.
    Certificate(Certificate<'a>),
    /// A certificate of PKCS #6, which is obsolete.
    ExtendedCertificate(Implicit<SequenceRef<'a>, 0>),
    /// An attribute certificate of version 1, which is obsolete.
    V1AttrCert(Implicit<SequenceRef<'a>, 1>),
    /// An attribute certificate of version 2.
    V2AttrCert(Implicit<SequenceRef<'a>, 2>),
    /// A certificate of another kind, which an object identifier names.
    Other(Implicit<OtherCertificateFormat<'a>, 3>),
}

// The alternatives, as nested choices of two.
pub(crate) type CertificateChoicesAlternatives<'a> = Either<
    CertificateChoicesPart1<'a>,
    Either<CertificateChoicesPart2<'a>, CertificateChoicesPart3<'a>>,
>;

impl<'a> FromFields<CertificateChoicesAlternatives<'a>> for CertificateChoices<'a> {
    ghost fields = { elim [
      | variant.Certificate v ↦ First ((record { choice = First (v) }))
      | variant.ExtendedCertificate v ↦ First ((record { choice = Second (v) }))
      | variant.V1AttrCert v ↦ Second (First ((record { choice = First (v) })))
      | variant.V2AttrCert v ↦ Second (First ((record { choice = Second (v) })))
      | variant.Other v ↦ Second (Second ((record { choice = v })))
    ] };

    fn from_fields(alternatives: CertificateChoicesAlternatives<'a>) -> Self {
        match alternatives {
            Either::First(
                CertificateChoicesPart1 {
                    choice: Either::First(value),
                },
            ) => CertificateChoices::Certificate(value),
            Either::First(
                CertificateChoicesPart1 {
                    choice: Either::Second(value),
                },
            ) => CertificateChoices::ExtendedCertificate(value),
            Either::Second(
                Either::First(
                    CertificateChoicesPart2 {
                        choice: Either::First(value),
                    },
                ),
            ) => CertificateChoices::V1AttrCert(value),
            Either::Second(
                Either::First(
                    CertificateChoicesPart2 {
                        choice: Either::Second(value),
                    },
                ),
            ) => CertificateChoices::V2AttrCert(value),
            Either::Second(Either::Second(CertificateChoicesPart3 { choice: value })) =>
                CertificateChoices::Other(value),
        }
    }
}

impl<'a> DescribedChoice for CertificateChoices<'a> {
    ghost alternative = { choice_of (either
        ⟦<CertificateChoicesPart1<'a> as DescribedChoice>⟧.alternative (either
        ⟦<CertificateChoicesPart2<'a> as DescribedChoice>⟧.alternative
        ⟦<CertificateChoicesPart3<'a> as DescribedChoice>⟧.alternative))
        ⟦<CertificateChoices<'a> as FromFields<CertificateChoicesAlternatives<'a>>>⟧.fields };
}

/// Decodes the alternative with the next tag. The errors are those of decoding an [`Either`].
impl<'a, R: Lends<Borrowed = &'a [u8]>> Decode<R> for CertificateChoices<'a> {
    type Error = Error;

    ghost is_next = { ⟦<CertificateChoices<'a> as DescribedChoice>⟧.alternative.is_next };

    ghost decode_levels = { ⟦<CertificateChoices<'a> as DescribedChoice>⟧.alternative.levels };

    ghost allocates = { false };

    ghost decode_answers = { λ s result t.
        ⟦<CertificateChoicesAlternatives<'a> as Decode<SliceReader<'a>>>⟧.decode_answers s
        (map_ok
        ⟦<CertificateChoices<'a> as FromFields<CertificateChoicesAlternatives<'a>>>⟧.fields result) t };

    fn decode(alloc: Global, reader: &mut R) -> Result<Self, Error>
    where
        R: Reader,
    {
        decode_choice::<R, CertificateChoicesAlternatives<'a>, Self>(alloc, reader)
    }
}

impl<'a> Choice for CertificateChoices<'a> {
    ghost chooses = { ⟦<CertificateChoices<'a> as DescribedChoice>⟧.alternative.tags };

    fn can_decode(tag: Tag) -> bool
        ensures { IsTrue result ↔
            ⟦<CertificateChoices<'a> as DescribedChoice>⟧.alternative.tags tag }
    {
        <CertificateChoicesAlternatives<'a> as Choice>::can_decode(tag)
    }
}

impl<'a, R: Lends<Borrowed = &'a [u8]>> DecodeChoice<R> for CertificateChoices<'a> {
    ghost begins = { ⟦<CertificateChoices<'a> as DescribedChoice>⟧.alternative.begins };
}

/// Writes the alternative that the value has. The errors are those of writing it.
impl<'a> Encode for CertificateChoices<'a> {
    ghost encoding = { λ v. ⟦<CertificateChoicesAlternatives<'a> as Encode>⟧.encoding
        (⟦<CertificateChoices<'a> as FromFields<CertificateChoicesAlternatives<'a>>>⟧.fields v) };

    ghost encodable = { λ v. ⟦<CertificateChoicesAlternatives<'a> as Encode>⟧.encodable
        (⟦<CertificateChoices<'a> as FromFields<CertificateChoicesAlternatives<'a>>>⟧.fields v) };

    ghost size = { λ v. ⟦<CertificateChoicesAlternatives<'a> as Encode>⟧.size
        (⟦<CertificateChoices<'a> as FromFields<CertificateChoicesAlternatives<'a>>>⟧.fields v) };

    ghost encode_answers = { λ v. ⟦<CertificateChoicesAlternatives<'a> as Encode>⟧.encode_answers
        (⟦<CertificateChoices<'a> as FromFields<CertificateChoicesAlternatives<'a>>>⟧.fields v) };

    fn encoded_len(&self) -> Result<Length, Error> {
        match self {
            CertificateChoices::Certificate(value) => value.encoded_len(),
            CertificateChoices::ExtendedCertificate(value) => value.encoded_len(),
            CertificateChoices::V1AttrCert(value) => value.encoded_len(),
            CertificateChoices::V2AttrCert(value) => value.encoded_len(),
            CertificateChoices::Other(value) => value.encoded_len(),
        }
    }

    fn encode<W: Writer>(&self, writer: &mut W) -> Result<(), Error> {
        match self {
            CertificateChoices::Certificate(value) => value.encode(writer),
            CertificateChoices::ExtendedCertificate(value) => value.encode(writer),
            CertificateChoices::V1AttrCert(value) => value.encode(writer),
            CertificateChoices::V2AttrCert(value) => value.encode(writer),
            CertificateChoices::Other(value) => value.encode(writer),
        }
    }

    fn len_before(&self) -> Option<u32> {
        match self {
            CertificateChoices::Certificate(value) => value.len_before(),
            CertificateChoices::ExtendedCertificate(value) => value.len_before(),
            CertificateChoices::V1AttrCert(value) => value.len_before(),
            CertificateChoices::V2AttrCert(value) => value.len_before(),
            CertificateChoices::Other(value) => value.len_before(),
        }
    }

    fn encode_before(&self, buf: &mut [u8], end: u32) -> u32 {
        match self {
            CertificateChoices::Certificate(value) => value.encode_before(buf, end),
            CertificateChoices::ExtendedCertificate(value) => value.encode_before(buf, end),
            CertificateChoices::V1AttrCert(value) => value.encode_before(buf, end),
            CertificateChoices::V2AttrCert(value) => value.encode_before(buf, end),
            CertificateChoices::Other(value) => value.encode_before(buf, end),
        }
    }
}

impl<'a> Item for CertificateChoices<'a> {
    ghost item = { choice_item ⟦<CertificateChoices<'a> as DescribedChoice>⟧.alternative };
}

impl<'a, R: Lends<Borrowed = &'a [u8]>> DecodeItem<R> for CertificateChoices<'a> {
    ghost is_item = { choice_is_item
        ⟦<CertificateChoices<'a> as DescribedChoice>⟧.alternative refl };

    ghost decodes_items = { decodes_same (choice_item
        ⟦<CertificateChoices<'a> as DescribedChoice>⟧.alternative) };
}

impl<'a> BorrowedItem for CertificateChoices<'a> {
    ghost borrowed = { refl };
}

impl<'a> WrittenItem for CertificateChoices<'a> {
    ghost written = { λ v. refl };

    ghost writes_valid = { λ v is. is };
}
