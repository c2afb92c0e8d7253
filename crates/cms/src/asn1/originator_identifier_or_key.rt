//! Written by asn1_compile from the module CMS: change the module instead.
//!
//! OriginatorIdentifierOrKey.
ghost use Rattle.std.specs.Prelude.{◌↔◌, IsTrue, false};
ghost use Rattle.std.proofs.Common.{refl};
ghost use Rattle.der.specs.Prelude.{map_ok};
ghost use Rattle.der_asn1.specs.Item.{decodes_same};
ghost use Rattle.der_asn1.specs.Meaning.{alternative, choice_is_item, choice_item, choice_of, either};
ghost use Rattle.der_asn1.specs.declared.fields.either.Either.TheVariants.{First, Second};
ghost use Rattle.cms.specs.declared.asn1.originator_identifier_or_key.OriginatorIdentifierOrKey.TheVariants as variant;

use crate::asn1::issuer_and_serial_number::IssuerAndSerialNumber;
use crate::asn1::originator_identifier_or_key_part1::OriginatorIdentifierOrKeyPart1;
use crate::asn1::originator_identifier_or_key_part2::OriginatorIdentifierOrKeyPart2;
use crate::asn1::originator_public_key::OriginatorPublicKey;
use der::{Decode, Encode, Error, FromFields, Lends, Length, Reader, SliceReader, Tag, Writer};
use der_asn1::{
    BorrowedItem, Choice, DecodeChoice, DecodeItem, DescribedChoice, Either, Implicit, Item,
    WrittenItem, decode_choice,
};
use std::alloc::Global;
use x509::SubjectKeyIdentifier;

/// What identifies the public key of the originator, or the key itself (RFC 5652, 6.2.2), borrowed
/// from the input.
#[derive(Clone, Copy, Debug, Drop, PartialEq, Eq)]
pub enum OriginatorIdentifierOrKey<'a> {
    /// The issuer and the serial number of the certificate that has the key.
    IssuerAndSerialNumber(IssuerAndSerialNumber<'a>),
    /// The identifier of the key, which its certificate has.
    SubjectKeyIdentifier(Implicit<SubjectKeyIdentifier<'a>, 0>),
    /// The public key itself.
    OriginatorKey(Implicit<OriginatorPublicKey<'a>, 1>),
}

// The alternatives, as nested choices of two.
pub(crate) type OriginatorIdentifierOrKeyAlternatives<'a> = Either<
    OriginatorIdentifierOrKeyPart1<'a>,
    OriginatorIdentifierOrKeyPart2<'a>,
>;

impl<'a> FromFields<OriginatorIdentifierOrKeyAlternatives<'a>> for OriginatorIdentifierOrKey<'a> {
    ghost fields = { elim [
      | variant.IssuerAndSerialNumber v ↦ First ((record { choice = First (v) }))
      | variant.SubjectKeyIdentifier v ↦ First ((record { choice = Second (v) }))
      | variant.OriginatorKey v ↦ Second ((record { choice = v }))
    ] };

    fn from_fields(alternatives: OriginatorIdentifierOrKeyAlternatives<'a>) -> Self {
        match alternatives {
            Either::First(
                OriginatorIdentifierOrKeyPart1 {
                    choice: Either::First(value),
                },
            ) => OriginatorIdentifierOrKey::IssuerAndSerialNumber(value),
            Either::First(
                OriginatorIdentifierOrKeyPart1 {
                    choice: Either::Second(value),
                },
            ) => OriginatorIdentifierOrKey::SubjectKeyIdentifier(value),
            Either::Second(OriginatorIdentifierOrKeyPart2 { choice: value }) =>
                OriginatorIdentifierOrKey::OriginatorKey(value),
        }
    }
}

impl<'a> DescribedChoice for OriginatorIdentifierOrKey<'a> {
    ghost alternative = { choice_of (either
        ⟦<OriginatorIdentifierOrKeyPart1<'a> as DescribedChoice>⟧.alternative
        ⟦<OriginatorIdentifierOrKeyPart2<'a> as DescribedChoice>⟧.alternative)
        ⟦<OriginatorIdentifierOrKey<'a> as FromFields<OriginatorIdentifierOrKeyAlternatives<'a>>>⟧.fields };
}

/// Decodes the alternative with the next tag. The errors are those of decoding an [`Either`].
impl<'a, R: Lends<Borrowed = &'a [u8]>> Decode<R> for OriginatorIdentifierOrKey<'a> {
    type Error = Error;

    ghost is_next = { ⟦<OriginatorIdentifierOrKey<'a> as DescribedChoice>⟧.alternative.is_next };

    ghost decode_levels = { ⟦<OriginatorIdentifierOrKey<'a> as DescribedChoice>⟧.alternative.levels };

    ghost allocates = { false };

    ghost decode_answers = { λ s result t.
        ⟦<OriginatorIdentifierOrKeyAlternatives<'a> as Decode<SliceReader<'a>>>⟧.decode_answers s
        (map_ok
        ⟦<OriginatorIdentifierOrKey<'a> as FromFields<OriginatorIdentifierOrKeyAlternatives<'a>>>⟧.fields result) t };

    fn decode(alloc: Global, reader: &mut R) -> Result<Self, Error>
    where
        R: Reader,
    {
        decode_choice::<R, OriginatorIdentifierOrKeyAlternatives<'a>, Self>(alloc, reader)
    }
}

impl<'a> Choice for OriginatorIdentifierOrKey<'a> {
    ghost chooses = { ⟦<OriginatorIdentifierOrKey<'a> as DescribedChoice>⟧.alternative.tags };

    fn can_decode(tag: Tag) -> bool
        ensures { IsTrue result ↔
            ⟦<OriginatorIdentifierOrKey<'a> as DescribedChoice>⟧.alternative.tags tag }
    {
        <OriginatorIdentifierOrKeyAlternatives<'a> as Choice>::can_decode(tag)
    }
}

impl<'a, R: Lends<Borrowed = &'a [u8]>> DecodeChoice<R> for OriginatorIdentifierOrKey<'a> {
    ghost begins = { ⟦<OriginatorIdentifierOrKey<'a> as DescribedChoice>⟧.alternative.begins };
}

/// Writes the alternative that the value has. The errors are those of writing it.
impl<'a> Encode for OriginatorIdentifierOrKey<'a> {
    ghost encoding = { λ v. ⟦<OriginatorIdentifierOrKeyAlternatives<'a> as Encode>⟧.encoding
        (⟦<OriginatorIdentifierOrKey<'a> as FromFields<OriginatorIdentifierOrKeyAlternatives<'a>>>⟧.fields v) };

    ghost encodable = { λ v. ⟦<OriginatorIdentifierOrKeyAlternatives<'a> as Encode>⟧.encodable
        (⟦<OriginatorIdentifierOrKey<'a> as FromFields<OriginatorIdentifierOrKeyAlternatives<'a>>>⟧.fields v) };

    ghost size = { λ v. ⟦<OriginatorIdentifierOrKeyAlternatives<'a> as Encode>⟧.size
        (⟦<OriginatorIdentifierOrKey<'a> as FromFields<OriginatorIdentifierOrKeyAlternatives<'a>>>⟧.fields v) };

    ghost encode_answers = { λ v.
        ⟦<OriginatorIdentifierOrKeyAlternatives<'a> as Encode>⟧.encode_answers
        (⟦<OriginatorIdentifierOrKey<'a> as FromFields<OriginatorIdentifierOrKeyAlternatives<'a>>>⟧.fields v) };

    fn encoded_len(&self) -> Result<Length, Error> {
        match self {
            OriginatorIdentifierOrKey::IssuerAndSerialNumber(value) => value.encoded_len(),
            OriginatorIdentifierOrKey::SubjectKeyIdentifier(value) => value.encoded_len(),
            OriginatorIdentifierOrKey::OriginatorKey(value) => value.encoded_len(),
        }
    }

    fn encode<W: Writer>(&self, writer: &mut W) -> Result<(), Error> {
        match self {
            OriginatorIdentifierOrKey::IssuerAndSerialNumber(value) => value.encode(writer),
            OriginatorIdentifierOrKey::SubjectKeyIdentifier(value) => value.encode(writer),
            OriginatorIdentifierOrKey::OriginatorKey(value) => value.encode(writer),
        }
    }

    fn len_before(&self) -> Option<u32> {
        match self {
            OriginatorIdentifierOrKey::IssuerAndSerialNumber(value) => value.len_before(),
            OriginatorIdentifierOrKey::SubjectKeyIdentifier(value) => value.len_before(),
            OriginatorIdentifierOrKey::OriginatorKey(value) => value.len_before(),
        }
    }

    fn encode_before(&self, buf: &mut [u8], end: u32) -> u32 {
        match self {
            OriginatorIdentifierOrKey::IssuerAndSerialNumber(value) => value.encode_before(
                buf, end,
            ),
            OriginatorIdentifierOrKey::SubjectKeyIdentifier(value) => value.encode_before(buf, end),
            OriginatorIdentifierOrKey::OriginatorKey(value) => value.encode_before(buf, end),
        }
    }
}

impl<'a> Item for OriginatorIdentifierOrKey<'a> {
    ghost item = { choice_item ⟦<OriginatorIdentifierOrKey<'a> as DescribedChoice>⟧.alternative };
}

impl<'a, R: Lends<Borrowed = &'a [u8]>> DecodeItem<R> for OriginatorIdentifierOrKey<'a> {
    ghost is_item = { choice_is_item
        ⟦<OriginatorIdentifierOrKey<'a> as DescribedChoice>⟧.alternative refl };

    ghost decodes_items = { decodes_same (choice_item
        ⟦<OriginatorIdentifierOrKey<'a> as DescribedChoice>⟧.alternative) };
}

impl<'a> BorrowedItem for OriginatorIdentifierOrKey<'a> {
    ghost borrowed = { refl };
}

impl<'a> WrittenItem for OriginatorIdentifierOrKey<'a> {
    ghost written = { λ v. refl };

    ghost writes_valid = { λ v is. is };
}
