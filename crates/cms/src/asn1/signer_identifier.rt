//! Written by asn1_compile from the module CMS: change the module instead.
//!
//! SignerIdentifier.
ghost use Rattle.std.specs.Prelude.{◌↔◌, IsTrue, false};
ghost use Rattle.std.proofs.Common.{refl};
ghost use Rattle.der.specs.Prelude.{map_ok};
ghost use Rattle.der_asn1.specs.Item.{decodes_same};
ghost use Rattle.der_asn1.specs.Meaning.{alternative, choice_is_item, choice_item, choice_of, either};
ghost use Rattle.der_asn1.specs.declared.fields.either.Either.TheVariants.{First, Second};
ghost use Rattle.cms.specs.declared.asn1.signer_identifier.SignerIdentifier.TheVariants as variant;

use crate::asn1::issuer_and_serial_number::IssuerAndSerialNumber;
use der::{Decode, Encode, Error, FromFields, Lends, Length, Reader, SliceReader, Tag, Writer};
use der_asn1::{
    BorrowedItem, Choice, DecodeChoice, DecodeItem, Described, DescribedChoice, Either, Implicit,
    Item, WrittenItem, decode_choice,
};
use std::alloc::Global;
use x509::SubjectKeyIdentifier;

/// What identifies the certificate of a signer (RFC 5652, 5.3), borrowed from the input.
#[derive(Clone, Copy, Debug, Drop, PartialEq, Eq)]
pub enum SignerIdentifier<'a> {
    /// The issuer and the serial number of the certificate.
    IssuerAndSerialNumber(IssuerAndSerialNumber<'a>),
    /// The identifier of the certificate's public key.
    SubjectKeyIdentifier(Implicit<SubjectKeyIdentifier<'a>, 0>),
}

/// The alternatives as one type: an [`Either`] of two, which may be [`Either`]s in turn.
pub type SignerIdentifierAlternatives<'a> = Either<
    IssuerAndSerialNumber<'a>,
    Implicit<SubjectKeyIdentifier<'a>, 0>,
>;

impl<'a> FromFields<SignerIdentifierAlternatives<'a>> for SignerIdentifier<'a> {
    ghost fields = { elim [
      | variant.IssuerAndSerialNumber v ↦ First (v)
      | variant.SubjectKeyIdentifier v ↦ Second (v)
    ] };

    fn from_fields(alternatives: SignerIdentifierAlternatives<'a>) -> Self {
        match alternatives {
            Either::First(value) => SignerIdentifier::IssuerAndSerialNumber(value),
            Either::Second(value) => SignerIdentifier::SubjectKeyIdentifier(value),
        }
    }
}

impl<'a> DescribedChoice for SignerIdentifier<'a> {
    ghost alternative = { choice_of (either (alternative
        ⟦<IssuerAndSerialNumber<'a> as Described>⟧.element) (alternative
        ⟦<Implicit<SubjectKeyIdentifier<'a>, 0> as Described>⟧.element))
        ⟦<SignerIdentifier<'a> as FromFields<SignerIdentifierAlternatives<'a>>>⟧.fields };
}

/// Decodes the alternative with the next tag. The errors are those of decoding an [`Either`].
impl<'a, R: Lends<Borrowed = &'a [u8]>> Decode<R> for SignerIdentifier<'a> {
    type Error = Error;

    ghost is_next = { ⟦<SignerIdentifier<'a> as DescribedChoice>⟧.alternative.is_next };

    ghost decode_levels = { ⟦<SignerIdentifier<'a> as DescribedChoice>⟧.alternative.levels };

    ghost allocates = { false };

    ghost decode_answers = { λ s result t.
        ⟦<SignerIdentifierAlternatives<'a> as Decode<SliceReader<'a>>>⟧.decode_answers s
        (map_ok ⟦<SignerIdentifier<'a> as FromFields<SignerIdentifierAlternatives<'a>>>⟧.fields result) t };

    fn decode(alloc: Global, reader: &mut R) -> Result<Self, Error>
    where
        R: Reader,
    {
        decode_choice::<R, SignerIdentifierAlternatives<'a>, Self>(alloc, reader)
    }
}

impl<'a> Choice for SignerIdentifier<'a> {
    ghost chooses = { ⟦<SignerIdentifier<'a> as DescribedChoice>⟧.alternative.tags };

    fn can_decode(tag: Tag) -> bool
        ensures { IsTrue result ↔ ⟦<SignerIdentifier<'a> as DescribedChoice>⟧.alternative.tags tag }
    {
        <SignerIdentifierAlternatives<'a> as Choice>::can_decode(tag)
    }
}

impl<'a, R: Lends<Borrowed = &'a [u8]>> DecodeChoice<R> for SignerIdentifier<'a> {
    ghost begins = { ⟦<SignerIdentifier<'a> as DescribedChoice>⟧.alternative.begins };
}

/// Writes the alternative that the value has. The errors are those of writing it.
impl<'a> Encode for SignerIdentifier<'a> {
    ghost encoding = { λ v. ⟦<SignerIdentifierAlternatives<'a> as Encode>⟧.encoding
        (⟦<SignerIdentifier<'a> as FromFields<SignerIdentifierAlternatives<'a>>>⟧.fields v) };

    ghost encodable = { λ v. ⟦<SignerIdentifierAlternatives<'a> as Encode>⟧.encodable
        (⟦<SignerIdentifier<'a> as FromFields<SignerIdentifierAlternatives<'a>>>⟧.fields v) };

    ghost size = { λ v. ⟦<SignerIdentifierAlternatives<'a> as Encode>⟧.size
        (⟦<SignerIdentifier<'a> as FromFields<SignerIdentifierAlternatives<'a>>>⟧.fields v) };

    ghost encode_answers = { λ v. ⟦<SignerIdentifierAlternatives<'a> as Encode>⟧.encode_answers
        (⟦<SignerIdentifier<'a> as FromFields<SignerIdentifierAlternatives<'a>>>⟧.fields v) };

    fn encoded_len(&self) -> Result<Length, Error> {
        match self {
            SignerIdentifier::IssuerAndSerialNumber(value) => value.encoded_len(),
            SignerIdentifier::SubjectKeyIdentifier(value) => value.encoded_len(),
        }
    }

    fn encode<W: Writer>(&self, writer: &mut W) -> Result<(), Error> {
        match self {
            SignerIdentifier::IssuerAndSerialNumber(value) => value.encode(writer),
            SignerIdentifier::SubjectKeyIdentifier(value) => value.encode(writer),
        }
    }

    fn len_before(&self) -> Option<u32> {
        match self {
            SignerIdentifier::IssuerAndSerialNumber(value) => value.len_before(),
            SignerIdentifier::SubjectKeyIdentifier(value) => value.len_before(),
        }
    }

    fn encode_before(&self, buf: &mut [u8], end: u32) -> u32 {
        match self {
            SignerIdentifier::IssuerAndSerialNumber(value) => value.encode_before(buf, end),
            SignerIdentifier::SubjectKeyIdentifier(value) => value.encode_before(buf, end),
        }
    }
}

impl<'a> Item for SignerIdentifier<'a> {
    ghost item = { choice_item ⟦<SignerIdentifier<'a> as DescribedChoice>⟧.alternative };
}

impl<'a, R: Lends<Borrowed = &'a [u8]>> DecodeItem<R> for SignerIdentifier<'a> {
    ghost is_item = { choice_is_item ⟦<SignerIdentifier<'a> as DescribedChoice>⟧.alternative refl };

    ghost decodes_items = { decodes_same (choice_item
        ⟦<SignerIdentifier<'a> as DescribedChoice>⟧.alternative) };
}

impl<'a> BorrowedItem for SignerIdentifier<'a> {
    ghost borrowed = { refl };
}

impl<'a> WrittenItem for SignerIdentifier<'a> {
    ghost written = { λ v. refl };

    ghost writes_valid = { λ v is. is };
}
