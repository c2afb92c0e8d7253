//! Written by asn1_compile from the module CMS: change the module instead.
//!
//! KeyAgreeRecipientIdentifier.
ghost use Rattle.std.specs.Prelude.{◌↔◌, IsTrue, false};
ghost use Rattle.std.proofs.Common.{refl};
ghost use Rattle.der.specs.Prelude.{map_ok};
ghost use Rattle.der_asn1.specs.Item.{decodes_same};
ghost use Rattle.der_asn1.specs.Meaning.{alternative, choice_is_item, choice_item, choice_of, either};
ghost use Rattle.der_asn1.specs.declared.fields.either.Either.TheVariants.{First, Second};
ghost use Rattle.cms.specs.declared.asn1.key_agree_recipient_identifier.KeyAgreeRecipientIdentifier.TheVariants as variant;

use crate::asn1::issuer_and_serial_number::IssuerAndSerialNumber;
use crate::asn1::recipient_key_identifier::RecipientKeyIdentifier;
use der::{Decode, Encode, Error, FromFields, Lends, Length, Reader, SliceReader, Tag, Writer};
use der_asn1::{
    BorrowedItem, Choice, DecodeChoice, DecodeItem, Described, DescribedChoice, Either, Implicit,
    Item, WrittenItem, decode_choice,
};
use std::alloc::Global;

/// What identifies the public key of a recipient (RFC 5652, 6.2.2), borrowed from the input.
#[derive(Clone, Copy, Debug, Drop, PartialEq, Eq)]
pub enum KeyAgreeRecipientIdentifier<'a> {
    /// The issuer and the serial number of the certificate that has the key.
    IssuerAndSerialNumber(IssuerAndSerialNumber<'a>),
    /// The identifier of the key, which its certificate has.
    RKeyId(Implicit<RecipientKeyIdentifier<'a>, 0>),
}

/// The alternatives as one type: an [`Either`] of two, which may be [`Either`]s in turn.
pub type KeyAgreeRecipientIdentifierAlternatives<'a> = Either<
    IssuerAndSerialNumber<'a>,
    Implicit<RecipientKeyIdentifier<'a>, 0>,
>;

impl<'a> FromFields<KeyAgreeRecipientIdentifierAlternatives<'a>>
    for KeyAgreeRecipientIdentifier<'a> {
    ghost fields = { elim [
      | variant.IssuerAndSerialNumber v ↦ First (v)
      | variant.RKeyId v ↦ Second (v)
    ] };

    fn from_fields(alternatives: KeyAgreeRecipientIdentifierAlternatives<'a>) -> Self {
        match alternatives {
            Either::First(value) => KeyAgreeRecipientIdentifier::IssuerAndSerialNumber(value),
            Either::Second(value) => KeyAgreeRecipientIdentifier::RKeyId(value),
        }
    }
}

impl<'a> DescribedChoice for KeyAgreeRecipientIdentifier<'a> {
    ghost alternative = { choice_of (either (alternative
        ⟦<IssuerAndSerialNumber<'a> as Described>⟧.element) (alternative
        ⟦<Implicit<RecipientKeyIdentifier<'a>, 0> as Described>⟧.element))
        ⟦<KeyAgreeRecipientIdentifier<'a> as FromFields<KeyAgreeRecipientIdentifierAlternatives<'a>>>⟧.fields };
}

/// Decodes the alternative with the next tag. The errors are those of decoding an [`Either`].
impl<'a, R: Lends<Borrowed = &'a [u8]>> Decode<R> for KeyAgreeRecipientIdentifier<'a> {
    type Error = Error;

    ghost is_next = { ⟦<KeyAgreeRecipientIdentifier<'a> as DescribedChoice>⟧.alternative.is_next };

    ghost decode_levels = { ⟦<KeyAgreeRecipientIdentifier<'a> as DescribedChoice>⟧.alternative.levels };

    ghost allocates = { false };

    ghost decode_answers = { λ s result t.
        ⟦<KeyAgreeRecipientIdentifierAlternatives<'a> as Decode<SliceReader<'a>>>⟧.decode_answers s
        (map_ok
        ⟦<KeyAgreeRecipientIdentifier<'a> as FromFields<KeyAgreeRecipientIdentifierAlternatives<'a>>>⟧.fields result) t };

    fn decode(alloc: Global, reader: &mut R) -> Result<Self, Error>
    where
        R: Reader,
    {
        decode_choice::<R, KeyAgreeRecipientIdentifierAlternatives<'a>, Self>(alloc, reader)
    }
}

impl<'a> Choice for KeyAgreeRecipientIdentifier<'a> {
    ghost chooses = { ⟦<KeyAgreeRecipientIdentifier<'a> as DescribedChoice>⟧.alternative.tags };

    fn can_decode(tag: Tag) -> bool
        ensures { IsTrue result ↔
            ⟦<KeyAgreeRecipientIdentifier<'a> as DescribedChoice>⟧.alternative.tags tag }
    {
        <KeyAgreeRecipientIdentifierAlternatives<'a> as Choice>::can_decode(tag)
    }
}

impl<'a, R: Lends<Borrowed = &'a [u8]>> DecodeChoice<R> for KeyAgreeRecipientIdentifier<'a> {
    ghost begins = { ⟦<KeyAgreeRecipientIdentifier<'a> as DescribedChoice>⟧.alternative.begins };
}

/// Writes the alternative that the value has. The errors are those of writing it.
impl<'a> Encode for KeyAgreeRecipientIdentifier<'a> {
    ghost encoding = { λ v. ⟦<KeyAgreeRecipientIdentifierAlternatives<'a> as Encode>⟧.encoding
        (⟦<KeyAgreeRecipientIdentifier<'a> as FromFields<KeyAgreeRecipientIdentifierAlternatives<'a>>>⟧.fields v) };

    ghost encodable = { λ v. ⟦<KeyAgreeRecipientIdentifierAlternatives<'a> as Encode>⟧.encodable
        (⟦<KeyAgreeRecipientIdentifier<'a> as FromFields<KeyAgreeRecipientIdentifierAlternatives<'a>>>⟧.fields v) };

    ghost size = { λ v. ⟦<KeyAgreeRecipientIdentifierAlternatives<'a> as Encode>⟧.size
        (⟦<KeyAgreeRecipientIdentifier<'a> as FromFields<KeyAgreeRecipientIdentifierAlternatives<'a>>>⟧.fields v) };

    ghost encode_answers = { λ v.
        ⟦<KeyAgreeRecipientIdentifierAlternatives<'a> as Encode>⟧.encode_answers
        (⟦<KeyAgreeRecipientIdentifier<'a> as FromFields<KeyAgreeRecipientIdentifierAlternatives<'a>>>⟧.fields v) };

    fn encoded_len(&self) -> Result<Length, Error> {
        match self {
            KeyAgreeRecipientIdentifier::IssuerAndSerialNumber(value) => value.encoded_len(),
            KeyAgreeRecipientIdentifier::RKeyId(value) => value.encoded_len(),
        }
    }

    fn encode<W: Writer>(&self, writer: &mut W) -> Result<(), Error> {
        match self {
            KeyAgreeRecipientIdentifier::IssuerAndSerialNumber(value) => value.encode(writer),
            KeyAgreeRecipientIdentifier::RKeyId(value) => value.encode(writer),
        }
    }

    fn len_before(&self) -> Option<u32> {
        match self {
            KeyAgreeRecipientIdentifier::IssuerAndSerialNumber(value) => value.len_before(),
            KeyAgreeRecipientIdentifier::RKeyId(value) => value.len_before(),
        }
    }

    fn encode_before(&self, buf: &mut [u8], end: u32) -> u32 {
        match self {
            KeyAgreeRecipientIdentifier::IssuerAndSerialNumber(value) => value.encode_before(
                buf, end,
            ),
            KeyAgreeRecipientIdentifier::RKeyId(value) => value.encode_before(buf, end),
        }
    }
}

impl<'a> Item for KeyAgreeRecipientIdentifier<'a> {
    ghost item = { choice_item ⟦<KeyAgreeRecipientIdentifier<'a> as DescribedChoice>⟧.alternative };
}

impl<'a, R: Lends<Borrowed = &'a [u8]>> DecodeItem<R> for KeyAgreeRecipientIdentifier<'a> {
    ghost is_item = { choice_is_item
        ⟦<KeyAgreeRecipientIdentifier<'a> as DescribedChoice>⟧.alternative refl };

    ghost decodes_items = { decodes_same (choice_item
        ⟦<KeyAgreeRecipientIdentifier<'a> as DescribedChoice>⟧.alternative) };
}

impl<'a> BorrowedItem for KeyAgreeRecipientIdentifier<'a> {
    ghost borrowed = { refl };
}

impl<'a> WrittenItem for KeyAgreeRecipientIdentifier<'a> {
    ghost written = { λ v. refl };

    ghost writes_valid = { λ v is. is };
}
