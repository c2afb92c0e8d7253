//! Written by asn1_compile from the module OCSP: change the module instead.
//!
//! ResponderId.
ghost use Rattle.std.specs.Prelude.{◌↔◌, IsTrue, false};
ghost use Rattle.std.proofs.Common.{refl};
ghost use Rattle.der.specs.Prelude.{map_ok};
ghost use Rattle.der_asn1.specs.Item.{decodes_same};
ghost use Rattle.der_asn1.specs.Meaning.{alternative, choice_is_item, choice_item, choice_of, either};
ghost use Rattle.der_asn1.specs.declared.fields.either.Either.TheVariants.{First, Second};
ghost use Rattle.ocsp.specs.declared.asn1.responder_id.ResponderId.TheVariants as variant;

use crate::asn1::key_hash::KeyHash;
use der::{Decode, Encode, Error, FromFields, Lends, Length, Reader, SliceReader, Tag, Writer};
use der_asn1::{
    BorrowedItem, Choice, DecodeChoice, DecodeItem, Described, DescribedChoice, Either, Explicit,
    Item, WrittenItem, decode_choice,
};
use std::alloc::Global;
use x509::Name;

/// Who signed a response (RFC 6960, 4.2.1), borrowed from the input.
#[derive(Clone, Copy, Debug, Drop, PartialEq, Eq)]
pub enum ResponderId<'a> {
    /// The name of the responder.
    ByName(Explicit<Name<'a>, 1>),
    /// The hash of the responder's public key.
    ByKey(Explicit<KeyHash<'a>, 2>),
}

/// The alternatives as one type: an [`Either`] of two, which may be [`Either`]s in turn.
pub type ResponderIdAlternatives<'a> = Either<Explicit<Name<'a>, 1>, Explicit<KeyHash<'a>, 2>>;

impl<'a> FromFields<ResponderIdAlternatives<'a>> for ResponderId<'a> {
    ghost fields = { elim [
      | variant.ByName v ↦ First (v)
      | variant.ByKey v ↦ Second (v)
    ] };

    fn from_fields(alternatives: ResponderIdAlternatives<'a>) -> Self {
        match alternatives {
            Either::First(value) => ResponderId::ByName(value),
            Either::Second(value) => ResponderId::ByKey(value),
        }
    }
}

impl<'a> DescribedChoice for ResponderId<'a> {
    ghost alternative = { choice_of (either (alternative
        ⟦<Explicit<Name<'a>, 1> as Described>⟧.element) (alternative
        ⟦<Explicit<KeyHash<'a>, 2> as Described>⟧.element))
        ⟦<ResponderId<'a> as FromFields<ResponderIdAlternatives<'a>>>⟧.fields };
}

/// Decodes the alternative with the next tag. The errors are those of decoding an [`Either`].
impl<'a, R: Lends<Borrowed = &'a [u8]>> Decode<R> for ResponderId<'a> {
    type Error = Error;

    ghost is_next = { ⟦<ResponderId<'a> as DescribedChoice>⟧.alternative.is_next };

    ghost decode_levels = { ⟦<ResponderId<'a> as DescribedChoice>⟧.alternative.levels };

    ghost allocates = { false };

    ghost decode_answers = { λ s result t.
        ⟦<ResponderIdAlternatives<'a> as Decode<SliceReader<'a>>>⟧.decode_answers s
        (map_ok ⟦<ResponderId<'a> as FromFields<ResponderIdAlternatives<'a>>>⟧.fields result) t };

    fn decode(alloc: Global, reader: &mut R) -> Result<Self, Error>
    where
        R: Reader,
    {
        decode_choice::<R, ResponderIdAlternatives<'a>, Self>(alloc, reader)
    }
}

impl<'a> Choice for ResponderId<'a> {
    ghost chooses = { ⟦<ResponderId<'a> as DescribedChoice>⟧.alternative.tags };

    fn can_decode(tag: Tag) -> bool
        ensures { IsTrue result ↔ ⟦<ResponderId<'a> as DescribedChoice>⟧.alternative.tags tag }
    {
        <ResponderIdAlternatives<'a> as Choice>::can_decode(tag)
    }
}

impl<'a, R: Lends<Borrowed = &'a [u8]>> DecodeChoice<R> for ResponderId<'a> {
    ghost begins = { ⟦<ResponderId<'a> as DescribedChoice>⟧.alternative.begins };
}

/// Writes the alternative that the value has. The errors are those of writing it.
impl<'a> Encode for ResponderId<'a> {
    ghost encoding = { λ v. ⟦<ResponderIdAlternatives<'a> as Encode>⟧.encoding
        (⟦<ResponderId<'a> as FromFields<ResponderIdAlternatives<'a>>>⟧.fields v) };

    ghost encodable = { λ v. ⟦<ResponderIdAlternatives<'a> as Encode>⟧.encodable
        (⟦<ResponderId<'a> as FromFields<ResponderIdAlternatives<'a>>>⟧.fields v) };

    ghost size = { λ v. ⟦<ResponderIdAlternatives<'a> as Encode>⟧.size
        (⟦<ResponderId<'a> as FromFields<ResponderIdAlternatives<'a>>>⟧.fields v) };

    ghost encode_answers = { λ v. ⟦<ResponderIdAlternatives<'a> as Encode>⟧.encode_answers
        (⟦<ResponderId<'a> as FromFields<ResponderIdAlternatives<'a>>>⟧.fields v) };

    fn encoded_len(&self) -> Result<Length, Error> {
        match self {
            ResponderId::ByName(value) => value.encoded_len(),
            ResponderId::ByKey(value) => value.encoded_len(),
        }
    }

    fn encode<W: Writer>(&self, writer: &mut W) -> Result<(), Error> {
        match self {
            ResponderId::ByName(value) => value.encode(writer),
            ResponderId::ByKey(value) => value.encode(writer),
        }
    }

    fn len_before(&self) -> Option<u32> {
        match self {
            ResponderId::ByName(value) => value.len_before(),
            ResponderId::ByKey(value) => value.len_before(),
        }
    }

    fn encode_before(&self, buf: &mut [u8], end: u32) -> u32 {
        match self {
            ResponderId::ByName(value) => value.encode_before(buf, end),
            ResponderId::ByKey(value) => value.encode_before(buf, end),
        }
    }
}

impl<'a> Item for ResponderId<'a> {
    ghost item = { choice_item ⟦<ResponderId<'a> as DescribedChoice>⟧.alternative };
}

impl<'a, R: Lends<Borrowed = &'a [u8]>> DecodeItem<R> for ResponderId<'a> {
    ghost is_item = { choice_is_item ⟦<ResponderId<'a> as DescribedChoice>⟧.alternative refl };

    ghost decodes_items = { decodes_same (choice_item
        ⟦<ResponderId<'a> as DescribedChoice>⟧.alternative) };
}

impl<'a> BorrowedItem for ResponderId<'a> {
    ghost borrowed = { refl };
}

impl<'a> WrittenItem for ResponderId<'a> {
    ghost written = { λ v. refl };

    ghost writes_valid = { λ v is. is };
}
