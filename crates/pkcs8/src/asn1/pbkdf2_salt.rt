//! Written by asn1_compile from the module PrivateKeys: change the module instead.
//!
//! Pbkdf2Salt.
ghost use Rattle.std.specs.Prelude.{◌↔◌, IsTrue, false};
ghost use Rattle.std.proofs.Common.{refl};
ghost use Rattle.der.specs.Prelude.{map_ok};
ghost use Rattle.der_asn1.specs.Item.{decodes_same};
ghost use Rattle.der_asn1.specs.Meaning.{alternative, choice_is_item, choice_item, choice_of, either};
ghost use Rattle.der_asn1.specs.declared.fields.either.Either.TheVariants.{First, Second};
ghost use Rattle.pkcs8.specs.declared.asn1.pbkdf2_salt.Pbkdf2Salt.TheVariants as variant;

use der::{Decode, Encode, Error, FromFields, Lends, Length, Reader, SliceReader, Tag, Writer};
use der_asn1::{
    BorrowedItem, Choice, DecodeChoice, DecodeItem, Described, DescribedChoice, Either, Item,
    OctetStringRef, WrittenItem, decode_choice,
};
use spki::AlgorithmIdentifierRef;
use std::alloc::Global;

/// The salt of PBKDF2 (RFC 8018, A.2), borrowed from the input.
#[derive(Clone, Copy, Debug, Drop, PartialEq, Eq)]
pub enum Pbkdf2Salt<'a> {
    /// The octets of the salt.
    Specified(OctetStringRef<'a>),
    /// An algorithm that determines the salt.
    OtherSource(AlgorithmIdentifierRef<'a>),
}

/// The alternatives as one type: an [`Either`] of two, which may be [`Either`]s in turn.
pub type Pbkdf2SaltAlternatives<'a> = Either<OctetStringRef<'a>, AlgorithmIdentifierRef<'a>>;

impl<'a> FromFields<Pbkdf2SaltAlternatives<'a>> for Pbkdf2Salt<'a> {
    ghost fields = { elim [
      | variant.Specified v ↦ First (v)
      | variant.OtherSource v ↦ Second (v)
    ] };

    fn from_fields(alternatives: Pbkdf2SaltAlternatives<'a>) -> Self {
        match alternatives {
            Either::First(value) => Pbkdf2Salt::Specified(value),
            Either::Second(value) => Pbkdf2Salt::OtherSource(value),
        }
    }
}

impl<'a> DescribedChoice for Pbkdf2Salt<'a> {
    ghost alternative = { choice_of (either (alternative
        ⟦<OctetStringRef<'a> as Described>⟧.element) (alternative
        ⟦<AlgorithmIdentifierRef<'a> as Described>⟧.element))
        ⟦<Pbkdf2Salt<'a> as FromFields<Pbkdf2SaltAlternatives<'a>>>⟧.fields };
}

/// Decodes the alternative with the next tag. The errors are those of decoding an [`Either`].
impl<'a, R: Lends<Borrowed = &'a [u8]>> Decode<R> for Pbkdf2Salt<'a> {
    type Error = Error;

    ghost is_next = { ⟦<Pbkdf2Salt<'a> as DescribedChoice>⟧.alternative.is_next };

    ghost decode_levels = { ⟦<Pbkdf2Salt<'a> as DescribedChoice>⟧.alternative.levels };

    ghost allocates = { false };

    ghost decode_answers = { λ s result t.
        ⟦<Pbkdf2SaltAlternatives<'a> as Decode<SliceReader<'a>>>⟧.decode_answers s
        (map_ok ⟦<Pbkdf2Salt<'a> as FromFields<Pbkdf2SaltAlternatives<'a>>>⟧.fields result) t };

    fn decode(alloc: Global, reader: &mut R) -> Result<Self, Error>
    where
        R: Reader,
    {
        decode_choice::<R, Pbkdf2SaltAlternatives<'a>, Self>(alloc, reader)
    }
}

impl<'a> Choice for Pbkdf2Salt<'a> {
    ghost chooses = { ⟦<Pbkdf2Salt<'a> as DescribedChoice>⟧.alternative.tags };

    fn can_decode(tag: Tag) -> bool
        ensures { IsTrue result ↔ ⟦<Pbkdf2Salt<'a> as DescribedChoice>⟧.alternative.tags tag }
    {
        <Pbkdf2SaltAlternatives<'a> as Choice>::can_decode(tag)
    }
}

impl<'a, R: Lends<Borrowed = &'a [u8]>> DecodeChoice<R> for Pbkdf2Salt<'a> {
    ghost begins = { ⟦<Pbkdf2Salt<'a> as DescribedChoice>⟧.alternative.begins };
}

/// Writes the alternative that the value has. The errors are those of writing it.
impl<'a> Encode for Pbkdf2Salt<'a> {
    ghost encoding = { λ v. ⟦<Pbkdf2SaltAlternatives<'a> as Encode>⟧.encoding
        (⟦<Pbkdf2Salt<'a> as FromFields<Pbkdf2SaltAlternatives<'a>>>⟧.fields v) };

    ghost encodable = { λ v. ⟦<Pbkdf2SaltAlternatives<'a> as Encode>⟧.encodable
        (⟦<Pbkdf2Salt<'a> as FromFields<Pbkdf2SaltAlternatives<'a>>>⟧.fields v) };

    ghost size = { λ v. ⟦<Pbkdf2SaltAlternatives<'a> as Encode>⟧.size
        (⟦<Pbkdf2Salt<'a> as FromFields<Pbkdf2SaltAlternatives<'a>>>⟧.fields v) };

    ghost encode_answers = { λ v. ⟦<Pbkdf2SaltAlternatives<'a> as Encode>⟧.encode_answers
        (⟦<Pbkdf2Salt<'a> as FromFields<Pbkdf2SaltAlternatives<'a>>>⟧.fields v) };

    fn encoded_len(&self) -> Result<Length, Error> {
        match self {
            Pbkdf2Salt::Specified(value) => value.encoded_len(),
            Pbkdf2Salt::OtherSource(value) => value.encoded_len(),
        }
    }

    fn encode<W: Writer>(&self, writer: &mut W) -> Result<(), Error> {
        match self {
            Pbkdf2Salt::Specified(value) => value.encode(writer),
            Pbkdf2Salt::OtherSource(value) => value.encode(writer),
        }
    }

    fn len_before(&self) -> Option<u32> {
        match self {
            Pbkdf2Salt::Specified(value) => value.len_before(),
            Pbkdf2Salt::OtherSource(value) => value.len_before(),
        }
    }

    fn encode_before(&self, buf: &mut [u8], end: u32) -> u32 {
        match self {
            Pbkdf2Salt::Specified(value) => value.encode_before(buf, end),
            Pbkdf2Salt::OtherSource(value) => value.encode_before(buf, end),
        }
    }
}

impl<'a> Item for Pbkdf2Salt<'a> {
    ghost item = { choice_item ⟦<Pbkdf2Salt<'a> as DescribedChoice>⟧.alternative };
}

impl<'a, R: Lends<Borrowed = &'a [u8]>> DecodeItem<R> for Pbkdf2Salt<'a> {
    ghost is_item = { choice_is_item ⟦<Pbkdf2Salt<'a> as DescribedChoice>⟧.alternative refl };

    ghost decodes_items = { decodes_same (choice_item
        ⟦<Pbkdf2Salt<'a> as DescribedChoice>⟧.alternative) };
}

impl<'a> BorrowedItem for Pbkdf2Salt<'a> {
    ghost borrowed = { refl };
}

impl<'a> WrittenItem for Pbkdf2Salt<'a> {
    ghost written = { λ v. refl };

    ghost writes_valid = { λ v is. is };
}
