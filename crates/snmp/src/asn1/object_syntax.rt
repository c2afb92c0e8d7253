//! Written by asn1_compile from the module SNMPv2-PDU: change the module instead.
//!
//! ObjectSyntax.
ghost use Rattle.std.specs.Prelude.{◌↔◌, IsTrue, false};
ghost use Rattle.std.proofs.Common.{refl};
ghost use Rattle.der.specs.Prelude.{map_ok};
ghost use Rattle.der_asn1.specs.Item.{decodes_same};
ghost use Rattle.der_asn1.specs.Meaning.{alternative, choice_is_item, choice_item, choice_of, either};
ghost use Rattle.der_asn1.specs.declared.fields.either.Either.TheVariants.{First, Second};
ghost use Rattle.snmp.specs.declared.asn1.object_syntax.ObjectSyntax.TheVariants as variant;

use crate::asn1::application_syntax::ApplicationSyntax;
use crate::asn1::simple_syntax::SimpleSyntax;
use der::{Decode, Encode, Error, FromFields, Lends, Length, Reader, SliceReader, Tag, Writer};
use der_asn1::{
    BorrowedItem, Choice, DecodeChoice, DecodeItem, DescribedChoice, Either, Item, WrittenItem,
    decode_choice,
};
use std::alloc::Global;

/// The value of a variable (RFC 3416, 3).
#[derive(Clone, Copy, Debug, Drop, PartialEq, Eq)]
pub enum ObjectSyntax<'a> {
    /// A value of a universal type.
    Simple(SimpleSyntax<'a>),
    /// A value of a type with a tag of class APPLICATION.
    ApplicationWide(ApplicationSyntax<'a>),
}

/// The alternatives as one type: an [`Either`] of two, which may be [`Either`]s in turn.
pub type ObjectSyntaxAlternatives<'a> = Either<SimpleSyntax<'a>, ApplicationSyntax<'a>>;

impl<'a> FromFields<ObjectSyntaxAlternatives<'a>> for ObjectSyntax<'a> {
    ghost fields = { elim [
      | variant.Simple v ↦ First (v)
      | variant.ApplicationWide v ↦ Second (v)
    ] };

    fn from_fields(alternatives: ObjectSyntaxAlternatives<'a>) -> Self {
        match alternatives {
            Either::First(value) => ObjectSyntax::Simple(value),
            Either::Second(value) => ObjectSyntax::ApplicationWide(value),
        }
    }
}

impl<'a> DescribedChoice for ObjectSyntax<'a> {
    ghost alternative = { choice_of (either ⟦<SimpleSyntax<'a> as DescribedChoice>⟧.alternative
        ⟦<ApplicationSyntax<'a> as DescribedChoice>⟧.alternative)
        ⟦<ObjectSyntax<'a> as FromFields<ObjectSyntaxAlternatives<'a>>>⟧.fields };
}

/// Decodes the alternative with the next tag. The errors are those of decoding an [`Either`].
impl<'a, R: Lends<Borrowed = &'a [u8]>> Decode<R> for ObjectSyntax<'a> {
    type Error = Error;

    ghost is_next = { ⟦<ObjectSyntax<'a> as DescribedChoice>⟧.alternative.is_next };

    ghost decode_levels = { ⟦<ObjectSyntax<'a> as DescribedChoice>⟧.alternative.levels };

    ghost allocates = { false };

    ghost decode_answers = { λ s result t.
        ⟦<ObjectSyntaxAlternatives<'a> as Decode<SliceReader<'a>>>⟧.decode_answers s
        (map_ok ⟦<ObjectSyntax<'a> as FromFields<ObjectSyntaxAlternatives<'a>>>⟧.fields result) t };

    fn decode(alloc: Global, reader: &mut R) -> Result<Self, Error>
    where
        R: Reader,
    {
        decode_choice::<R, ObjectSyntaxAlternatives<'a>, Self>(alloc, reader)
    }
}

impl<'a> Choice for ObjectSyntax<'a> {
    ghost chooses = { ⟦<ObjectSyntax<'a> as DescribedChoice>⟧.alternative.tags };

    fn can_decode(tag: Tag) -> bool
        ensures { IsTrue result ↔ ⟦<ObjectSyntax<'a> as DescribedChoice>⟧.alternative.tags tag }
    {
        <ObjectSyntaxAlternatives<'a> as Choice>::can_decode(tag)
    }
}

impl<'a, R: Lends<Borrowed = &'a [u8]>> DecodeChoice<R> for ObjectSyntax<'a> {
    ghost begins = { ⟦<ObjectSyntax<'a> as DescribedChoice>⟧.alternative.begins };
}

/// Writes the alternative that the value has. The errors are those of writing it.
impl<'a> Encode for ObjectSyntax<'a> {
    ghost encoding = { λ v. ⟦<ObjectSyntaxAlternatives<'a> as Encode>⟧.encoding
        (⟦<ObjectSyntax<'a> as FromFields<ObjectSyntaxAlternatives<'a>>>⟧.fields v) };

    ghost encodable = { λ v. ⟦<ObjectSyntaxAlternatives<'a> as Encode>⟧.encodable
        (⟦<ObjectSyntax<'a> as FromFields<ObjectSyntaxAlternatives<'a>>>⟧.fields v) };

    ghost size = { λ v. ⟦<ObjectSyntaxAlternatives<'a> as Encode>⟧.size
        (⟦<ObjectSyntax<'a> as FromFields<ObjectSyntaxAlternatives<'a>>>⟧.fields v) };

    ghost encode_answers = { λ v. ⟦<ObjectSyntaxAlternatives<'a> as Encode>⟧.encode_answers
        (⟦<ObjectSyntax<'a> as FromFields<ObjectSyntaxAlternatives<'a>>>⟧.fields v) };

    fn encoded_len(&self) -> Result<Length, Error> {
        match self {
            ObjectSyntax::Simple(value) => value.encoded_len(),
            ObjectSyntax::ApplicationWide(value) => value.encoded_len(),
        }
    }

    fn encode<W: Writer>(&self, writer: &mut W) -> Result<(), Error> {
        match self {
            ObjectSyntax::Simple(value) => value.encode(writer),
            ObjectSyntax::ApplicationWide(value) => value.encode(writer),
        }
    }

    fn len_before(&self) -> Option<u32> {
        match self {
            ObjectSyntax::Simple(value) => value.len_before(),
            ObjectSyntax::ApplicationWide(value) => value.len_before(),
        }
    }

    fn encode_before(&self, buf: &mut [u8], end: u32) -> u32 {
        match self {
            ObjectSyntax::Simple(value) => value.encode_before(buf, end),
            ObjectSyntax::ApplicationWide(value) => value.encode_before(buf, end),
        }
    }
}

impl<'a> Item for ObjectSyntax<'a> {
    ghost item = { choice_item ⟦<ObjectSyntax<'a> as DescribedChoice>⟧.alternative };
}

impl<'a, R: Lends<Borrowed = &'a [u8]>> DecodeItem<R> for ObjectSyntax<'a> {
    ghost is_item = { choice_is_item ⟦<ObjectSyntax<'a> as DescribedChoice>⟧.alternative refl };

    ghost decodes_items = { decodes_same (choice_item
        ⟦<ObjectSyntax<'a> as DescribedChoice>⟧.alternative) };
}

impl<'a> BorrowedItem for ObjectSyntax<'a> {
    ghost borrowed = { refl };
}

impl<'a> WrittenItem for ObjectSyntax<'a> {
    ghost written = { λ v. refl };

    ghost writes_valid = { λ v is. is };
}
