//! Written by asn1_compile from the module SNMPv2-PDU: change the module instead.
//!
//! SimpleSyntax.
ghost use Rattle.std.specs.Prelude.{◌↔◌, IsTrue, false};
ghost use Rattle.std.proofs.Common.{refl};
ghost use Rattle.der.specs.Prelude.{map_ok};
ghost use Rattle.der_asn1.specs.Item.{decodes_same};
ghost use Rattle.der_asn1.specs.Meaning.{alternative, choice_is_item, choice_item, choice_of, either};
ghost use Rattle.der_asn1.specs.declared.fields.either.Either.TheVariants.{First, Second};
ghost use Rattle.snmp.specs.declared.asn1.simple_syntax.SimpleSyntax.TheVariants as variant;

use crate::asn1::simple_syntax_part1::SimpleSyntaxPart1;
use crate::asn1::simple_syntax_part2::SimpleSyntaxPart2;
use der::{Decode, Encode, Error, FromFields, Lends, Length, Reader, SliceReader, Tag, Writer};
use der_asn1::{
    BorrowedItem, Choice, DecodeChoice, DecodeItem, DescribedChoice, Either, IntRef, Item,
    ObjectIdentifierRef, OctetStringRef, WrittenItem, decode_choice,
};
use std::alloc::Global;

/// A value of a universal type (RFC 3416, 3).
#[derive(Clone, Copy, Debug, Drop, PartialEq, Eq)]
pub enum SimpleSyntax<'a> {
    /// A signed number of 32 bits. Decoding does not check the range.
    IntegerValue(IntRef<'a>),
    /// Octets. Their number is not checked.
    StringValue(OctetStringRef<'a>),
    /// An OBJECT IDENTIFIER.
    ObjectIdValue(ObjectIdentifierRef<'a>),
}

// The alternatives, as nested choices of two.
pub(crate) type SimpleSyntaxAlternatives<'a> = Either<SimpleSyntaxPart1<'a>, SimpleSyntaxPart2<'a>>;

impl<'a> FromFields<SimpleSyntaxAlternatives<'a>> for SimpleSyntax<'a> {
    ghost fields = { elim [
      | variant.IntegerValue v ↦ First ((record { choice = First (v) }))
      | variant.StringValue v ↦ First ((record { choice = Second (v) }))
      | variant.ObjectIdValue v ↦ Second ((record { choice = v }))
    ] };

    fn from_fields(alternatives: SimpleSyntaxAlternatives<'a>) -> Self {
        match alternatives {
            Either::First(
                SimpleSyntaxPart1 {
                    choice: Either::First(value),
                },
            ) => SimpleSyntax::IntegerValue(value),
            Either::First(
                SimpleSyntaxPart1 {
                    choice: Either::Second(value),
                },
            ) => SimpleSyntax::StringValue(value),
            Either::Second(SimpleSyntaxPart2 { choice: value }) => SimpleSyntax::ObjectIdValue(
                value,
            ),
        }
    }
}

impl<'a> DescribedChoice for SimpleSyntax<'a> {
    ghost alternative = { choice_of (either ⟦<SimpleSyntaxPart1<'a> as DescribedChoice>⟧.alternative
        ⟦<SimpleSyntaxPart2<'a> as DescribedChoice>⟧.alternative)
        ⟦<SimpleSyntax<'a> as FromFields<SimpleSyntaxAlternatives<'a>>>⟧.fields };
}

/// Decodes the alternative with the next tag. The errors are those of decoding an [`Either`].
impl<'a, R: Lends<Borrowed = &'a [u8]>> Decode<R> for SimpleSyntax<'a> {
    type Error = Error;

    ghost is_next = { ⟦<SimpleSyntax<'a> as DescribedChoice>⟧.alternative.is_next };

    ghost decode_levels = { ⟦<SimpleSyntax<'a> as DescribedChoice>⟧.alternative.levels };

    ghost allocates = { false };

    ghost decode_answers = { λ s result t.
        ⟦<SimpleSyntaxAlternatives<'a> as Decode<SliceReader<'a>>>⟧.decode_answers s
        (map_ok ⟦<SimpleSyntax<'a> as FromFields<SimpleSyntaxAlternatives<'a>>>⟧.fields result) t };

    fn decode(alloc: Global, reader: &mut R) -> Result<Self, Error>
    where
        R: Reader,
    {
        decode_choice::<R, SimpleSyntaxAlternatives<'a>, Self>(alloc, reader)
    }
}

impl<'a> Choice for SimpleSyntax<'a> {
    ghost chooses = { ⟦<SimpleSyntax<'a> as DescribedChoice>⟧.alternative.tags };

    fn can_decode(tag: Tag) -> bool
        ensures { IsTrue result ↔ ⟦<SimpleSyntax<'a> as DescribedChoice>⟧.alternative.tags tag }
    {
        <SimpleSyntaxAlternatives<'a> as Choice>::can_decode(tag)
    }
}

impl<'a, R: Lends<Borrowed = &'a [u8]>> DecodeChoice<R> for SimpleSyntax<'a> {
    ghost begins = { ⟦<SimpleSyntax<'a> as DescribedChoice>⟧.alternative.begins };
}

/// Writes the alternative that the value has. The errors are those of writing it.
impl<'a> Encode for SimpleSyntax<'a> {
    ghost encoding = { λ v. ⟦<SimpleSyntaxAlternatives<'a> as Encode>⟧.encoding
        (⟦<SimpleSyntax<'a> as FromFields<SimpleSyntaxAlternatives<'a>>>⟧.fields v) };

    ghost encodable = { λ v. ⟦<SimpleSyntaxAlternatives<'a> as Encode>⟧.encodable
        (⟦<SimpleSyntax<'a> as FromFields<SimpleSyntaxAlternatives<'a>>>⟧.fields v) };

    ghost size = { λ v. ⟦<SimpleSyntaxAlternatives<'a> as Encode>⟧.size
        (⟦<SimpleSyntax<'a> as FromFields<SimpleSyntaxAlternatives<'a>>>⟧.fields v) };

    ghost encode_answers = { λ v. ⟦<SimpleSyntaxAlternatives<'a> as Encode>⟧.encode_answers
        (⟦<SimpleSyntax<'a> as FromFields<SimpleSyntaxAlternatives<'a>>>⟧.fields v) };

    fn encoded_len(&self) -> Result<Length, Error> {
        match self {
            SimpleSyntax::IntegerValue(value) => value.encoded_len(),
            SimpleSyntax::StringValue(value) => value.encoded_len(),
            SimpleSyntax::ObjectIdValue(value) => value.encoded_len(),
        }
    }

    fn encode<W: Writer>(&self, writer: &mut W) -> Result<(), Error> {
        match self {
            SimpleSyntax::IntegerValue(value) => value.encode(writer),
            SimpleSyntax::StringValue(value) => value.encode(writer),
            SimpleSyntax::ObjectIdValue(value) => value.encode(writer),
        }
    }

    fn len_before(&self) -> Option<u32> {
        match self {
            SimpleSyntax::IntegerValue(value) => value.len_before(),
            SimpleSyntax::StringValue(value) => value.len_before(),
            SimpleSyntax::ObjectIdValue(value) => value.len_before(),
        }
    }

    fn encode_before(&self, buf: &mut [u8], end: u32) -> u32 {
        match self {
            SimpleSyntax::IntegerValue(value) => value.encode_before(buf, end),
            SimpleSyntax::StringValue(value) => value.encode_before(buf, end),
            SimpleSyntax::ObjectIdValue(value) => value.encode_before(buf, end),
        }
    }
}

impl<'a> Item for SimpleSyntax<'a> {
    ghost item = { choice_item ⟦<SimpleSyntax<'a> as DescribedChoice>⟧.alternative };
}

impl<'a, R: Lends<Borrowed = &'a [u8]>> DecodeItem<R> for SimpleSyntax<'a> {
    ghost is_item = { choice_is_item ⟦<SimpleSyntax<'a> as DescribedChoice>⟧.alternative refl };

    ghost decodes_items = { decodes_same (choice_item
        ⟦<SimpleSyntax<'a> as DescribedChoice>⟧.alternative) };
}

impl<'a> BorrowedItem for SimpleSyntax<'a> {
    ghost borrowed = { refl };
}

impl<'a> WrittenItem for SimpleSyntax<'a> {
    ghost written = { λ v. refl };

    ghost writes_valid = { λ v is. is };
}
