//! Written by asn1_compile from the module SEC1: change the module instead.
//!
//! EcParameters.
ghost use Rattle.std.specs.Prelude.{◌↔◌, IsTrue, false};
ghost use Rattle.std.proofs.Common.{refl};
ghost use Rattle.der.specs.Prelude.{map_ok};
ghost use Rattle.der_asn1.specs.Item.{decodes_same};
ghost use Rattle.der_asn1.specs.Meaning.{alternative, choice_is_item, choice_item, choice_of, either};
ghost use Rattle.der_asn1.specs.declared.fields.either.Either.TheVariants.{First, Second};
ghost use Rattle.sec1.specs.declared.asn1.ec_parameters.EcParameters.TheVariants as variant;

use crate::asn1::ec_parameters_part1::EcParametersPart1;
use crate::asn1::ec_parameters_part2::EcParametersPart2;
use crate::asn1::specified_ec_domain::SpecifiedEcDomain;
use der::{Decode, Encode, Error, FromFields, Lends, Length, Reader, SliceReader, Tag, Writer};
use der_asn1::{
    BorrowedItem, Choice, DecodeChoice, DecodeItem, DescribedChoice, Either, Item, Null,
    ObjectIdentifierRef, WrittenItem, decode_choice,
};
use std::alloc::Global;

/// An elliptic curve (RFC 5480, 2.1.1; SEC 1, C.2). RFC 5480 requires `namedCurve` in certificates;
/// decoding accepts all three.
#[derive(Clone, Copy, Debug, Drop, PartialEq, Eq)]
pub enum EcParameters<'a> {
    /// The OBJECT IDENTIFIER of the curve.
    NamedCurve(ObjectIdentifierRef<'a>),
    /// NULL: the curve is known from elsewhere.
    ImplicitCurve(Null<'a>),
    /// The numbers that specify the curve.
    SpecifiedCurve(SpecifiedEcDomain<'a>),
}

// The alternatives, as nested choices of two.
pub(crate) type EcParametersAlternatives<'a> = Either<EcParametersPart1<'a>, EcParametersPart2<'a>>;

impl<'a> FromFields<EcParametersAlternatives<'a>> for EcParameters<'a> {
    ghost fields = { elim [
      | variant.NamedCurve v ↦ First ((record { choice = First (v) }))
      | variant.ImplicitCurve v ↦ First ((record { choice = Second (v) }))
      | variant.SpecifiedCurve v ↦ Second ((record { choice = v }))
    ] };

    fn from_fields(alternatives: EcParametersAlternatives<'a>) -> Self {
        match alternatives {
            Either::First(
                EcParametersPart1 {
                    choice: Either::First(value),
                },
            ) => EcParameters::NamedCurve(value),
            Either::First(
                EcParametersPart1 {
                    choice: Either::Second(value),
                },
            ) => EcParameters::ImplicitCurve(value),
            Either::Second(EcParametersPart2 { choice: value }) => EcParameters::SpecifiedCurve(
                value,
            ),
        }
    }
}

impl<'a> DescribedChoice for EcParameters<'a> {
    ghost alternative = { choice_of (either ⟦<EcParametersPart1<'a> as DescribedChoice>⟧.alternative
        ⟦<EcParametersPart2<'a> as DescribedChoice>⟧.alternative)
        ⟦<EcParameters<'a> as FromFields<EcParametersAlternatives<'a>>>⟧.fields };
}

/// Decodes the alternative with the next tag. The errors are those of decoding an [`Either`].
impl<'a, R: Lends<Borrowed = &'a [u8]>> Decode<R> for EcParameters<'a> {
    type Error = Error;

    ghost is_next = { ⟦<EcParameters<'a> as DescribedChoice>⟧.alternative.is_next };

    ghost decode_levels = { ⟦<EcParameters<'a> as DescribedChoice>⟧.alternative.levels };

    ghost allocates = { false };

    ghost decode_answers = { λ s result t.
        ⟦<EcParametersAlternatives<'a> as Decode<SliceReader<'a>>>⟧.decode_answers s
        (map_ok ⟦<EcParameters<'a> as FromFields<EcParametersAlternatives<'a>>>⟧.fields result) t };

    fn decode(alloc: Global, reader: &mut R) -> Result<Self, Error>
    where
        R: Reader,
    {
        decode_choice::<R, EcParametersAlternatives<'a>, Self>(alloc, reader)
    }
}

impl<'a> Choice for EcParameters<'a> {
    ghost chooses = { ⟦<EcParameters<'a> as DescribedChoice>⟧.alternative.tags };

    fn can_decode(tag: Tag) -> bool
        ensures { IsTrue result ↔ ⟦<EcParameters<'a> as DescribedChoice>⟧.alternative.tags tag }
    {
        <EcParametersAlternatives<'a> as Choice>::can_decode(tag)
    }
}

impl<'a, R: Lends<Borrowed = &'a [u8]>> DecodeChoice<R> for EcParameters<'a> {
    ghost begins = { ⟦<EcParameters<'a> as DescribedChoice>⟧.alternative.begins };
}

/// Writes the alternative that the value has. The errors are those of writing it.
impl<'a> Encode for EcParameters<'a> {
    ghost encoding = { λ v. ⟦<EcParametersAlternatives<'a> as Encode>⟧.encoding
        (⟦<EcParameters<'a> as FromFields<EcParametersAlternatives<'a>>>⟧.fields v) };

    ghost encodable = { λ v. ⟦<EcParametersAlternatives<'a> as Encode>⟧.encodable
        (⟦<EcParameters<'a> as FromFields<EcParametersAlternatives<'a>>>⟧.fields v) };

    ghost size = { λ v. ⟦<EcParametersAlternatives<'a> as Encode>⟧.size
        (⟦<EcParameters<'a> as FromFields<EcParametersAlternatives<'a>>>⟧.fields v) };

    ghost encode_answers = { λ v. ⟦<EcParametersAlternatives<'a> as Encode>⟧.encode_answers
        (⟦<EcParameters<'a> as FromFields<EcParametersAlternatives<'a>>>⟧.fields v) };

    fn encoded_len(&self) -> Result<Length, Error> {
        match self {
            EcParameters::NamedCurve(value) => value.encoded_len(),
            EcParameters::ImplicitCurve(value) => value.encoded_len(),
            EcParameters::SpecifiedCurve(value) => value.encoded_len(),
        }
    }

    fn encode<W: Writer>(&self, writer: &mut W) -> Result<(), Error> {
        match self {
            EcParameters::NamedCurve(value) => value.encode(writer),
            EcParameters::ImplicitCurve(value) => value.encode(writer),
            EcParameters::SpecifiedCurve(value) => value.encode(writer),
        }
    }

    fn len_before(&self) -> Option<u32> {
        match self {
            EcParameters::NamedCurve(value) => value.len_before(),
            EcParameters::ImplicitCurve(value) => value.len_before(),
            EcParameters::SpecifiedCurve(value) => value.len_before(),
        }
    }

    fn encode_before(&self, buf: &mut [u8], end: u32) -> u32 {
        match self {
            EcParameters::NamedCurve(value) => value.encode_before(buf, end),
            EcParameters::ImplicitCurve(value) => value.encode_before(buf, end),
            EcParameters::SpecifiedCurve(value) => value.encode_before(buf, end),
        }
    }
}

impl<'a> Item for EcParameters<'a> {
    ghost item = { choice_item ⟦<EcParameters<'a> as DescribedChoice>⟧.alternative };
}

impl<'a, R: Lends<Borrowed = &'a [u8]>> DecodeItem<R> for EcParameters<'a> {
    ghost is_item = { choice_is_item ⟦<EcParameters<'a> as DescribedChoice>⟧.alternative refl };

    ghost decodes_items = { decodes_same (choice_item
        ⟦<EcParameters<'a> as DescribedChoice>⟧.alternative) };
}

impl<'a> BorrowedItem for EcParameters<'a> {
    ghost borrowed = { refl };
}

impl<'a> WrittenItem for EcParameters<'a> {
    ghost written = { λ v. refl };

    ghost writes_valid = { λ v is. is };
}
