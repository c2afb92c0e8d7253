//! Written by asn1_compile from the module X509: change the module instead.
//!
//! DistributionPointName.
ghost use Rattle.std.specs.Prelude.{◌↔◌, IsTrue, false};
ghost use Rattle.std.proofs.Common.{refl};
ghost use Rattle.der.specs.Prelude.{map_ok};
ghost use Rattle.der_asn1.specs.Item.{decodes_same};
ghost use Rattle.der_asn1.specs.Meaning.{alternative, choice_is_item, choice_item, choice_of, either};
ghost use Rattle.der_asn1.specs.declared.fields.either.Either.TheVariants.{First, Second};
ghost use Rattle.x509.specs.declared.asn1.distribution_point_name.DistributionPointName.TheVariants as variant;

use crate::asn1::general_names::GeneralNames;
use crate::asn1::relative_distinguished_name::RelativeDistinguishedName;
use der::{Decode, Encode, Error, FromFields, Lends, Length, Reader, SliceReader, Tag, Writer};
use der_asn1::{
    BorrowedItem, Choice, DecodeChoice, DecodeItem, Described, DescribedChoice, Either, Implicit,
    Item, WrittenItem, decode_choice,
};
use std::alloc::Global;

/// The name of a place where a revocation list is found (RFC 5280, 4.2.1.13), borrowed from the
/// input.
#[derive(Clone, Copy, Debug, Drop, PartialEq, Eq)]
pub enum DistributionPointName<'a> {
    /// Whole names of the place.
    FullName(Implicit<GeneralNames<'a>, 0>),
    /// One level of a distinguished name, which is appended to the name of the list's issuer.
    NameRelativeToCrlIssuer(Implicit<RelativeDistinguishedName<'a>, 1>),
}

/// The alternatives as one type: an [`Either`] of two, which may be [`Either`]s in turn.
pub type DistributionPointNameAlternatives<'a> = Either<
    Implicit<GeneralNames<'a>, 0>,
    Implicit<RelativeDistinguishedName<'a>, 1>,
>;

impl<'a> FromFields<DistributionPointNameAlternatives<'a>> for DistributionPointName<'a> {
    ghost fields = { elim [
      | variant.FullName v ↦ First (v)
      | variant.NameRelativeToCrlIssuer v ↦ Second (v)
    ] };

    fn from_fields(alternatives: DistributionPointNameAlternatives<'a>) -> Self {
        match alternatives {
            Either::First(value) => DistributionPointName::FullName(value),
            Either::Second(value) => DistributionPointName::NameRelativeToCrlIssuer(value),
        }
    }
}

impl<'a> DescribedChoice for DistributionPointName<'a> {
    ghost alternative = { choice_of (either (alternative
        ⟦<Implicit<GeneralNames<'a>, 0> as Described>⟧.element) (alternative
        ⟦<Implicit<RelativeDistinguishedName<'a>, 1> as Described>⟧.element))
        ⟦<DistributionPointName<'a> as FromFields<DistributionPointNameAlternatives<'a>>>⟧.fields };
}

/// Decodes the alternative with the next tag. The errors are those of decoding an [`Either`].
impl<'a, R: Lends<Borrowed = &'a [u8]>> Decode<R> for DistributionPointName<'a> {
    type Error = Error;

    ghost is_next = { ⟦<DistributionPointName<'a> as DescribedChoice>⟧.alternative.is_next };

    ghost decode_levels = { ⟦<DistributionPointName<'a> as DescribedChoice>⟧.alternative.levels };

    ghost allocates = { false };

    ghost decode_answers = { λ s result t.
        ⟦<DistributionPointNameAlternatives<'a> as Decode<SliceReader<'a>>>⟧.decode_answers s
        (map_ok
        ⟦<DistributionPointName<'a> as FromFields<DistributionPointNameAlternatives<'a>>>⟧.fields result) t };

    fn decode(alloc: Global, reader: &mut R) -> Result<Self, Error>
    where
        R: Reader,
    {
        decode_choice::<R, DistributionPointNameAlternatives<'a>, Self>(alloc, reader)
    }
}

impl<'a> Choice for DistributionPointName<'a> {
    ghost chooses = { ⟦<DistributionPointName<'a> as DescribedChoice>⟧.alternative.tags };

    fn can_decode(tag: Tag) -> bool
        ensures { IsTrue result ↔
            ⟦<DistributionPointName<'a> as DescribedChoice>⟧.alternative.tags tag }
    {
        <DistributionPointNameAlternatives<'a> as Choice>::can_decode(tag)
    }
}

impl<'a, R: Lends<Borrowed = &'a [u8]>> DecodeChoice<R> for DistributionPointName<'a> {
    ghost begins = { ⟦<DistributionPointName<'a> as DescribedChoice>⟧.alternative.begins };
}

/// Writes the alternative that the value has. The errors are those of writing it.
impl<'a> Encode for DistributionPointName<'a> {
    ghost encoding = { λ v. ⟦<DistributionPointNameAlternatives<'a> as Encode>⟧.encoding
        (⟦<DistributionPointName<'a> as FromFields<DistributionPointNameAlternatives<'a>>>⟧.fields v) };

    ghost encodable = { λ v. ⟦<DistributionPointNameAlternatives<'a> as Encode>⟧.encodable
        (⟦<DistributionPointName<'a> as FromFields<DistributionPointNameAlternatives<'a>>>⟧.fields v) };

    ghost size = { λ v. ⟦<DistributionPointNameAlternatives<'a> as Encode>⟧.size
        (⟦<DistributionPointName<'a> as FromFields<DistributionPointNameAlternatives<'a>>>⟧.fields v) };

    ghost encode_answers = { λ v. ⟦<DistributionPointNameAlternatives<'a> as Encode>⟧.encode_answers
        (⟦<DistributionPointName<'a> as FromFields<DistributionPointNameAlternatives<'a>>>⟧.fields v) };

    fn encoded_len(&self) -> Result<Length, Error> {
        match self {
            DistributionPointName::FullName(value) => value.encoded_len(),
            DistributionPointName::NameRelativeToCrlIssuer(value) => value.encoded_len(),
        }
    }

    fn encode<W: Writer>(&self, writer: &mut W) -> Result<(), Error> {
        match self {
            DistributionPointName::FullName(value) => value.encode(writer),
            DistributionPointName::NameRelativeToCrlIssuer(value) => value.encode(writer),
        }
    }

    fn len_before(&self) -> Option<u32> {
        match self {
            DistributionPointName::FullName(value) => value.len_before(),
            DistributionPointName::NameRelativeToCrlIssuer(value) => value.len_before(),
        }
    }

    fn encode_before(&self, buf: &mut [u8], end: u32) -> u32 {
        match self {
            DistributionPointName::FullName(value) => value.encode_before(buf, end),
            DistributionPointName::NameRelativeToCrlIssuer(value) => value.encode_before(buf, end),
        }
    }
}

impl<'a> Item for DistributionPointName<'a> {
    ghost item = { choice_item ⟦<DistributionPointName<'a> as DescribedChoice>⟧.alternative };
}

impl<'a, R: Lends<Borrowed = &'a [u8]>> DecodeItem<R> for DistributionPointName<'a> {
    ghost is_item = { choice_is_item
        ⟦<DistributionPointName<'a> as DescribedChoice>⟧.alternative refl };

    ghost decodes_items = { decodes_same (choice_item
        ⟦<DistributionPointName<'a> as DescribedChoice>⟧.alternative) };
}

impl<'a> BorrowedItem for DistributionPointName<'a> {
    ghost borrowed = { refl };
}

impl<'a> WrittenItem for DistributionPointName<'a> {
    ghost written = { λ v. refl };

    ghost writes_valid = { λ v is. is };
}
