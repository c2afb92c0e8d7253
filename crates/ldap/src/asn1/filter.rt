//! Written by asn1_compile from the module Lightweight-Directory-Access-Protocol-V3: change the module instead.
//!
//! Filter.
ghost use Rattle.std.specs.Prelude.{◌↔◌, IsTrue, false};
ghost use Rattle.std.proofs.Common.{refl};
ghost use Rattle.der.specs.Prelude.{map_ok};
ghost use Rattle.der_asn1.specs.Item.{decodes_same};
ghost use Rattle.der_asn1.specs.Meaning.{alternative, choice_is_item, choice_item, choice_of, either};
ghost use Rattle.der_asn1.specs.declared.fields.either.Either.TheVariants.{First, Second};
ghost use Rattle.ldap.specs.declared.asn1.filter.Filter.TheVariants as variant;

use crate::asn1::attribute_description::AttributeDescription;
use crate::asn1::attribute_value_assertion::AttributeValueAssertion;
use crate::asn1::filter_known::FilterKnown;
use crate::asn1::filter_part1::FilterPart1;
use crate::asn1::filter_part2::FilterPart2;
use crate::asn1::filter_part3::FilterPart3;
use crate::asn1::filter_part4::FilterPart4;
use crate::asn1::matching_rule_assertion::MatchingRuleAssertion;
use crate::asn1::substring_filter::SubstringFilter;
use der::{Decode, Encode, Error, FromFields, Lends, Length, Reader, SliceReader, Tag, Writer};
use der_asn1::{
    AnyRef, BorrowedItem, Choice, DecodeChoice, DecodeItem, DescribedChoice, Either, ExplicitAny,
    Implicit, Item, SetOf, UnknownElement, WrittenItem, decode_choice,
};
use std::alloc::Global;

/// A condition that selects entries (RFC 4511, 4.5.1.7). Filters inside a filter are kept as
/// elements, which `decode_as` decodes.
#[derive(Clone, Copy, Debug, Drop, PartialEq, Eq)]
pub enum Filter<'a> {
    /// All of these filters hold.
    /// `Filter` contains itself here: the element is kept as it was read. `decode_as` of `AnyRef` decodes it.
    And(Implicit<SetOf<'a, AnyRef<'a>>, 0>),
    /// At least one of these filters holds.
    /// `Filter` contains itself here: the element is kept as it was read. `decode_as` of `AnyRef` decodes it.
    Or(Implicit<SetOf<'a, AnyRef<'a>>, 1>),
    /// This filter does not hold.
    /// `Filter` contains itself here: the element is kept as it was read. `decode_as` of `AnyRef` decodes it.
    Not(ExplicitAny<'a, 2>),
    /// The attribute has this value.
    EqualityMatch(Implicit<AttributeValueAssertion<'a>, 3>),
    /// The attribute has a value with these parts.
    Substrings(Implicit<SubstringFilter<'a>, 4>),
    /// The attribute has a value that is greater than or equal to this one.
    GreaterOrEqual(Implicit<AttributeValueAssertion<'a>, 5>),
    /// The attribute has a value that is less than or equal to this one.
    LessOrEqual(Implicit<AttributeValueAssertion<'a>, 6>),
    /// The entry has this attribute.
    Present(Implicit<AttributeDescription<'a>, 7>),
    /// The attribute has a value that approximately equals this one.
    ApproxMatch(Implicit<AttributeValueAssertion<'a>, 8>),
    /// A matching rule finds this value in the entry.
    ExtensibleMatch(Implicit<MatchingRuleAssertion<'a>, 9>),
    /// An alternative that the ASN.1 module does not have, as it was read.
    Unknown(UnknownElement<'a, FilterKnown>),
}

// The alternatives, as nested choices of two.
pub(crate) type FilterAlternatives<'a> = Either<
    FilterPart1<'a>,
    Either<FilterPart2<'a>, Either<FilterPart3<'a>, FilterPart4<'a>>>,
>;

impl<'a> FromFields<FilterAlternatives<'a>> for Filter<'a> {
    ghost fields = { elim [
      | variant.And v ↦ First ((record { choice = First (v) }))
      | variant.Or v ↦ First ((record { choice = Second (First (v)) }))
      | variant.Not v ↦ First ((record { choice = Second (Second (v)) }))
      | variant.EqualityMatch v ↦ Second (First ((record { choice = First (v) })))
      | variant.Substrings v ↦ Second (First ((record { choice = Second (First (v)) })))
      | variant.GreaterOrEqual v ↦ Second (First ((record { choice = Second (Second (v)) })))
      | variant.LessOrEqual v ↦ Second (Second (First ((record { choice = First (v) }))))
      | variant.Present v ↦ Second (Second (First ((record { choice = Second (First (v)) }))))
      | variant.ApproxMatch v ↦ Second (Second (First ((record { choice = Second (Second (v)) }))))
      | variant.ExtensibleMatch v ↦ Second (Second (Second ((record { choice = First (v) }))))
      | variant.Unknown v ↦ Second (Second (Second ((record { choice = Second (v) }))))
    ] };

    fn from_fields(alternatives: FilterAlternatives<'a>) -> Self {
        match alternatives {
            Either::First(
                FilterPart1 {
                    choice: Either::First(value),
                },
            ) => Filter::And(value),
            Either::First(
                FilterPart1 {
                    choice: Either::Second(Either::First(value)),
                },
            ) => Filter::Or(value),
            Either::First(
                FilterPart1 {
                    choice: Either::Second(Either::Second(value)),
                },
            ) => Filter::Not(value),
            Either::Second(
                Either::First(
                    FilterPart2 {
                        choice: Either::First(value),
                    },
                ),
            ) => Filter::EqualityMatch(value),
            Either::Second(
                Either::First(
                    FilterPart2 {
                        choice: Either::Second(Either::First(value)),
                    },
                ),
            ) => Filter::Substrings(value),
            Either::Second(
                Either::First(
                    FilterPart2 {
                        choice: Either::Second(Either::Second(value)),
                    },
                ),
            ) => Filter::GreaterOrEqual(value),
            Either::Second(
                Either::Second(
                    Either::First(
                        FilterPart3 {
                            choice: Either::First(value),
                        },
                    ),
                ),
            ) => Filter::LessOrEqual(value),
            Either::Second(
                Either::Second(
                    Either::First(
                        FilterPart3 {
                            choice: Either::Second(Either::First(value)),
                        },
                    ),
                ),
            ) => Filter::Present(value),
            Either::Second(
                Either::Second(
                    Either::First(
                        FilterPart3 {
                            choice: Either::Second(Either::Second(value)),
                        },
                    ),
                ),
            ) => Filter::ApproxMatch(value),
            Either::Second(
                Either::Second(
                    Either::Second(
                        FilterPart4 {
                            choice: Either::First(value),
                        },
                    ),
                ),
            ) => Filter::ExtensibleMatch(value),
            Either::Second(
                Either::Second(
                    Either::Second(
                        FilterPart4 {
                            choice: Either::Second(value),
                        },
                    ),
                ),
            ) => Filter::Unknown(value),
        }
    }
}

impl<'a> DescribedChoice for Filter<'a> {
    ghost alternative = { choice_of (either ⟦<FilterPart1<'a> as DescribedChoice>⟧.alternative
        (either ⟦<FilterPart2<'a> as DescribedChoice>⟧.alternative (either
        ⟦<FilterPart3<'a> as DescribedChoice>⟧.alternative
        ⟦<FilterPart4<'a> as DescribedChoice>⟧.alternative)))
        ⟦<Filter<'a> as FromFields<FilterAlternatives<'a>>>⟧.fields };
}

/// Decodes the alternative with the next tag. The errors are those of decoding an [`Either`].
impl<'a, R: Lends<Borrowed = &'a [u8]>> Decode<R> for Filter<'a> {
    type Error = Error;

    ghost is_next = { ⟦<Filter<'a> as DescribedChoice>⟧.alternative.is_next };

    ghost decode_levels = { ⟦<Filter<'a> as DescribedChoice>⟧.alternative.levels };

    ghost allocates = { false };

    ghost decode_answers = { λ s result t.
        ⟦<FilterAlternatives<'a> as Decode<SliceReader<'a>>>⟧.decode_answers s
        (map_ok ⟦<Filter<'a> as FromFields<FilterAlternatives<'a>>>⟧.fields result) t };

    fn decode(alloc: Global, reader: &mut R) -> Result<Self, Error>
    where
        R: Reader,
    {
        decode_choice::<R, FilterAlternatives<'a>, Self>(alloc, reader)
    }
}

impl<'a> Choice for Filter<'a> {
    ghost chooses = { ⟦<Filter<'a> as DescribedChoice>⟧.alternative.tags };

    fn can_decode(tag: Tag) -> bool
        ensures { IsTrue result ↔ ⟦<Filter<'a> as DescribedChoice>⟧.alternative.tags tag }
    {
        <FilterAlternatives<'a> as Choice>::can_decode(tag)
    }
}

impl<'a, R: Lends<Borrowed = &'a [u8]>> DecodeChoice<R> for Filter<'a> {
    ghost begins = { ⟦<Filter<'a> as DescribedChoice>⟧.alternative.begins };
}

/// Writes the alternative that the value has. The errors are those of writing it.
impl<'a> Encode for Filter<'a> {
    ghost encoding = { λ v. ⟦<FilterAlternatives<'a> as Encode>⟧.encoding
        (⟦<Filter<'a> as FromFields<FilterAlternatives<'a>>>⟧.fields v) };

    ghost encodable = { λ v. ⟦<FilterAlternatives<'a> as Encode>⟧.encodable
        (⟦<Filter<'a> as FromFields<FilterAlternatives<'a>>>⟧.fields v) };

    ghost size = { λ v. ⟦<FilterAlternatives<'a> as Encode>⟧.size
        (⟦<Filter<'a> as FromFields<FilterAlternatives<'a>>>⟧.fields v) };

    ghost encode_answers = { λ v. ⟦<FilterAlternatives<'a> as Encode>⟧.encode_answers
        (⟦<Filter<'a> as FromFields<FilterAlternatives<'a>>>⟧.fields v) };

    fn encoded_len(&self) -> Result<Length, Error> {
        match self {
            Filter::And(value) => value.encoded_len(),
            Filter::Or(value) => value.encoded_len(),
            Filter::Not(value) => value.encoded_len(),
            Filter::EqualityMatch(value) => value.encoded_len(),
            Filter::Substrings(value) => value.encoded_len(),
            Filter::GreaterOrEqual(value) => value.encoded_len(),
            Filter::LessOrEqual(value) => value.encoded_len(),
            Filter::Present(value) => value.encoded_len(),
            Filter::ApproxMatch(value) => value.encoded_len(),
            Filter::ExtensibleMatch(value) => value.encoded_len(),
            Filter::Unknown(value) => value.encoded_len(),
        }
    }

    fn encode<W: Writer>(&self, writer: &mut W) -> Result<(), Error> {
        match self {
            Filter::And(value) => value.encode(writer),
            Filter::Or(value) => value.encode(writer),
            Filter::Not(value) => value.encode(writer),
            Filter::EqualityMatch(value) => value.encode(writer),
            Filter::Substrings(value) => value.encode(writer),
            Filter::GreaterOrEqual(value) => value.encode(writer),
            Filter::LessOrEqual(value) => value.encode(writer),
            Filter::Present(value) => value.encode(writer),
            Filter::ApproxMatch(value) => value.encode(writer),
            Filter::ExtensibleMatch(value) => value.encode(writer),
            Filter::Unknown(value) => value.encode(writer),
        }
    }

    fn len_before(&self) -> Option<u32> {
        match self {
            Filter::And(value) => value.len_before(),
            Filter::Or(value) => value.len_before(),
            Filter::Not(value) => value.len_before(),
            Filter::EqualityMatch(value) => value.len_before(),
            Filter::Substrings(value) => value.len_before(),
            Filter::GreaterOrEqual(value) => value.len_before(),
            Filter::LessOrEqual(value) => value.len_before(),
            Filter::Present(value) => value.len_before(),
            Filter::ApproxMatch(value) => value.len_before(),
            Filter::ExtensibleMatch(value) => value.len_before(),
            Filter::Unknown(value) => value.len_before(),
        }
    }

    fn encode_before(&self, buf: &mut [u8], end: u32) -> u32 {
        match self {
            Filter::And(value) => value.encode_before(buf, end),
            Filter::Or(value) => value.encode_before(buf, end),
            Filter::Not(value) => value.encode_before(buf, end),
            Filter::EqualityMatch(value) => value.encode_before(buf, end),
            Filter::Substrings(value) => value.encode_before(buf, end),
            Filter::GreaterOrEqual(value) => value.encode_before(buf, end),
            Filter::LessOrEqual(value) => value.encode_before(buf, end),
            Filter::Present(value) => value.encode_before(buf, end),
            Filter::ApproxMatch(value) => value.encode_before(buf, end),
            Filter::ExtensibleMatch(value) => value.encode_before(buf, end),
            Filter::Unknown(value) => value.encode_before(buf, end),
        }
    }
}

impl<'a> Item for Filter<'a> {
    ghost item = { choice_item ⟦<Filter<'a> as DescribedChoice>⟧.alternative };
}

impl<'a, R: Lends<Borrowed = &'a [u8]>> DecodeItem<R> for Filter<'a> {
    ghost is_item = { choice_is_item ⟦<Filter<'a> as DescribedChoice>⟧.alternative refl };

    ghost decodes_items = { decodes_same (choice_item
        ⟦<Filter<'a> as DescribedChoice>⟧.alternative) };
}

impl<'a> BorrowedItem for Filter<'a> {
    ghost borrowed = { refl };
}

impl<'a> WrittenItem for Filter<'a> {
    ghost written = { λ v. refl };

    ghost writes_valid = { λ v is. is };
}
