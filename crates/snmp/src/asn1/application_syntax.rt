//! Written by asn1_compile from the module SNMPv2-PDU: change the module instead.
//!
//! ApplicationSyntax.
ghost use Rattle.std.specs.Prelude.{◌↔◌, IsTrue, false};
ghost use Rattle.std.proofs.Common.{refl};
ghost use Rattle.der.specs.Prelude.{map_ok};
ghost use Rattle.der_asn1.specs.Item.{decodes_same};
ghost use Rattle.der_asn1.specs.Meaning.{alternative, choice_is_item, choice_item, choice_of, either};
ghost use Rattle.der_asn1.specs.declared.fields.either.Either.TheVariants.{First, Second};
ghost use Rattle.snmp.specs.declared.asn1.application_syntax.ApplicationSyntax.TheVariants as variant;

use crate::asn1::application_syntax_part1::ApplicationSyntaxPart1;
use crate::asn1::application_syntax_part2::ApplicationSyntaxPart2;
use crate::asn1::application_syntax_part3::ApplicationSyntaxPart3;
use crate::asn1::counter32::Counter32;
use crate::asn1::counter64::Counter64;
use crate::asn1::ip_address::IpAddress;
use crate::asn1::opaque::Opaque;
use crate::asn1::time_ticks::TimeTicks;
use crate::asn1::unsigned32::Unsigned32;
use der::{Decode, Encode, Error, FromFields, Lends, Length, Reader, SliceReader, Tag, Writer};
use der_asn1::{
    BorrowedItem, Choice, DecodeChoice, DecodeItem, DescribedChoice, Either, Item, WrittenItem,
    decode_choice,
};
use std::alloc::Global;

/// A value of a type with a tag of class APPLICATION (RFC 3416, 3).
#[derive(Clone, Copy, Debug, Drop, PartialEq, Eq)]
pub enum ApplicationSyntax<'a> {
    /// An IP address of version 4.
    IpAddressValue(IpAddress<'a>),
    /// A counter of 32 bits. After its greatest value it continues at 0.
    CounterValue(Counter32),
    /// A time in hundredths of a second.
    TimeticksValue(TimeTicks),
    /// The encoding of a value of any type, as octets.
    ArbitraryValue(Opaque<'a>),
    /// A counter of 64 bits. After its greatest value it continues at 0.
    BigCounterValue(Counter64),
    /// An unsigned number of 32 bits.
    UnsignedIntegerValue(Unsigned32),
}

// The alternatives, as nested choices of two.
pub(crate) type ApplicationSyntaxAlternatives<'a> = Either<
    ApplicationSyntaxPart1<'a>,
    Either<ApplicationSyntaxPart2<'a>, ApplicationSyntaxPart3>,
>;

impl<'a> FromFields<ApplicationSyntaxAlternatives<'a>> for ApplicationSyntax<'a> {
    ghost fields = { elim [
      | variant.IpAddressValue v ↦ First ((record { choice = First (v) }))
      | variant.CounterValue v ↦ First ((record { choice = Second (v) }))
      | variant.TimeticksValue v ↦ Second (First ((record { choice = First (v) })))
      | variant.ArbitraryValue v ↦ Second (First ((record { choice = Second (v) })))
      | variant.BigCounterValue v ↦ Second (Second ((record { choice = First (v) })))
      | variant.UnsignedIntegerValue v ↦ Second (Second ((record { choice = Second (v) })))
    ] };

    fn from_fields(alternatives: ApplicationSyntaxAlternatives<'a>) -> Self {
        match alternatives {
            Either::First(
                ApplicationSyntaxPart1 {
                    choice: Either::First(value),
                },
            ) => ApplicationSyntax::IpAddressValue(value),
            Either::First(
                ApplicationSyntaxPart1 {
                    choice: Either::Second(value),
                },
            ) => ApplicationSyntax::CounterValue(value),
            Either::Second(
                Either::First(
                    ApplicationSyntaxPart2 {
                        choice: Either::First(value),
                    },
                ),
            ) => ApplicationSyntax::TimeticksValue(value),
            Either::Second(
                Either::First(
                    ApplicationSyntaxPart2 {
                        choice: Either::Second(value),
                    },
                ),
            ) => ApplicationSyntax::ArbitraryValue(value),
            Either::Second(
                Either::Second(
                    ApplicationSyntaxPart3 {
                        choice: Either::First(value),
                    },
                ),
            ) => ApplicationSyntax::BigCounterValue(value),
            Either::Second(
                Either::Second(
                    ApplicationSyntaxPart3 {
                        choice: Either::Second(value),
                    },
                ),
            ) => ApplicationSyntax::UnsignedIntegerValue(value),
        }
    }
}

impl<'a> DescribedChoice for ApplicationSyntax<'a> {
    ghost alternative = { choice_of (either
        ⟦<ApplicationSyntaxPart1<'a> as DescribedChoice>⟧.alternative (either
        ⟦<ApplicationSyntaxPart2<'a> as DescribedChoice>⟧.alternative
        ⟦<ApplicationSyntaxPart3 as DescribedChoice>⟧.alternative))
        ⟦<ApplicationSyntax<'a> as FromFields<ApplicationSyntaxAlternatives<'a>>>⟧.fields };
}

/// Decodes the alternative with the next tag. The errors are those of decoding an [`Either`].
impl<'a, R: Lends<Borrowed = &'a [u8]>> Decode<R> for ApplicationSyntax<'a> {
    type Error = Error;

    ghost is_next = { ⟦<ApplicationSyntax<'a> as DescribedChoice>⟧.alternative.is_next };

    ghost decode_levels = { ⟦<ApplicationSyntax<'a> as DescribedChoice>⟧.alternative.levels };

    ghost allocates = { false };

    ghost decode_answers = { λ s result t.
        ⟦<ApplicationSyntaxAlternatives<'a> as Decode<SliceReader<'a>>>⟧.decode_answers s
        (map_ok
        ⟦<ApplicationSyntax<'a> as FromFields<ApplicationSyntaxAlternatives<'a>>>⟧.fields result) t };

    fn decode(alloc: Global, reader: &mut R) -> Result<Self, Error>
    where
        R: Reader,
    {
        decode_choice::<R, ApplicationSyntaxAlternatives<'a>, Self>(alloc, reader)
    }
}

impl<'a> Choice for ApplicationSyntax<'a> {
    ghost chooses = { ⟦<ApplicationSyntax<'a> as DescribedChoice>⟧.alternative.tags };

    fn can_decode(tag: Tag) -> bool
        ensures { IsTrue result ↔
            ⟦<ApplicationSyntax<'a> as DescribedChoice>⟧.alternative.tags tag }
    {
        <ApplicationSyntaxAlternatives<'a> as Choice>::can_decode(tag)
    }
}

impl<'a, R: Lends<Borrowed = &'a [u8]>> DecodeChoice<R> for ApplicationSyntax<'a> {
    ghost begins = { ⟦<ApplicationSyntax<'a> as DescribedChoice>⟧.alternative.begins };
}

/// Writes the alternative that the value has. The errors are those of writing it.
impl<'a> Encode for ApplicationSyntax<'a> {
    ghost encoding = { λ v. ⟦<ApplicationSyntaxAlternatives<'a> as Encode>⟧.encoding
        (⟦<ApplicationSyntax<'a> as FromFields<ApplicationSyntaxAlternatives<'a>>>⟧.fields v) };

    ghost encodable = { λ v. ⟦<ApplicationSyntaxAlternatives<'a> as Encode>⟧.encodable
        (⟦<ApplicationSyntax<'a> as FromFields<ApplicationSyntaxAlternatives<'a>>>⟧.fields v) };

    ghost size = { λ v. ⟦<ApplicationSyntaxAlternatives<'a> as Encode>⟧.size
        (⟦<ApplicationSyntax<'a> as FromFields<ApplicationSyntaxAlternatives<'a>>>⟧.fields v) };

    ghost encode_answers = { λ v. ⟦<ApplicationSyntaxAlternatives<'a> as Encode>⟧.encode_answers
        (⟦<ApplicationSyntax<'a> as FromFields<ApplicationSyntaxAlternatives<'a>>>⟧.fields v) };

    fn encoded_len(&self) -> Result<Length, Error> {
        match self {
            ApplicationSyntax::IpAddressValue(value) => value.encoded_len(),
            ApplicationSyntax::CounterValue(value) => value.encoded_len(),
            ApplicationSyntax::TimeticksValue(value) => value.encoded_len(),
            ApplicationSyntax::ArbitraryValue(value) => value.encoded_len(),
            ApplicationSyntax::BigCounterValue(value) => value.encoded_len(),
            ApplicationSyntax::UnsignedIntegerValue(value) => value.encoded_len(),
        }
    }

    fn encode<W: Writer>(&self, writer: &mut W) -> Result<(), Error> {
        match self {
            ApplicationSyntax::IpAddressValue(value) => value.encode(writer),
            ApplicationSyntax::CounterValue(value) => value.encode(writer),
            ApplicationSyntax::TimeticksValue(value) => value.encode(writer),
            ApplicationSyntax::ArbitraryValue(value) => value.encode(writer),
            ApplicationSyntax::BigCounterValue(value) => value.encode(writer),
            ApplicationSyntax::UnsignedIntegerValue(value) => value.encode(writer),
        }
    }

    fn len_before(&self) -> Option<u32> {
        match self {
            ApplicationSyntax::IpAddressValue(value) => value.len_before(),
            ApplicationSyntax::CounterValue(value) => value.len_before(),
            ApplicationSyntax::TimeticksValue(value) => value.len_before(),
            ApplicationSyntax::ArbitraryValue(value) => value.len_before(),
            ApplicationSyntax::BigCounterValue(value) => value.len_before(),
            ApplicationSyntax::UnsignedIntegerValue(value) => value.len_before(),
        }
    }

    fn encode_before(&self, buf: &mut [u8], end: u32) -> u32 {
        match self {
            ApplicationSyntax::IpAddressValue(value) => value.encode_before(buf, end),
            ApplicationSyntax::CounterValue(value) => value.encode_before(buf, end),
            ApplicationSyntax::TimeticksValue(value) => value.encode_before(buf, end),
            ApplicationSyntax::ArbitraryValue(value) => value.encode_before(buf, end),
            ApplicationSyntax::BigCounterValue(value) => value.encode_before(buf, end),
            ApplicationSyntax::UnsignedIntegerValue(value) => value.encode_before(buf, end),
        }
    }
}

impl<'a> Item for ApplicationSyntax<'a> {
    ghost item = { choice_item ⟦<ApplicationSyntax<'a> as DescribedChoice>⟧.alternative };
}

impl<'a, R: Lends<Borrowed = &'a [u8]>> DecodeItem<R> for ApplicationSyntax<'a> {
    ghost is_item = { choice_is_item
        ⟦<ApplicationSyntax<'a> as DescribedChoice>⟧.alternative refl };

    ghost decodes_items = { decodes_same (choice_item
        ⟦<ApplicationSyntax<'a> as DescribedChoice>⟧.alternative) };
}

impl<'a> BorrowedItem for ApplicationSyntax<'a> {
    ghost borrowed = { refl };
}

impl<'a> WrittenItem for ApplicationSyntax<'a> {
    ghost written = { λ v. refl };

    ghost writes_valid = { λ v is. is };
}
