//! Written by asn1_compile from the module X509: change the module instead.
//!
//! Time.
ghost use Rattle.std.specs.Prelude.{◌↔◌, IsTrue, false};
ghost use Rattle.std.proofs.Common.{refl};
ghost use Rattle.der.specs.Prelude.{map_ok};
ghost use Rattle.der_asn1.specs.Item.{decodes_same};
ghost use Rattle.der_asn1.specs.Meaning.{alternative, choice_is_item, choice_item, choice_of, either};
ghost use Rattle.der_asn1.specs.declared.fields.either.Either.TheVariants.{First, Second};
ghost use Rattle.x509.specs.declared.asn1.time.Time.TheVariants as variant;

use der::{Decode, Encode, Error, FromFields, Lends, Length, Reader, SliceReader, Tag, Writer};
use der_asn1::{
    BorrowedItem, Choice, DecodeChoice, DecodeItem, Described, DescribedChoice, Either,
    GeneralizedTime, Item, UtcTime, WrittenItem, decode_choice,
};
use std::alloc::Global;

/// A time (RFC 5280, 4.1.2.5). The RFC requires a UTCTime until the end of 2049 and a
/// GeneralizedTime after that. Decoding also accepts a GeneralizedTime for an earlier time.
#[derive(Clone, Copy, Debug, Drop, PartialEq, Eq)]
pub enum Time {
    /// The alternative `utcTime`.
    UtcTime(UtcTime),
    /// The alternative `generalTime`.
    GeneralTime(GeneralizedTime),
}

/// The alternatives as one type: an [`Either`] of two, which may be [`Either`]s in turn.
pub type TimeAlternatives = Either<UtcTime, GeneralizedTime>;

impl FromFields<TimeAlternatives> for Time {
    ghost fields = { elim [
      | variant.UtcTime v ↦ First (v)
      | variant.GeneralTime v ↦ Second (v)
    ] };

    fn from_fields(alternatives: TimeAlternatives) -> Self {
        match alternatives {
            Either::First(value) => Time::UtcTime(value),
            Either::Second(value) => Time::GeneralTime(value),
        }
    }
}

impl DescribedChoice for Time {
    ghost alternative = { choice_of (either (alternative ⟦<UtcTime as Described>⟧.element)
        (alternative ⟦<GeneralizedTime as Described>⟧.element))
        ⟦<Time as FromFields<TimeAlternatives>>⟧.fields };
}

/// Decodes the alternative with the next tag. The errors are those of decoding an [`Either`].
impl<'a, R: Lends<Borrowed = &'a [u8]>> Decode<R> for Time {
    type Error = Error;

    ghost is_next = { ⟦<Time as DescribedChoice>⟧.alternative.is_next };

    ghost decode_levels = { ⟦<Time as DescribedChoice>⟧.alternative.levels };

    ghost allocates = { false };

    ghost decode_answers = { λ s result t.
        ⟦<TimeAlternatives as Decode<SliceReader<'a>>>⟧.decode_answers s
        (map_ok ⟦<Time as FromFields<TimeAlternatives>>⟧.fields result) t };

    fn decode(alloc: Global, reader: &mut R) -> Result<Self, Error>
    where
        R: Reader,
    {
        decode_choice::<R, TimeAlternatives, Self>(alloc, reader)
    }
}

impl Choice for Time {
    ghost chooses = { ⟦<Time as DescribedChoice>⟧.alternative.tags };

    fn can_decode(tag: Tag) -> bool
        ensures { IsTrue result ↔ ⟦<Time as DescribedChoice>⟧.alternative.tags tag }
    {
        <TimeAlternatives as Choice>::can_decode(tag)
    }
}

impl<'a, R: Lends<Borrowed = &'a [u8]>> DecodeChoice<R> for Time {
    ghost begins = { ⟦<Time as DescribedChoice>⟧.alternative.begins };
}

/// Writes the alternative that the value has. The errors are those of writing it.
impl Encode for Time {
    ghost encoding = { λ v. ⟦<TimeAlternatives as Encode>⟧.encoding
        (⟦<Time as FromFields<TimeAlternatives>>⟧.fields v) };

    ghost encodable = { λ v. ⟦<TimeAlternatives as Encode>⟧.encodable
        (⟦<Time as FromFields<TimeAlternatives>>⟧.fields v) };

    ghost size = { λ v. ⟦<TimeAlternatives as Encode>⟧.size
        (⟦<Time as FromFields<TimeAlternatives>>⟧.fields v) };

    ghost encode_answers = { λ v. ⟦<TimeAlternatives as Encode>⟧.encode_answers
        (⟦<Time as FromFields<TimeAlternatives>>⟧.fields v) };

    fn encoded_len(&self) -> Result<Length, Error> {
        match self {
            Time::UtcTime(value) => value.encoded_len(),
            Time::GeneralTime(value) => value.encoded_len(),
        }
    }

    fn encode<W: Writer>(&self, writer: &mut W) -> Result<(), Error> {
        match self {
            Time::UtcTime(value) => value.encode(writer),
            Time::GeneralTime(value) => value.encode(writer),
        }
    }

    fn len_before(&self) -> Option<u32> {
        match self {
            Time::UtcTime(value) => value.len_before(),
            Time::GeneralTime(value) => value.len_before(),
        }
    }

    fn encode_before(&self, buf: &mut [u8], end: u32) -> u32 {
        match self {
            Time::UtcTime(value) => value.encode_before(buf, end),
            Time::GeneralTime(value) => value.encode_before(buf, end),
        }
    }
}

impl Item for Time {
    ghost item = { choice_item ⟦<Time as DescribedChoice>⟧.alternative };
}

impl<'a, R: Lends<Borrowed = &'a [u8]>> DecodeItem<R> for Time {
    ghost is_item = { choice_is_item ⟦<Time as DescribedChoice>⟧.alternative refl };

    ghost decodes_items = { decodes_same (choice_item ⟦<Time as DescribedChoice>⟧.alternative) };
}

impl<'a> BorrowedItem for Time {
    ghost borrowed = { refl };
}

impl WrittenItem for Time {
    ghost written = { λ v. refl };

    ghost writes_valid = { λ v is. is };
}
