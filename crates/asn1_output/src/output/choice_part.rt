//! The Rust text for some of the alternatives of a CHOICE.

use super::alternatives::Alternative;
use super::nest::{lifetime_of, push_meaning, push_types};
use super::template::{Places, fill, filled};
use std::alloc::{AllocError, Global};
use std::fmt::Write;

// A part has no `len_before` and `encode_before`: a CHOICE writes its alternatives, and no part.
const PART: &str = "// Some alternatives of a @W.
#[derive(Drop)]
pub(crate) struct @N@L {
    pub(crate) choice: @NAlternatives@L,
}

// The alternatives, as nested choices of two.
pub(crate) type @NAlternatives@L = @T;

impl@L FromFields<@NAlternatives@L> for @N@L {
    ghost fields = { λ v. v.choice };

    fn from_fields(choice: @NAlternatives@L) -> Self {
        @N { choice }
    }
}

impl@L DescribedChoice for @N@L {
    ghost alternative = { choice_of @M (λ v. v.choice) };
}

impl<'a, R: Lends<Borrowed = &'a [u8]>> Decode<R> for @N@L {
    type Error = Error;

    ghost is_next = { ⟦<@N@L as DescribedChoice>⟧.alternative.is_next };

    ghost decode_levels = { ⟦<@N@L as DescribedChoice>⟧.alternative.levels };

    ghost allocates = { false };

    ghost decode_answers = { λ s result t.
        ⟦<@NAlternatives@L as Decode<SliceReader<'a>>>⟧.decode_answers s
        (map_ok (λ v. v.choice) result) t };

    #[inline(always)]
    fn decode(alloc: Global, reader: &mut R) -> Result<Self, Error>
    where
        R: Reader,
    {
        decode_choice::<R, @NAlternatives@L, Self>(alloc, reader)
    }
}

impl@L Choice for @N@L {
    ghost chooses = { ⟦<@N@L as DescribedChoice>⟧.alternative.tags };

    #[inline(always)]
    fn can_decode(tag: Tag) -> bool
        ensures { IsTrue result ↔ ⟦<@N@L as DescribedChoice>⟧.alternative.tags tag }
    {
        <@NAlternatives@L as Choice>::can_decode(tag)
    }
}

impl<'a, R: Lends<Borrowed = &'a [u8]>> DecodeChoice<R> for @N@L {
    ghost begins = { ⟦<@N@L as DescribedChoice>⟧.alternative.begins };
}

impl@L Encode for @N@L {
    ghost encoding = { λ v. ⟦<@NAlternatives@L as Encode>⟧.encoding v.choice };

    ghost encodable = { λ v. ⟦<@NAlternatives@L as Encode>⟧.encodable v.choice };

    ghost size = { λ v. ⟦<@NAlternatives@L as Encode>⟧.size v.choice };

    ghost encode_answers = { λ v. ⟦<@NAlternatives@L as Encode>⟧.encode_answers v.choice };

    #[inline(always)]
    fn encoded_len(&self) -> Result<Length, Error> {
        self.choice.encoded_len()
    }

    #[inline(always)]
    fn encode<W: Writer>(&self, writer: &mut W) -> Result<(), Error> {
        self.choice.encode(writer)
    }
}
";

/// Some of the alternatives of a CHOICE, which are written as a Rust type of their own.
#[derive(Clone, Copy)]
pub struct ChoicePart<'c> {
    /// The Rust name of the CHOICE.
    pub of: &'c str,
    /// The number of the part, from 1. The name of the Rust type of the part has this number.
    pub number: usize,
    /// The alternatives of the part.
    pub alternatives: &'c [Alternative],
}

impl<'c> ChoicePart<'c> {
    /// Appends the Rust text of the part.
    pub fn push_body(&self, out: &mut String) -> Result<(), AllocError> {
        fill(out, PART, self)
    }

    /// The name of the Rust type of the part.
    pub fn name(&self, alloc: Global) -> Result<String, AllocError> {
        filled(alloc, "@N", self)
    }

    // Adds the name of the part.
    fn push_name(&self, out: &mut String) -> Result<(), AllocError> {
        let (of, number) = (self.of, self.number);
        write!(out, "{of}Part{number}")
    }
}

impl<'c> Places for ChoicePart<'c> {
    fn push_place(&self, out: &mut String, letter: char) -> Result<(), AllocError> {
        match letter {
            'W' => out.push_str(self.of),
            'N' => self.push_name(out),
            'L' => out.push_str(lifetime_of(self.alternatives)),
            'T' => push_types(out, self.alternatives),
            'M' => push_meaning(out, self.alternatives),
            _ => Ok(()),
        }
    }
}
