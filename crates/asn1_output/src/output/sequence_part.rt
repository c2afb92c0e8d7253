//! The Rust text for some of the fields of a SEQUENCE.

use super::field::{Field, Row, lifetime_of, push_fields, push_row};
use super::sequence::SequenceText;
use super::template::{Places, fill, filled};
use std::alloc::{AllocError, Global};
use std::fmt::Write;

const PART: &str = "// Some fields of a @W.
#[derive(Drop)]
pub(crate) struct @N@L {
@F}

// The fields, in the order in which they are encoded.
pub(crate) type @NFields@L = @T;

impl@L FromFields<@NFields@L> for @N@L {
    ghost fields = { λ v. @R };

    fn from_fields(fields: @NFields@L) -> Self {
        let @P = fields;
        @N { @S }
    }
}

impl<'a, R: Lends<Borrowed = &'a [u8]>> Decode<R> for @N@L {
    type Error = Error;

    ghost is_next = { λ v. ⟦<@NFields@L as Decode<SliceReader<'a>>>⟧.is_next
        (⟦<@N@L as FromFields<@NFields@L>>⟧.fields v) };

    ghost decode_levels = { ⟦<@NFields@L as Decode<SliceReader<'a>>>⟧.decode_levels };

    ghost allocates = { false };

    ghost decode_answers = { λ s result t.
        ⟦<@NFields@L as Decode<SliceReader<'a>>>⟧.decode_answers s
        (map_ok ⟦<@N@L as FromFields<@NFields@L>>⟧.fields result) t };

    fn decode(alloc: Global, reader: &mut R) -> Result<Self, Error>
    where
        R: Reader,
    {
        decode_fields::<R, @NFields@L, Self>(alloc, reader)
    }
}
";

/// Some of the fields of a SEQUENCE, which are written as a Rust type of their own.
#[derive(Clone, Copy)]
pub struct PartText<'s> {
    /// The SEQUENCE with these fields.
    pub of: &'s SequenceText,
    /// The index of the part, from 0.
    pub index: usize,
    /// The fields of the part.
    pub fields: &'s [Field],
}

impl<'s> PartText<'s> {
    /// The number of the part, from 1. The name of the Rust type of the part has this number.
    pub fn number(&self) -> usize {
        self.index.saturating_add(1)
    }

    /// Appends the Rust text of the part.
    pub fn push_body(&self, out: &mut String) -> Result<(), AllocError> {
        fill(out, PART, self)
    }

    /// The name of the Rust type of the part.
    pub fn name(&self, alloc: Global) -> Result<String, AllocError> {
        filled(alloc, "@N", self)
    }

    // Adds the name of the part.
    fn push_name(&self, out: &mut String) -> Result<(), AllocError> {
        let (of, number) = (self.of.name.as_str(), self.number());
        write!(out, "{of}Part{number}")
    }

    /// Appends the name of the Rust type of the part, with its lifetime parameter if there is one.
    pub fn push_type(&self, out: &mut String) -> Result<(), AllocError> {
        let (of, number, lifetime) = (
            self.of.name.as_str(),
            self.number(),
            lifetime_of(self.fields),
        );
        write!(out, "{of}Part{number}{lifetime}")
    }
}

impl<'s> Places for PartText<'s> {
    fn push_place(&self, out: &mut String, letter: char) -> Result<(), AllocError> {
        match letter {
            'W' => out.push_str(self.of.name.as_str()),
            'N' => self.push_name(out),
            'I' => write!(out, "{}", self.number()),
            'L' => out.push_str(lifetime_of(self.fields)),
            'F' => push_fields(out, self.fields, "    pub(crate) @N: @W,\n"),
            'S' => push_names(out, self.fields),
            'T' => push_row(out, self.fields, Row::Types),
            'R' => push_row(out, self.fields, Row::Values),
            'V' => push_fields(out, self.fields, "@N = v.@N; "),
            'P' => push_row(out, self.fields, Row::Names),
            'M' => push_row(out, self.fields, Row::Meaning),
            'Q' => self.of.push_made(out),
            'J' => write!(out, "{}", self.index),
            _ => Ok(()),
        }
    }
}

// Adds the names of fields, with commas between them.
fn push_names(out: &mut String, fields: &[Field]) -> Result<(), AllocError> {
    for (count, field) in fields.iter().enumerate() {
        if count > 0 {
            out.push_str(", ")?;
        }
        out.push_str(field.name.as_str())?;
    }
    Ok(())
}
