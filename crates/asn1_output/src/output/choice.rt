//! The Rust text for a CHOICE.
ghost use Rattle.std.specs.Prelude.{◌<◌};

use super::alternatives::Alternative;
use super::choice_line::Line;
use super::choice_part::ChoicePart;
use super::definition::Proof;
use super::nest::{MEANING, Nest, TYPES, lifetime_of, push_meaning, push_types};
use super::template::{Places, fill};
use std::alloc::{AllocError, Global};

/// The Rust enum to be written for a CHOICE.
#[derive(Drop)]
pub struct ChoiceText {
    /// The name of the enum.
    pub name: String,
    /// The lines of the doc comment of the enum.
    pub doc: String,
    /// The alternatives of the CHOICE, which are the variants of the enum.
    pub alternatives: Vec<Alternative>,
}

const ENUM: &str = "@D#[derive(Clone, Copy, Debug, Drop, PartialEq, Eq)]
pub enum @N@L {
@F}

@O type @NAlternatives@L = @T;

impl@L FromFields<@NAlternatives@L> for @N@L {
    ghost fields = { elim [
@V    ] };

    fn from_fields(alternatives: @NAlternatives@L) -> Self {
        match alternatives {
@P        }
    }
}

impl@L DescribedChoice for @N@L {
    ghost alternative = { choice_of @M ⟦<@N@L as FromFields<@NAlternatives@L>>⟧.fields };
}

";

const DECODE: &str =
    "/// Decodes the alternative with the next tag. The errors are those of decoding an [`Either`].
impl<'a, R: Lends<Borrowed = &'a [u8]>> Decode<R> for @N@L {
    type Error = Error;

    ghost is_next = { ⟦<@N@L as DescribedChoice>⟧.alternative.is_next };

    ghost decode_levels = { ⟦<@N@L as DescribedChoice>⟧.alternative.levels };

    ghost allocates = { false };

    ghost decode_answers = { λ s result t.
        ⟦<@NAlternatives@L as Decode<SliceReader<'a>>>⟧.decode_answers s
        (map_ok ⟦<@N@L as FromFields<@NAlternatives@L>>⟧.fields result) t };

    fn decode(alloc: Global, reader: &mut R) -> Result<Self, Error>
    where
        R: Reader,
    {
        decode_choice::<R, @NAlternatives@L, Self>(alloc, reader)
    }
}

impl@L Choice for @N@L {
    ghost chooses = { ⟦<@N@L as DescribedChoice>⟧.alternative.tags };

    fn can_decode(tag: Tag) -> bool
        ensures { IsTrue result ↔ ⟦<@N@L as DescribedChoice>⟧.alternative.tags tag }
    {
        <@NAlternatives@L as Choice>::can_decode(tag)
    }
}

impl<'a, R: Lends<Borrowed = &'a [u8]>> DecodeChoice<R> for @N@L {
    ghost begins = { ⟦<@N@L as DescribedChoice>⟧.alternative.begins };
}

";

const ENCODE: &str =
    "/// Writes the alternative that the value has. The errors are those of writing it.
impl@L Encode for @N@L {
    ghost encoding = { λ v. ⟦<@NAlternatives@L as Encode>⟧.encoding
        (⟦<@N@L as FromFields<@NAlternatives@L>>⟧.fields v) };

    ghost encodable = { λ v. ⟦<@NAlternatives@L as Encode>⟧.encodable
        (⟦<@N@L as FromFields<@NAlternatives@L>>⟧.fields v) };

    ghost size = { λ v. ⟦<@NAlternatives@L as Encode>⟧.size
        (⟦<@N@L as FromFields<@NAlternatives@L>>⟧.fields v) };

    ghost encode_answers = { λ v. ⟦<@NAlternatives@L as Encode>⟧.encode_answers
        (⟦<@N@L as FromFields<@NAlternatives@L>>⟧.fields v) };

    fn encoded_len(&self) -> Result<Length, Error> {
        match self {
@A        }
    }

    fn encode<W: Writer>(&self, writer: &mut W) -> Result<(), Error> {
        match self {
@B        }
    }

    fn len_before(&self) -> Option<u32> {
        match self {
@C        }
    }

    fn encode_before(&self, buf: &mut [u8], end: u32) -> u32 {
        match self {
@E        }
    }
}

impl@L Item for @N@L {
    ghost item = { choice_item ⟦<@N@L as DescribedChoice>⟧.alternative };
}

impl<'a, R: Lends<Borrowed = &'a [u8]>> DecodeItem<R> for @N@L {
    ghost is_item = { choice_is_item ⟦<@N@L as DescribedChoice>⟧.alternative refl };

    ghost decodes_items = { decodes_same (choice_item ⟦<@N@L as DescribedChoice>⟧.alternative) };
}

impl<'a> BorrowedItem for @N@L {
    ghost borrowed = { refl };
}

impl@L WrittenItem for @N@L {
    ghost written = { λ v. refl };

    ghost writes_valid = { λ v is. is };
}
";

// The proof that `encode` writes the alternative that the value has.
const ENCODE_PROOF: &str = "
pub returns-in-@V-clause-ok : goal.returns-in-@V-clause-ok
returns-in-@V-clause-ok g c = rw c.in-@V.is c.encode@E.ensures.ok

pub returns-in-@V-clause-succeeds : goal.returns-in-@V-clause-succeeds
returns-in-@V-clause-succeeds g c = rw c.in-@V.is c.encode@E.ensures.succeeds
";

// The proof that `len_before` counts the octets of the alternative that the value has.
const LEN_BEFORE_PROOF: &str = "
pub returns-in-@V : goal.returns-in-@V
returns-in-@V c = rw c.in-@V.is c.len_before@E.ensures
";

// The proof that `encode_before` writes the alternative that the value has.
const ENCODE_BEFORE_PROOF: &str = "
pub returns-in-@V : goal.returns-in-@V
returns-in-@V c = rw c.in-@V.is c.encode_before@E.ensures
";

// The line of an alternative of a part, as a term.
const PART_VALUE: &str = "      | variant.@V v ↦ @G(record { choice = @Hv@J })@K\n";

// The line of an alternative of a part, with its pattern.
const PART_PATTERN: &str = "            @X@NPart@Q { choice: @Yvalue@J }@K => @N::@V(value),\n";

// The arm that writes an alternative so that it ends before an index of a buffer.
const ENCODED_BEFORE: &str = "            @N::@V(value) => value.encode_before(buf, end),\n";

/// The greatest number of parts into which the alternatives of a CHOICE are divided. The proof
/// checker reaches its limit with more parts.
const PARTS: usize = 3;

impl ChoiceText {
    /// Appends the text of the enum and of its implementations.
    pub fn push_body(&self, out: &mut String) -> Result<(), AllocError> {
        fill(out, ENUM, self)?;
        fill(out, DECODE, self)?;
        fill(out, ENCODE, self)
    }

    /// The proofs for those functions of the enum that need one.
    pub fn proofs(&self, alloc: Global) -> Result<Vec<Proof>, AllocError> {
        let encode = self.proof_of(alloc, "encode", ENCODE_PROOF)?;
        let len_before = self.proof_of(alloc, "len_before", LEN_BEFORE_PROOF)?;
        let encode_before = self.proof_of(alloc, "encode_before", ENCODE_BEFORE_PROOF)?;
        Ok(vec![in alloc; encode, len_before, encode_before]?)
    }

    // The proof of a function, from a template for each alternative.
    fn proof_of(
        &self,
        alloc: Global,
        function: &'static str,
        template: &str,
    ) -> Result<Proof, AllocError> {
        let mut text = String::new(alloc);
        self.push_lines(&mut text, template)?;
        Ok(Proof { function, text })
    }

    // How the type of the alternatives begins: it is public unless it has private parts.
    fn visibility(&self) -> &'static str {
        if self.has_parts() {
            "// The alternatives, as nested choices of two.\npub(crate)"
        } else {
            "/// The alternatives as one type: an [`Either`] of two, which may be [`Either`]s in turn.\npub"
        }
    }

    /// Whether the alternatives are divided into parts. Each part is a Rust type of its own. The
    /// alternatives of a large CHOICE are divided, since the proof checker cannot take all of them
    /// at once.
    pub fn has_parts(&self) -> bool {
        self.alternatives.len() > self.part_len()
    }

    /// The number of alternatives of each part. The last part may have fewer. It is 2 if that leads
    /// to at most three parts, since the proof checker is three times as fast with 2. Otherwise it
    /// is 3.
    pub fn part_len(&self) -> usize
        ensures { 0 < result }
    {
        if self.alternatives.len() <= 2 * PARTS {
            2
        } else {
            3
        }
    }

    /// The number of parts into which the alternatives are divided.
    pub fn part_count(&self) -> usize {
        self.alternatives.chunks(self.part_len()).count()
    }

    /// The part with this index, from 0.
    pub fn part(&self, index: usize) -> ChoicePart<'_> {
        let alternatives = match self.alternatives.chunks(self.part_len()).nth(index) {
            Some(alternatives) => alternatives,
            None => &[],
        };
        ChoicePart {
            of: self.name.as_str(),
            number: index.saturating_add(1),
            alternatives,
        }
    }

    // Adds the types of the alternatives, or of the parts, in nested choices.
    fn push_types(&self, out: &mut String) -> Result<(), AllocError> {
        if self.has_parts() {
            return self.push_parts(out, TYPES, "@N@L");
        }
        push_types(out, &self.alternatives)
    }

    // Adds what the alternatives, or the parts, mean.
    fn push_meaning(&self, out: &mut String) -> Result<(), AllocError> {
        if self.has_parts() {
            return self.push_parts(out, MEANING, "⟦<@N@L as DescribedChoice>⟧.alternative");
        }
        push_meaning(out, &self.alternatives)
    }

    fn push_parts(&self, out: &mut String, nest: Nest, template: &str) -> Result<(), AllocError> {
        let count = self.part_count();
        for index in 0..count {
            nest.push_before(out, count, index)?;
            fill(out, template, &self.part(index))?;
        }
        nest.push_end(out, count)
    }

    // Adds a template for each alternative.
    fn push_lines(&self, out: &mut String, template: &str) -> Result<(), AllocError> {
        for (index, alternative) in self.alternatives.iter().enumerate() {
            let line = Line {
                of: self,
                index,
                alternative,
            };
            fill(out, template, &line)?;
        }
        Ok(())
    }
}

impl Places for ChoiceText {
    fn push_place(&self, out: &mut String, letter: char) -> Result<(), AllocError> {
        match letter {
            'N' => out.push_str(self.name.as_str()),
            'L' => out.push_str(lifetime_of(&self.alternatives)),
            'D' => out.push_str(self.doc.as_str()),
            'F' => self.push_lines(out, "@D    @V(@T),\n"),
            'T' => self.push_types(out),
            'V' if self.has_parts() => self.push_lines(out, PART_VALUE),
            'V' => self.push_lines(out, "      | variant.@V v ↦ @Hv@J\n"),
            'P' if self.has_parts() => self.push_lines(out, PART_PATTERN),
            'P' => self.push_lines(out, "            @Yvalue@J => @N::@V(value),\n"),
            'M' => self.push_meaning(out),
            'A' => self.push_lines(out, "            @N::@V(value) => value.encoded_len(),\n"),
            'B' => self.push_lines(out, "            @N::@V(value) => value.encode(writer),\n"),
            'C' => self.push_lines(out, "            @N::@V(value) => value.len_before(),\n"),
            'E' => self.push_lines(out, ENCODED_BEFORE),
            'O' => out.push_str(self.visibility()),
            _ => Ok(()),
        }
    }
}
