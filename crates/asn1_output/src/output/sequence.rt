//! The Rust text for a SEQUENCE.
ghost use Rattle.std.specs.Prelude.{◌<◌};

use super::field::{Field, FieldPresence, Row, lifetime_of, push_checks, push_fields, push_row};
use super::sequence_part::PartText;
use super::template::{Items, Places, Tuples, fill, push_tuple};
use std::alloc::{AllocError, Global};
use std::fmt::Write;

/// The Rust struct to be written for a SEQUENCE.
#[derive(Drop)]
pub struct SequenceText {
    /// The name of the struct.
    pub name: String,
    /// The lifetime parameter of the struct, as Rust text. Empty if the struct needs none.
    pub lifetime: &'static str,
    /// The lines of the doc comment of the struct.
    pub doc: String,
    /// The fields of the struct, one for each component of the SEQUENCE.
    pub fields: Vec<Field>,
}

const STRUCT: &str = "@D#[derive(@K)]
pub struct @N@L {
@F}

/// The fields of [`@N`] as one type, in the order in which they are encoded.
pub type @NFields@L = @T;

impl@L FromFields<@Q> for @N@L {
    ghost fields = { λ v. @V };

    fn from_fields(fields: @Q) -> Self {
        let @P = fields;
        @N { @S }
    }
}

impl@L Sequence for @N@L {
    ghost meaning = { sequence @M @A };

    ghost fits = { (refl, refl) };
}

";

const DECODE: &str =
    "/// Decodes the fields, first to last. The errors are those that [`Sequence`] lists.
impl<'a, R: Lends<Borrowed = &'a [u8]>> DecodeValue<R> for @N@L {
    type Error = Error;

    ghost decode_value_answers = { λ h s result t.
        ⟦<@Q as Decode<SliceReader<'a>>>⟧.decode_answers s (map_ok @A result) t };

    fn decode_value(alloc: Global, reader: &mut R, header: Header) -> Result<Self, Error>
    where
        R: Reader,
    {
        decode_sequence::<R, @Q, Self>(alloc, reader, header)
    }
}

impl@L IsValue for @N@L {
    fn is_value(&self) {
@C    }
}

/// Writes the fields, first to last. The errors are those that [`Sequence`] lists.
impl@L HasFields for @N@L {
    ghost fields_size = { λ v. ⟦<@NFields@L as Encode>⟧.size @E };

    ghost fields_answers = { λ v. ⟦<@NFields@L as Encode>⟧.encode_answers @E };

    fn call_fields<S, C: FieldsCall<S>>(
        &self,
        call: &C,
        state: &mut S,
        buf: &mut [u8],
    ) -> C::Output {
        call.call(&field_refs!(self, @R), state, buf)
    }
}
";

/// A template for the implementations that a struct needs to be the item of a SEQUENCE OF or SET
/// OF, and to be tagged EXPLICIT.
pub const ITEM: &str = "
impl@L Item for @N@L {
    ghost item = { sequence_item ⟦<@N@L as Described>⟧.element };
}

impl@L LawfulItem for @N@L {
    ghost is_lawful_item = { is_lawful_item ⟦<@N@L as Described>⟧.element refl };
}
";

// What a part means, and the fields that it takes from a value.
const SEEN_PART: &str = "(seen ⟦<@N@L as FromFields<@NFields@L>>⟧.fields @M)";

const ENCODED_PART: &str = "⟦<@N@L as FromFields<@NFields@L>>⟧.fields (@Q v).@J";

/// The greatest number of fields of a part. The fields of a large SEQUENCE are divided into parts,
/// since the proof checker cannot take all of them at once.
const PART: usize = 12;

/// The greatest sum of [`Field::weight`] over the fields of a part. With a sum of 20, the proof
/// checker reaches its limit of steps.
const WEIGHT: usize = 17;

impl SequenceText {
    /// A struct with this name, this doc comment and these fields.
    pub fn new(
        alloc: Global,
        name: &str,
        doc: String,
        fields: Vec<Field>,
    ) -> Result<Self, AllocError> {
        Ok(SequenceText {
            name: String::from_str(alloc, name)?,
            lifetime: lifetime_of(&fields),
            doc,
            fields,
        })
    }

    /// Appends the text of the struct and of its implementations.
    pub fn push_body(&self, out: &mut String) -> Result<(), AllocError> {
        fill(out, STRUCT, self)?;
        fill(out, DECODE, self)?;
        fill(out, ITEM, self)?;
        for field in self.fields.iter() {
            if let Some(own) = &field.own {
                out.push_str(own.text.as_str())?;
            }
        }
        Ok(())
    }

    // What the struct derives. A field with a default of its own cannot be copied.
    fn derived(&self) -> &'static str {
        for field in self.fields.iter() {
            if matches!(field.presence, FieldPresence::DefaultedTo(_)) {
                return "Debug, Drop, PartialEq, Eq";
            }
        }
        "Clone, Copy, Debug, Drop, PartialEq, Eq"
    }

    /// Whether the fields are divided into parts. Each part is a Rust type of its own. The fields
    /// of a large SEQUENCE are divided, since the proof checker cannot take all of them at once.
    pub fn has_parts(&self) -> bool {
        self.fields.len() > self.part_len()
    }

    /// The number of fields of each part. The last part may have fewer. It is the largest number
    /// that the proof checker can take at once, but large enough for at most five parts.
    pub fn part_len(&self) -> usize
        ensures { 0 < result }
    {
        for parts in 1usize..5 {
            let len = (self.fields.len().saturating_add(parts - 1) / parts).max(1);
            if len <= PART && are_light(&self.fields, len) {
                return len;
            }
        }
        (self.fields.len().saturating_add(4) / 5).max(1)
    }

    /// The number of parts into which the fields are divided.
    pub fn part_count(&self) -> usize {
        self.fields.chunks(self.part_len()).count()
    }

    /// The fields of the part with this index, from 0; no fields if there is no such part.
    pub fn part(&self, index: usize) -> PartText<'_> {
        let fields = match self.fields.chunks(self.part_len()).nth(index) {
            Some(fields) => fields,
            None => &[],
        };
        PartText {
            of: self,
            index,
            fields,
        }
    }

    // Adds what is written of each field, or of each part, as a tuple.
    fn push_row(&self, out: &mut String, row: Row, part: &'static str) -> Result<(), AllocError> {
        if !self.has_parts() {
            return push_row(out, &self.fields, row);
        }
        let items = PartRow {
            of: self,
            template: part,
            row,
        };
        push_tuple(out, &items, self.part_count())
    }

    // Adds the type from which the struct is made.
    fn push_whole(&self, out: &mut String) -> Result<(), AllocError> {
        if self.has_parts() {
            return push_tuple(out, &WholeRow { of: self }, self.part_count());
        }
        let (name, lifetime) = (self.name.as_str(), self.lifetime);
        write!(out, "{name}Fields{lifetime}")
    }

    // Adds the names of the fields, with the parts in which they are.
    fn push_members(&self, out: &mut String) -> Result<(), AllocError> {
        let part_len = self.part_len();
        for (count, field) in self.fields.iter().enumerate() {
            if count > 0 {
                out.push_str(", ")?;
            }
            let (name, number) = (field.name.as_str(), count / part_len + 1);
            if self.has_parts() {
                write!(out, "{name}: part{number}.{name}")?;
            } else {
                out.push_str(name)?;
            }
        }
        Ok(())
    }

    // Adds the fields, from which each part takes its own.
    fn push_encoded(&self, out: &mut String) -> Result<(), AllocError> {
        if self.has_parts() {
            return self.push_row(out, Row::Types, ENCODED_PART);
        }
        out.push_str("(")?;
        self.push_made(out)?;
        out.push_str(" v)")
    }

    /// Appends a term for a contract. It is the function that returns the fields of a value of the
    /// struct.
    pub fn push_made(&self, out: &mut String) -> Result<(), AllocError> {
        let (name, lifetime) = (self.name.as_str(), self.lifetime);
        write!(out, "⟦<{name}{lifetime} as FromFields<")?;
        self.push_whole(out)?;
        out.push_str(">>⟧.fields")
    }
}

impl Places for SequenceText {
    fn push_place(&self, out: &mut String, letter: char) -> Result<(), AllocError> {
        match letter {
            'N' => out.push_str(self.name.as_str()),
            'L' => out.push_str(self.lifetime),
            'D' => out.push_str(self.doc.as_str()),
            'K' => out.push_str(self.derived()),
            'Q' => self.push_whole(out),
            'A' => self.push_made(out),
            'F' => push_fields(out, &self.fields, "@D    pub @N: @W,\n"),
            'T' => self.push_row(out, Row::Types, "@NFields@L"),
            'V' => self.push_row(out, Row::Values, "record { @V}"),
            'P' => self.push_row(out, Row::Names, "part@I"),
            'S' => self.push_members(out),
            'M' => self.push_row(out, Row::Meaning, SEEN_PART),
            'C' => push_checks(out, &self.fields),
            'E' => self.push_encoded(out),
            'R' => self.push_row(out, Row::Names, "@P"),
            _ => Ok(()),
        }
    }
}

// The parts of a SEQUENCE, and what is written of each.
#[derive(Clone, Copy)]
struct PartRow<'s> {
    of: &'s SequenceText,
    template: &'static str,
    row: Row,
}

impl<'s> Items for PartRow<'s> {
    fn push_item(&self, out: &mut String, index: usize) -> Result<(), AllocError> {
        fill(out, self.template, &self.of.part(index))
    }
}

impl<'s> Tuples for PartRow<'s> {
    fn open(&self, count: usize) -> &'static str {
        self.row.open(count)
    }

    fn between(&self) -> &'static str {
        self.row.between()
    }
}

// The types of the parts of a SEQUENCE.
#[derive(Clone, Copy)]
struct WholeRow<'s> {
    of: &'s SequenceText,
}

impl<'s> Items for WholeRow<'s> {
    fn push_item(&self, out: &mut String, index: usize) -> Result<(), AllocError> {
        self.of.part(index).push_type(out)
    }
}

impl<'s> Tuples for WholeRow<'s> {
    fn open(&self, _count: usize) -> &'static str {
        "("
    }

    fn between(&self) -> &'static str {
        ", "
    }
}

// Whether no part of so many fields costs the checker too much.
fn are_light(fields: &Vec<Field>, len: usize) -> bool
    requires { 0 < len }
{
    for part in fields.chunks(len) {
        if weight_of(part) > WEIGHT {
            return false;
        }
    }
    true
}

// What fields cost the checker.
fn weight_of(fields: &[Field]) -> usize {
    let mut weight = 0usize;
    for field in fields {
        weight = weight.saturating_add(field.weight());
    }
    weight
}
