//! The Rust text for the tags that a type with an extension marker knows.

use super::template::{Places, fill};
use asn1_check::TagSet;
use asn1_syntax::{Tag, TagClass};
use std::alloc::{AllocError, Global};
use std::fmt::Write;

const KNOWN: &str =
    "/// The tags of the components of [`@N`]. An element with another tag is kept as it was read.
#[derive(Clone, Copy, Debug, PartialEq, Eq)]
pub struct @NKnown;

impl KnownTags for @NKnown {
    ghost known = { @G[] };

    fn is_known(tag: Tag) -> bool {
        is_among(&[@R], tag)
    }
}
";

/// The tags that a type knows where its extension marker is. Elements with other tags are kept
/// there as unknown elements.
#[derive(Clone, Copy)]
pub struct KnownText<'t> {
    /// The Rust name of the type.
    pub name: &'t str,
    /// The known tags.
    pub tags: &'t TagSet,
}

impl<'t> KnownText<'t> {
    /// Appends the text of a Rust type that stands for these tags.
    pub fn push_body(&self, out: &mut String) -> Result<(), AllocError> {
        fill(out, KNOWN, self)
    }

    // Adds classes and numbers, with something after each but the last, and after the last.
    fn push_tags(&self, out: &mut String, between: &str, end: &str) -> Result<(), AllocError> {
        for (count, tag) in self.tags.tags.iter().enumerate() {
            if count > 0 {
                out.push_str(between)?;
            }
            let (class, number) = (class_of(tag), tag.number);
            write!(out, "({class}, {number})")?;
        }
        if !self.tags.tags.is_empty() {
            out.push_str(end)?;
        }
        Ok(())
    }
}

impl<'t> Places for KnownText<'t> {
    fn push_place(&self, out: &mut String, letter: char) -> Result<(), AllocError> {
        match letter {
            'N' => out.push_str(self.name),
            'G' => self.push_tags(out, " ∷ ", " ∷ "),
            'R' => self.push_tags(out, ", ", ""),
            _ => Ok(()),
        }
    }
}

// The number of the class of a tag (X.690, 8.1.2.2).
fn class_of(tag: &Tag) -> u8 {
    match tag.class {
        TagClass::Universal => 0,
        TagClass::Application => 1,
        TagClass::ContextSpecific => 2,
        TagClass::Private => 3,
    }
}

/// The Rust type of the field with the unknown components of a SEQUENCE. `name` is the Rust name of
/// the SEQUENCE.
pub fn additions_type(alloc: Global, name: &str) -> Result<String, AllocError> {
    format!(in alloc; "Additions<'a, {name}Known>")
}

/// The Rust type of the variant for the unknown alternatives of a CHOICE. `name` is the Rust name
/// of the CHOICE.
pub fn unknown_type(alloc: Global, name: &str) -> Result<String, AllocError> {
    format!(in alloc; "UnknownElement<'a, {name}Known>")
}
