//! Rust types for ASN.1 types.

use std::alloc::{AllocError, Global};
use std::fmt::Write;

/// How the field of a Rust type is decoded, if the field is of a given type.
#[derive(Clone, Copy, PartialEq, Eq)]
pub enum RustKind {
    /// The field is decoded as an element with the one tag that its type has.
    Element,
    /// The field is decoded as an element, whatever its tag is.
    Any,
    /// The field is decoded as one of the alternatives of a CHOICE.
    Choice,
}

/// The Rust type that the compiler uses for an ASN.1 type.
#[derive(Drop)]
pub struct RustType {
    /// The type, as it is written in Rust.
    pub text: String,
    /// How a field of this type is decoded.
    pub kind: RustKind,
    /// Whether the type has a lifetime parameter.
    pub has_lifetime: bool,
    /// The arms of a Rust `match` that checks a value, if the type is a CHOICE. Empty for all other
    /// types. A CHOICE that is written by hand has a method `is_value` instead; its arms are empty,
    /// too.
    pub arms: String,
}

impl RustType {
    /// The type that is written as `text` in Rust. It has a lifetime parameter if a lifetime is in
    /// `text`.
    pub fn new(alloc: Global, text: &str, kind: RustKind) -> Result<Self, AllocError> {
        Ok(RustType {
            text: String::from_str(alloc, text)?,
            kind,
            has_lifetime: text.contains('\''),
            arms: String::new(alloc),
        })
    }

    /// The type that is written as `text` in Rust. Its fields are decoded as elements with a
    /// certain tag. It has a lifetime parameter if a lifetime is in `text`.
    pub fn element(alloc: Global, text: String) -> Self {
        RustType {
            has_lifetime: text.contains('\''),
            text,
            kind: RustKind::Element,
            arms: String::new(alloc),
        }
    }

    /// A copy of this type.
    pub fn copy(&self, alloc: Global) -> Result<Self, AllocError> {
        self.renamed(alloc, self.text.as_str())
    }

    /// A copy of this type that is written as `text` in Rust.
    pub fn renamed(&self, alloc: Global, text: &str) -> Result<Self, AllocError> {
        Ok(RustType {
            text: String::from_str(alloc, text)?,
            kind: self.kind,
            has_lifetime: self.has_lifetime,
            arms: String::from_str(alloc, self.arms.as_str())?,
        })
    }

    /// Appends the text that stands for this type in a contract of a generated type: a term that
    /// describes the encodings of the type.
    pub fn push_alternative(&self, out: &mut String) -> Result<(), AllocError> {
        let text = self.text.as_str();
        match self.kind {
            RustKind::Any => out.push_str("any_element"),
            RustKind::Choice => write!(out, "⟦<{text} as DescribedChoice>⟧.alternative"),
            RustKind::Element => write!(out, "(alternative ⟦<{text} as Described>⟧.element)"),
        }
    }

    /// Appends a Rust expression to `out`. The expression checks whether the variable `value` is a
    /// valid value of this type.
    pub fn push_check(&self, out: &mut String) -> Result<(), AllocError> {
        let arms = self.arms.as_str();
        if arms.is_empty() {
            return out.push_str("value.is_value()");
        }
        write!(out, "match value {{\n{arms}}}")
    }
}
