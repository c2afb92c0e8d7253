//! Definitions, which are the contents of the Rust files.

use super::rust_names::snake_name;
use std::alloc::{AllocError, Global};

/// What the file of a definition defines. The imports for the contracts in the file depend on it.
#[derive(Clone, Copy, PartialEq, Eq)]
pub enum DefinitionKind {
    Sequence,
    SequencePart,
    Choice,
    ChoicePart,
    List,
    Known,
    Enumeration,
    Alias,
}

/// The contents of a Rust file that defines a type.
#[derive(Drop)]
pub struct Definition {
    /// The name of the file, without its extension.
    pub file: String,
    /// The name of the type that the file defines.
    pub name: String,
    /// The names that other files may import from this file, one on each line.
    pub names: String,
    /// Whether the names in `names` are public.
    pub is_public: bool,
    /// The kind of the definition.
    pub kind: DefinitionKind,
    /// The text of the file, without its imports.
    pub body: String,
    /// The proofs of functions in the file. A function has one here if the proof checker does not
    /// find a proof by itself.
    pub proofs: Vec<Proof>,
}

/// The proof of a function.
#[derive(Drop)]
pub struct Proof {
    /// The name of the function.
    pub function: &'static str,
    /// The text of the proof, without its imports.
    pub text: String,
}

impl Definition {
    /// A definition of the type `name`, without text. Other files may import `name` from it. If
    /// `end` is not empty, they may also import the name that is `name` followed by `end`.
    pub fn new(
        alloc: Global,
        name: &str,
        end: &str,
        kind: DefinitionKind,
    ) -> Result<Self, AllocError> {
        Ok(Definition {
            file: snake_name(alloc, name)?,
            name: String::from_str(alloc, name)?,
            names: names_with(alloc, name, end)?,
            is_public: kind != DefinitionKind::SequencePart && kind != DefinitionKind::ChoicePart,
            kind,
            body: String::new(alloc),
            proofs: Vec::new(alloc),
        })
    }
}

fn names_with(alloc: Global, name: &str, end: &str) -> Result<String, AllocError> {
    if end.is_empty() {
        return format!(in alloc; "{name}\n");
    }
    format!(in alloc; "{name}\n{name}{end}\n")
}
