//! Writes the alternatives of a CHOICE as nested pairs.

use super::alternatives::Alternative;
use super::template::fill;
use std::alloc::AllocError;

/// How nested pairs are written. The first item is in a pair with the other items, which are nested
/// in the same way. The last item alone is in no pair of its own.
#[derive(Clone, Copy)]
pub struct Nest {
    /// The text in front of the first member of a pair.
    pub open: &'static str,
    /// The text between the two members of a pair.
    pub between: &'static str,
    /// The character after the second member of a pair.
    pub close: char,
}

/// Nested pairs of Rust types.
pub const TYPES: Nest = Nest {
    open: "Either<",
    between: ", ",
    close: '>',
};

/// Nested pairs of terms in a contract. Each term describes the encodings of an alternative.
pub const MEANING: Nest = Nest {
    open: "(either ",
    between: " ",
    close: ')',
};

impl Nest {
    /// Appends the text that is written in front of the item with this index. There are `count`
    /// items.
    pub fn push_before(
        &self,
        out: &mut String,
        count: usize,
        index: usize,
    ) -> Result<(), AllocError> {
        if index > 0 {
            out.push_str(self.between)?;
        }
        if index.saturating_add(1) < count {
            out.push_str(self.open)?;
        }
        Ok(())
    }

    /// Appends the text that is written after the last one of `count` items.
    pub fn push_end(&self, out: &mut String, count: usize) -> Result<(), AllocError> {
        for _ in 1..count {
            out.push(self.close)?;
        }
        Ok(())
    }
}

/// The lifetime parameter of an enum with these alternatives, as Rust text. Empty if the enum needs
/// none.
pub fn lifetime_of(alternatives: &[Alternative]) -> &'static str {
    for alternative in alternatives {
        if alternative.of.has_lifetime {
            return "<'a>";
        }
    }
    ""
}

/// Appends the Rust types of these alternatives, as nested pairs.
pub fn push_types(out: &mut String, alternatives: &[Alternative]) -> Result<(), AllocError> {
    push_nested(out, alternatives, TYPES, "@T")
}

/// Appends the terms that describe the encodings of these alternatives in a contract, as nested
/// pairs.
pub fn push_meaning(out: &mut String, alternatives: &[Alternative]) -> Result<(), AllocError> {
    push_nested(out, alternatives, MEANING, "@M")
}

fn push_nested(
    out: &mut String,
    alternatives: &[Alternative],
    nest: Nest,
    template: &str,
) -> Result<(), AllocError> {
    let count = alternatives.len();
    for (index, alternative) in alternatives.iter().enumerate() {
        nest.push_before(out, count, index)?;
        fill(out, template, alternative)?;
    }
    nest.push_end(out, count)
}
