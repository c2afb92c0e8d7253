//! The lines of text that a CHOICE has for each of its alternatives.

use super::alternatives::Alternative;
use super::choice::ChoiceText;
use super::template::Places;
use std::alloc::AllocError;
use std::fmt::Write;

/// An alternative of a CHOICE, as the source of a line of Rust text.
#[derive(Clone, Copy)]
pub struct Line<'c> {
    /// The CHOICE with this alternative.
    pub of: &'c ChoiceText,
    /// The index of the alternative, from 0.
    pub index: usize,
    /// The alternative.
    pub alternative: &'c Alternative,
}

impl<'c> Line<'c> {
    // The way to the alternative through the nested choices of all of them, or of its part.
    fn inner(&self) -> Way {
        if self.of.has_parts() {
            let part = self.of.part(self.index / self.of.part_len());
            return Way {
                count: part.alternatives.len(),
                index: self.index % self.of.part_len(),
            };
        }
        Way {
            count: self.of.alternatives.len(),
            index: self.index,
        }
    }

    // The way to its part through the nested choices of the parts.
    fn outer(&self) -> Way {
        Way {
            count: self.of.part_count(),
            index: self.index / self.of.part_len(),
        }
    }

    // Adds what a proof writes after the name of a function that is called for each alternative,
    // to name the call for this one.
    fn push_place_of_call(&self, out: &mut String) -> Result<(), AllocError> {
        if self.index == 0 {
            return Ok(());
        }
        let name = self.alternative.name.as_str();
        write!(out, "-in-{name}")
    }
}

impl<'c> Places for Line<'c> {
    fn push_place(&self, out: &mut String, letter: char) -> Result<(), AllocError> {
        match letter {
            'N' => out.push_str(self.of.name.as_str()),
            'V' => out.push_str(self.alternative.name.as_str()),
            'D' => out.push_str(self.alternative.doc.as_str()),
            'T' => out.push_str(self.alternative.of.text.as_str()),
            'E' => self.push_place_of_call(out),
            'G' => self.outer().push_open(out, "First (", "Second ("),
            'H' => self.inner().push_open(out, "First (", "Second ("),
            'X' => self
                .outer()
                .push_open(out, "Either::First(", "Either::Second("),
            'Y' => self
                .inner()
                .push_open(out, "Either::First(", "Either::Second("),
            'J' => self.inner().push_close(out),
            'K' => self.outer().push_close(out),
            'Q' => write!(
                out,
                "{}",
                (self.index / self.of.part_len()).saturating_add(1)
            ),
            _ => Ok(()),
        }
    }
}

/// The position of an item in nested pairs, by the index of the item. A list of `count` items is
/// written as a pair of the first item and of the other items, which are nested in the same way.
/// The last item alone is in no pair of its own.
#[derive(Clone, Copy)]
struct Way {
    count: usize,
    index: usize,
}

impl Way {
    // Whether the item is not the last one.
    fn has_next(self) -> bool {
        self.index < self.count && self.count - self.index > 1
    }

    fn push_open(self, out: &mut String, first: &str, second: &str) -> Result<(), AllocError> {
        for _ in 0..self.index {
            out.push_str(second)?;
        }
        if self.has_next() {
            return out.push_str(first);
        }
        Ok(())
    }

    fn push_close(self, out: &mut String) -> Result<(), AllocError> {
        for _ in 0..self.index {
            out.push(')')?;
        }
        if self.has_next() {
            return out.push(')');
        }
        Ok(())
    }
}
