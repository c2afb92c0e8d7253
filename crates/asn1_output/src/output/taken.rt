//! Rust names that are in use.

use super::rust_names::snake_name;
use std::alloc::{AllocError, Global};
use std::collections::HashSet;
use std::fmt::Write;

/// The argument `ends` for a name that is used without anything after it. It has one empty line.
pub const ALONE: &str = "\n";

/// The Rust names that are in use. Two names count as equal if they are equal in snake case, since
/// the name of a file is the name of its type in snake case.
#[derive(Drop)]
pub struct Taken {
    // The words of each name.
    names: HashSet<String>,
}

impl Taken {
    /// A set without names.
    pub fn new(alloc: Global) -> Self {
        Taken {
            names: HashSet::new(alloc),
        }
    }

    /// Marks names as in use: `name` followed by each of `ends`. `ends` has one ending on each
    /// line.
    pub fn take(&mut self, alloc: Global, name: &str, ends: &str) -> Result<(), AllocError> {
        for end in ends.lines() {
            let whole = format!(in alloc; "{name}{end}")?;
            self.names.insert(snake_name(alloc, whole.as_str())?)?;
        }
        Ok(())
    }

    /// Finds a free name, marks it as in use as [`Taken::take`] does, and returns it. The result is
    /// `name` if it is free, with each of `ends` after it. Otherwise it is `name`, `between` and a
    /// number. The number is the first one, from 2 on, with which the name is free with each of
    /// `ends` after it.
    pub fn take_free(
        &mut self,
        alloc: Global,
        name: &str,
        ends: &str,
        between: &str,
    ) -> Result<String, AllocError> {
        let mut free = String::from_str(alloc, name)?;
        for number in 2..u32::MAX {
            if self.is_free(alloc, free.as_str(), ends)? {
                break;
            }
            free = String::new(alloc);
            write!(free, "{name}{between}{number}")?;
        }
        self.take(alloc, free.as_str(), ends)?;
        Ok(free)
    }

    // Whether a name is taken with none of these ends.
    fn is_free(&self, alloc: Global, name: &str, ends: &str) -> Result<bool, AllocError> {
        for end in ends.lines() {
            let whole = format!(in alloc; "{name}{end}")?;
            let words = snake_name(alloc, whole.as_str())?;
            if self.names.contains(words.as_str()) {
                return Ok(false);
            }
        }
        Ok(true)
    }
}
