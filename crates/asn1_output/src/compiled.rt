//! The result of compiling a module.

use crate::output::OutputFile;
use asn1_syntax::{Item, Warning};

/// The files that are compiled from a module, and what of the module is not in them.
#[derive(Drop)]
pub struct Compiled<'a> {
    /// The files to be written.
    pub files: Vec<OutputFile>,
    /// The names of the alternatives of CHOICEs that are left out because their types are not
    /// supported.
    pub left_out: Vec<Item<'a>>,
    /// The warnings about what the Rust types do not check or leave out, and about names that are
    /// different in Rust.
    pub warnings: Vec<Warning<'a>>,
}
