//! The result of compiling modules.

use asn1_syntax::Warning;

/// A table of types, and warnings about what the table leaves out.
#[derive(Drop)]
pub struct CompiledTable<'a> {
    /// The octets of the table, in the form that the crate `schema_types` reads.
    pub octets: Vec<u8>,
    /// The types that the caller asked for, in the order of the request.
    pub roots: Vec<Root<'a>>,
    /// The warnings, sorted by their offsets in the text. There is one for each assignment that is
    /// left out, if the caller asked for all types. There is one for each DEFAULT value that the
    /// table does not have.
    pub warnings: Vec<Warning<'a>>,
}

/// A type that the caller asked for, with its node in the table.
#[derive(Clone, Copy)]
pub struct Root<'a> {
    /// The name of the module in which the type is.
    pub module: &'a str,
    /// The name of the type.
    pub name: &'a str,
    /// The index of the node of the type in the table.
    pub node: u32,
}
