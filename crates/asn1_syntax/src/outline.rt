//! The modules of a text, before their assignments are parsed.

use crate::item::Item;
use crate::module::Import;
use crate::name_index::NameIndex;
use crate::tagging::TagDefault;

/// A module of which only the header and the names of the assignments are read.
#[derive(Drop)]
pub struct ModuleOutline<'a> {
    /// The name of the module.
    pub name: Item<'a>,
    /// Whether the module has explicit, implicit or automatic tags.
    pub tags: TagDefault,
    /// The names that the module exports.
    pub exports: Vec<Item<'a>>,
    /// The names that the module imports.
    pub imports: Vec<Import<'a>>,
    /// Maps each imported name to the index of its first import among `imports`.
    pub imported: NameIndex<'a>,
    /// The index, among the lexical items of the text, of the first item of the first assignment.
    pub start: usize,
    /// The index, in the text, of the first octet of the `END` of the module, or the length of the
    /// text if there is no `END`.
    pub end: usize,
    /// Maps the name of each assignment to the index of that name among the lexical items of the
    /// text.
    pub definitions: NameIndex<'a>,
}
