//! Modules with known names.

use crate::constants::Constants;
use crate::external_types::ExternalTypes;
use asn1_syntax::{
    Item, ModuleIndex, ParsedModule, TagDefault, TypeAssignment, TypeNode, ValueAssignment, Warning,
};
use std::alloc::Global;

/// A module in which it is known what names stand for. Imported names are found, and values are
/// computed.
#[derive(Drop)]
pub struct Module<'a> {
    /// The name of the module.
    pub name: Item<'a>,
    /// Whether the module has explicit, implicit or automatic tags.
    pub tags: TagDefault,
    /// The names that the module exports.
    pub exports: Vec<Item<'a>>,
    /// The types that the module imports.
    pub imported: ExternalTypes<'a>,
    /// The type assignments, in the order of the text.
    pub types: Vec<TypeAssignment<'a>>,
    /// The value assignments, in the order of the text.
    pub values: Vec<ValueAssignment<'a>>,
    /// The computed values of the module, and those that it imports.
    pub constants: Constants<'a>,
    /// All types that the module contains, with or without a name. Other fields refer to a type by
    /// its index here.
    pub nodes: Vec<TypeNode<'a>>,
    /// Finds the type, the value or the import that has a given name.
    pub index: ModuleIndex<'a>,
    /// Whether a type is the item type of a SEQUENCE OF or SET OF, directly or by name, for each
    /// type. The place in the list is the index of the type.
    pub list_items: Vec<bool>,
    /// The warnings about the module.
    pub warnings: Vec<Warning<'a>>,
}

impl<'a> Module<'a> {
    /// Makes a module of a parsed module, and of the types and the values that the module imports.
    pub fn of(
        alloc: Global,
        parsed: ParsedModule<'a>,
        imported: ExternalTypes<'a>,
        constants: Constants<'a>,
    ) -> Self {
        let ParsedModule {
            name,
            tags,
            exports,
            types,
            values,
            nodes,
            index,
            warnings,
            ..
        } = parsed;
        Module {
            name,
            tags,
            exports,
            imported,
            types,
            values,
            constants,
            nodes,
            index,
            list_items: Vec::new(alloc),
            warnings,
        }
    }

    /// The type assignment that gives the type with this index its name. `None` if the type has no
    /// name in this module.
    pub fn assignment(&self, index: usize) -> Option<&TypeAssignment<'a>> {
        let number = (*self.index.assignments.get(index)?)?;
        self.types.get(number)
    }
}
