//! Modules.

use crate::information_object::InformationObject;
use crate::item::Item;
use crate::left_out::LeftOut;
use crate::module_index::ModuleIndex;
use crate::name_index::NameIndex;
use crate::object_set::{ObjectSet, TableUse};
use crate::tagging::TagDefault;
use crate::type_node::TypeNode;
use crate::value::Value;
use crate::warning::Warning;
use std::alloc::{AllocError, Global};

/// A module as the parser returns it. The parser does not look up what a name in the module stands
/// for.
#[derive(Drop)]
pub struct ParsedModule<'a> {
    /// The name of the module.
    pub name: Item<'a>,
    /// Whether the module has explicit, implicit or automatic tags.
    pub tags: TagDefault,
    /// The index, in the text, of the first octet of the `END` of the module. The modules from
    /// which the module imports come after this `END`.
    pub end: usize,
    /// The names that this module, and the modules after it in the text, import from modules that
    /// are not in the text.
    pub imports: Vec<Import<'a>>,
    /// The names that the module exports.
    pub exports: Vec<Item<'a>>,
    /// The type assignments, in the order of the text.
    pub types: Vec<TypeAssignment<'a>>,
    /// The value assignments, in the order of the text.
    pub values: Vec<ValueAssignment<'a>>,
    /// The information objects, in the order of the text.
    pub objects: Vec<InformationObject<'a>>,
    /// The information object sets that have a name.
    pub sets: Vec<ObjectSet<'a>>,
    /// The table constraints of all types. A [`Constraint::Table`](crate::Constraint::Table) has an
    /// index into this list.
    pub tables: Vec<TableUse<'a>>,
    /// All types that the module contains, with or without a name. Other fields refer to a type by
    /// its index here.
    pub nodes: Vec<TypeNode<'a>>,
    /// Finds the type, the value or the import that has a given name.
    pub index: ModuleIndex<'a>,
    /// The assignments that are not compiled. Their form is not supported, or they are invalid
    /// assignments of a module after the first one.
    pub left_out: Vec<LeftOut<'a>>,
    /// The names of the assignments that are neither in `types` nor in `values`:
    ///
    /// - classes, macros and assignments with parameters, which are read only where they are used;
    /// - information objects and object sets.
    pub passed: NameIndex<'a>,
    /// The warnings of the parser.
    pub warnings: Vec<Warning<'a>>,
}

impl<'a> ParsedModule<'a> {
    /// Sets the field `index`, with which the types, the values and the imports are found by name.
    pub fn look_up_names(&mut self, alloc: Global) -> Result<(), AllocError> {
        let mut index = ModuleIndex::new(alloc);
        index.add_types(&self.types, self.nodes.len())?;
        index.add_values(&self.values)?;
        index.add_imports(&self.imports)?;
        self.index = index;
        Ok(())
    }
}

/// A name that is imported.
#[derive(Clone, Copy)]
pub struct Import<'a> {
    /// The imported name.
    pub name: Item<'a>,
    /// The name of the module from which it is imported.
    pub module: Item<'a>,
}

/// A type assignment: a name and its type.
#[derive(Clone, Copy)]
pub struct TypeAssignment<'a> {
    /// The name that is assigned. Its field `comments` holds the comments in front of the
    /// assignment.
    pub name: Item<'a>,
    /// The index of the assigned type among the `nodes` of the module.
    pub of: usize,
    /// The index, among the `nodes` of the module, of the first type that this assignment contains.
    /// The assignment contains the types from `first` to `of`, both included.
    pub first: usize,
}

/// A value assignment: a name, its type and its value.
#[derive(Drop)]
pub struct ValueAssignment<'a> {
    /// The name that is assigned. Its field `comments` holds the comments in front of the
    /// assignment.
    pub name: Item<'a>,
    /// The index of the type of the value among the `nodes` of the module.
    pub of: usize,
    /// The index, among the `nodes` of the module, of the first type that this assignment contains.
    /// The assignment contains the types from `first` to `of`, both included.
    pub first: usize,
    /// The assigned value.
    pub value: Value<'a>,
}
