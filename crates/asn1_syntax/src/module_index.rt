//! Lookup of the names of a module.

use crate::module::{Import, TypeAssignment, ValueAssignment};
use crate::name_index::NameIndex;
use std::alloc::{AllocError, Global};

/// Maps from names to the types, the values and the imports of a module. If a name is assigned
/// twice, the map has the first assignment.
#[derive(Drop)]
pub struct ModuleIndex<'a> {
    /// Maps the name of each type assignment to the index of its type among the `nodes` of the
    /// module.
    pub types: NameIndex<'a>,
    /// Maps the name of each value assignment to its index among the `values` of the module.
    pub values: NameIndex<'a>,
    /// Maps each imported name to the index of its import among the `imports` of the module.
    pub imports: NameIndex<'a>,
    /// The type assignment that gives each type its name. The list has an entry for each type among
    /// the `nodes` of the module: an index among its `types`, or `None` for a type without a name.
    pub assignments: Vec<Option<usize>>,
}

impl<'a> ModuleIndex<'a> {
    /// The index of a module without assignments.
    pub fn new(alloc: Global) -> Self {
        ModuleIndex {
            types: NameIndex::new(alloc),
            values: NameIndex::new(alloc),
            imports: NameIndex::new(alloc),
            assignments: Vec::new(alloc),
        }
    }

    /// Adds the type assignments `types` of a module. `count` is the number of `nodes` of the
    /// module.
    pub fn add_types(
        &mut self,
        types: &Vec<TypeAssignment<'a>>,
        count: usize,
    ) -> Result<(), AllocError> {
        for _ in 0..count {
            self.assignments.push(None)?;
        }
        for (number, assigned) in types.iter().enumerate() {
            self.types.add(assigned.name.text, assigned.of)?;
            if let Some(place) = self.assignments.get_mut(assigned.of) {
                *place = Some(number);
            }
        }
        Ok(())
    }

    /// Adds these value assignments of a module.
    pub fn add_values(&mut self, values: &Vec<ValueAssignment<'a>>) -> Result<(), AllocError> {
        for (number, assigned) in values.iter().enumerate() {
            self.values.add(assigned.name.text, number)?;
        }
        Ok(())
    }

    /// Adds these imports of a module.
    pub fn add_imports(&mut self, imports: &Vec<Import<'a>>) -> Result<(), AllocError> {
        for (number, import) in imports.iter().enumerate() {
            self.imports.add(import.name.text, number)?;
        }
        Ok(())
    }
}
