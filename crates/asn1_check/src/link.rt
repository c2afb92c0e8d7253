//! Finds imported names, and computes values.

mod arcs;
mod enumerations;
mod imports;
mod list_items;
mod numbers;
mod ranges;
mod scope;
mod values;

use crate::external::External;
use crate::module::Module;
use asn1_syntax::{Failure, ParsedModule};
use imports::{Imported, imported_by};
use list_items::list_items_of;
use numbers::resolve_numbers;
use ranges::check_ranges;
use std::alloc::Global;
use values::constants_of;

/// Completes a parsed module. It finds the imported names in the modules `externals` of other
/// crates, and computes the values of the module. Then it replaces each name that stands for a
/// number by the number. Fails if a name is not found, or if a value is not valid for its type.
pub fn link_module<'a>(
    alloc: Global,
    parsed: ParsedModule<'a>,
    externals: &Vec<External<'a>>,
) -> Result<Module<'a>, Failure<'a>> {
    let Imported { types, values } = imported_by(alloc, &parsed, externals)?;
    let mut module = Module::of(alloc, parsed, types, values);
    look_up(alloc, &mut module)?;
    Ok(module)
}

// Computes the values of a module, and puts numbers in the place of names of numbers.
fn look_up<'a>(alloc: Global, module: &mut Module<'a>) -> Result<(), Failure<'a>> {
    let constants = constants_of(alloc, module)?;
    module.constants = constants;
    module.list_items = list_items_of(alloc, module)?;
    resolve_numbers(alloc, module)?;
    Ok(check_ranges(module)?)
}
