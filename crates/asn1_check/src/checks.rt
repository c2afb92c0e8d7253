//! Checks of a module that its grammar does not make.

mod components;
mod constraints;
mod exports;
mod names;
mod order;
mod parts;
mod recursion;
mod seen_numbers;
mod sets;
mod tags;
mod unknown;

use crate::checks::constraints::check_constraints;
use crate::checks::exports::check_exports;
use crate::checks::names::check_names;
use crate::checks::order::{add_loops, order_of};
use crate::checks::sets::sort_sets;
use crate::checks::tags::tags_in_order;
use crate::checks::unknown::{add_unknown, check_unknown};
use crate::module::Module;
use crate::tag_set::TagSet;
use asn1_syntax::{Failure, Refusal};
pub use components::{are_numbered, automatic_number, component_tags};
pub use names::{find_type, has_value};
pub use recursion::{cut_recursion, recursive_name};
use std::alloc::{AllocError, Global};
pub use tags::{copy_at, has_no_tag};

/// What the checks of a module find out about its types.
#[derive(Drop)]
pub struct Checks {
    /// The indices of all types among the `nodes` of the module. Each type comes after the types
    /// that it is made of.
    pub order: Vec<usize>,
    /// The tags that values of a type may begin with, for each type. The place in the list is the
    /// index of the type.
    pub tags: Vec<TagSet>,
}

/// Adds a refusal to `found` for each type that is valid ASN.1, but that the compiler does not
/// support. These are built-in types that are not compiled, and types that contain themselves.
pub fn unsupported_types<'a>(
    alloc: Global,
    module: &Module<'a>,
    found: &mut Vec<Refusal<'a>>,
) -> Result<(), AllocError> {
    add_unknown(alloc, module, found)?;
    add_loops(alloc, module, found)
}

/// Checks a module as [`check_module`] does, and replaces each SET with components. The replacement
/// is a SEQUENCE with the tag of a SET. Its components are in the order of their tags, as DER
/// encodes them.
pub fn check_sorted<'a>(alloc: Global, module: &mut Module<'a>) -> Result<Checks, Failure<'a>> {
    let checks = check_module(alloc, module)?;
    if sort_sets(alloc, module, &checks.tags)? {
        return check_module(alloc, module);
    }
    Ok(checks)
}

/// Checks a module:
///
/// - each name is defined once;
/// - each name that is used or exported is defined or imported;
/// - no type contains itself;
/// - each constraint fits its type;
/// - all types are supported;
/// - tags that must be distinct are distinct.
pub fn check_module<'a>(alloc: Global, module: &Module<'a>) -> Result<Checks, Failure<'a>> {
    check_names(alloc, module)?;
    check_exports(module)?;
    let order = order_of(alloc, module)?;
    check_constraints(module)?;
    check_unknown(alloc, module)?;
    let tags = tags_in_order(alloc, module, &order)?;
    Ok(Checks { order, tags })
}
