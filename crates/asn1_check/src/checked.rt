//! Parses a module and checks it.

use crate::checks::{Checks, check_module, cut_recursion, unsupported_types};
use crate::external::External;
use crate::link::link_module;
use crate::module::Module;
use crate::selection::{Selection, select_first};
use asn1_syntax::{Failure, LeftOut, Refusal, parse_module};
use std::alloc::Global;

/// Parses a module, finds what its names stand for, and checks it. `externals` are modules of other
/// crates, from which this module may import. Fails if the module is not valid, or if any of its
/// assignments is not supported.
pub fn checked_module<'a>(
    alloc: Global,
    externals: &Vec<External<'a>>,
    text: &'a str,
) -> Result<(Module<'a>, Checks), Failure<'a>> {
    let parsed = parse_module(alloc, text)?;
    if let Some(left_out) = parsed.left_out.first() {
        return Err(Failure::Unsupported(left_out.refusal));
    }
    let module = link_module(alloc, parsed, externals)?;
    let checks = check_module(alloc, &module)?;
    Ok((module, checks))
}

/// A module from which the assignments that are not compiled are removed. What its names stand for
/// is looked up.
#[derive(Drop)]
pub struct Selected<'a> {
    /// The module.
    pub module: Module<'a>,
    /// The removed assignments: those that are not supported, and those that refer to a removed
    /// assignment.
    pub left_out: Vec<LeftOut<'a>>,
}

/// Parses a module, keeps the assignments that [`select_first`] keeps, and finds what the names of
/// the module stand for. It also makes these changes:
///
/// - Where a type contains itself, the name that leads back to it is replaced by a type whose
///   values are not read ([`cut_recursion`]).
/// - Some types turn out not to be supported only after parsing. They are added to `known`, and the
///   assignments that contain them are removed.
pub fn selected_module<'a>(
    alloc: Global,
    externals: &Vec<External<'a>>,
    text: &'a str,
    only: &[&str],
    known: &mut Vec<Refusal<'a>>,
) -> Result<Selected<'a>, Failure<'a>> {
    let selected = linked(alloc, externals, text, only, known)?;
    let before = known.len();
    unsupported_types(alloc, &selected.module, known)?;
    if known.len() == before {
        return Ok(selected);
    }
    linked(alloc, externals, text, only, known)
}

fn linked<'a>(
    alloc: Global,
    externals: &Vec<External<'a>>,
    text: &'a str,
    only: &[&str],
    known: &Vec<Refusal<'a>>,
) -> Result<Selected<'a>, Failure<'a>> {
    let Selection { parsed, left_out } = select_first(alloc, externals, text, only, known)?;
    let mut module = link_module(alloc, parsed, externals)?;
    cut_recursion(alloc, &mut module)?;
    Ok(Selected { module, left_out })
}
