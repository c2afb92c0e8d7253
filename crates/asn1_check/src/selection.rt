//! Which assignments of a module are compiled.

mod kept;
mod left;
mod used;
mod wanted;

use crate::external::External;
use asn1_syntax::{Failure, LeftOut, ParsedModule, Refusal, parse_module};
use kept::keep;
use left::left_out_of;
use std::alloc::Global;
use used::used_by;
pub use wanted::not_there;
use wanted::wanted_of;

/// A module from which the assignments that are not compiled are removed.
#[derive(Drop)]
pub struct Selection<'a> {
    /// The module.
    pub parsed: ParsedModule<'a>,
    /// The assignments that are removed because they are not supported, or because they refer to
    /// something that is not supported. Empty if the caller asked for certain types only.
    pub left_out: Vec<LeftOut<'a>>,
}

/// Parses the modules of a text, and removes the assignments that are not compiled. If `only` is
/// empty, all assignments are compiled, except for the left out ones below. Otherwise, the types
/// with the names `only` are compiled, and what they refer to. Information objects and object sets
/// are kept, too.
///
/// An assignment is left out in these cases:
///
/// - It has a form that is not supported. The parser does not notice each of these cases; `known`
///   has the others.
/// - It refers to an assignment that is left out.
/// - It refers to an imported name, but the module of that name is not among `externals`, or does
///   not have the name because it leaves the name out.
///
/// Fails if a name of `only` is left out or does not exist, and if the first module is not valid.
pub fn select<'a>(
    alloc: Global,
    externals: &Vec<External<'a>>,
    text: &'a str,
    only: &[&str],
    known: &Vec<Refusal<'a>>,
) -> Result<Selection<'a>, Failure<'a>> {
    selection_of(alloc, externals, text, only, known, false)
}

/// Does what [`select`] does, but keeps only the first module of the text, and what it refers to in
/// the other modules. Information objects and object sets are removed.
pub fn select_first<'a>(
    alloc: Global,
    externals: &Vec<External<'a>>,
    text: &'a str,
    only: &[&str],
    known: &Vec<Refusal<'a>>,
) -> Result<Selection<'a>, Failure<'a>> {
    let mut selection = selection_of(alloc, externals, text, only, known, true)?;
    let end = selection.parsed.end;
    selection
        .left_out
        .retain(|left_out| left_out.name.offset < end);
    Ok(selection)
}

fn selection_of<'a>(
    alloc: Global,
    externals: &Vec<External<'a>>,
    text: &'a str,
    only: &[&str],
    known: &Vec<Refusal<'a>>,
    is_first: bool,
) -> Result<Selection<'a>, Failure<'a>> {
    let mut parsed = parse_module(alloc, text)?;
    let used = used_by(alloc, &parsed, is_first)?;
    let left_out = left_out_of(alloc, &parsed, externals, &used, known)?;
    let wanted = wanted_of(alloc, &parsed, &used, &left_out, only, is_first)?;
    keep(alloc, &mut parsed, externals, &wanted)?;
    if !only.is_empty() {
        return Ok(Selection {
            parsed,
            left_out: Vec::new(alloc),
        });
    }
    Ok(Selection { parsed, left_out })
}
