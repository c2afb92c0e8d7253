//! Compiles the texts of modules to a table.

use crate::choices::{Choice, choices_of};
use crate::compiled_table::{CompiledTable, Root};
use crate::heights;
use crate::library::Library;
use crate::nodes::lay;
use crate::octets::{octets_of, place_of};
use crate::roots::{root_at, types_of};
use crate::rows::Rows;
use crate::wrong::Wrong;
use asn1_syntax::{LeftOut, Refusal, Warning};
use schema_types::{Fault, FaultKind, Schema};
use std::alloc::{AllocError, Global};

/// The greatest number of nodes that a table may have.
const MAX_NODES: usize = 1048576;

const TAG: &str = "a component whose tag no other one has where both may be";

/// Compiles the modules of a text to a table. The table has the types with the names `only`, or all
/// supported types if `only` is empty. A name may be `MODULE.NAME`. After its last module, the text
/// must have the lines that [`asn1_syntax::own_names`] returns for it.
///
/// # Errors
///
/// - `Refused`, if the modules are not valid.
/// - `Refused`, if a name of `only` does not exist, or its type is not supported.
/// - `Unsupported`, if CHOICEs are nested more than 64 deep.
/// - `TooLarge`, if the table has more than 1048576 nodes.
/// - `OutOfMemory`, if a memory allocation fails.
/// - `NoTable`, if the compiler has an error.
pub fn table_of<'a>(
    alloc: Global,
    text: &'a str,
    only: &[&str],
) -> Result<CompiledTable<'a>, Wrong<'a>> {
    let mut known = Vec::new(alloc);
    for _ in 0..=text.len() {
        let library = match Library::of(alloc, text, &known) {
            Err(Wrong::Refused(refusal)) => {
                add_known(&mut known, refusal)?;
                continue;
            }
            library => library?,
        };
        let found = match try_table(alloc, library, only)? {
            Attempt::Table(table) => return Ok(table),
            Attempt::Failures(found) => found,
        };
        for refusal in found.iter() {
            add_known(&mut known, *refusal)?;
        }
    }
    Err(Wrong::TooLarge)
}

// Adds what is wrong or not supported. One that is there was not left out, so it is outside of all
// assignments, or where a parser finds it.
fn add_known<'a>(known: &mut Vec<Refusal<'a>>, refusal: Refusal<'a>) -> Result<(), Wrong<'a>> {
    for before in known.iter() {
        if before.offset == refusal.offset {
            return Err(Wrong::Refused(refusal));
        }
    }
    known.push(refusal)?;
    Ok(())
}

// A table, or what is not supported.
#[derive(Drop)]
enum Attempt<'a> {
    Table(CompiledTable<'a>),
    Failures(Vec<Refusal<'a>>),
}

fn try_table<'a>(
    alloc: Global,
    library: Library<'a>,
    only: &[&str],
) -> Result<Attempt<'a>, Wrong<'a>> {
    let choices = choices_of(alloc, &library)?;
    let types = types_of(alloc, &library, only)?;
    let mut rows = Rows::new(alloc);
    let mut failures = Vec::new(alloc);
    let mut roots = Vec::new(alloc);
    for index in types.iter() {
        add_root(
            alloc,
            &library,
            &mut rows,
            *index,
            &mut roots,
            &mut failures,
        )?;
    }
    lay_all(alloc, &library, &choices, &mut rows, &mut failures)?;
    let first = failures.first().copied();
    match (first, only) {
        (None, _) => finished(alloc, library, rows, roots, only),
        (Some(_), []) => Ok(Attempt::Failures(failures)),
        (Some(refusal), _) => Err(Wrong::Refused(refusal)),
    }
}

fn add_root<'a>(
    alloc: Global,
    library: &Library<'a>,
    rows: &mut Rows<'a>,
    index: usize,
    roots: &mut Vec<Root<'a>>,
    failures: &mut Vec<Refusal<'a>>,
) -> Result<(), Wrong<'a>> {
    match root_at(alloc, library, rows, index) {
        Ok(root) => Ok(roots.push(root)?),
        Err(Wrong::Unsupported(refusal)) => Ok(failures.push(refusal)?),
        Err(wrong) => Err(wrong),
    }
}

// Fills the nodes, and those that they need.
fn lay_all<'a>(
    alloc: Global,
    library: &Library<'a>,
    choices: &Vec<Choice<'a>>,
    rows: &mut Rows<'a>,
    failures: &mut Vec<Refusal<'a>>,
) -> Result<(), Wrong<'a>> {
    for index in 0..MAX_NODES {
        if index >= rows.nodes.len() {
            return Ok(());
        }
        match lay(alloc, library, choices, rows, index) {
            Ok(()) => {}
            Err(Wrong::Unsupported(refusal)) => failures.push(refusal)?,
            Err(wrong) => return Err(wrong),
        }
    }
    Err(Wrong::TooLarge)
}

// The table with these rows.
fn finished<'a>(
    alloc: Global,
    library: Library<'a>,
    rows: Rows<'a>,
    roots: Vec<Root<'a>>,
    only: &[&str],
) -> Result<Attempt<'a>, Wrong<'a>> {
    let order = heights::order_of(alloc, &rows)?;
    let places = heights::places_of(alloc, &order)?;
    let octets = octets_of(alloc, &rows, &order, &places)?;
    match Schema::new(octets.as_slice()) {
        Ok(_) => {}
        Err(fault) => return explained(alloc, &rows, fault, only),
    }
    let mut placed = Vec::new(alloc);
    for root in roots.iter() {
        placed.push(Root {
            node: place_of(&places, root.node),
            ..*root
        })?;
    }
    let Rows { warnings, .. } = rows;
    Ok(Attempt::Table(CompiledTable {
        octets,
        roots: placed,
        warnings: with_left_out(alloc, warnings, &library.left_out, only)?,
    }))
}

// The warnings, and one for each assignment that is left out, if no types are asked for by name.
fn with_left_out<'a>(
    alloc: Global,
    warnings: Vec<Warning<'a>>,
    left_out: &Vec<LeftOut<'a>>,
    only: &[&str],
) -> Result<Vec<Warning<'a>>, AllocError> {
    let mut all = warnings;
    if only.is_empty() {
        for one in left_out.iter() {
            let (name, expected) = (one.name.text, one.refusal.expected);
            all.push(Warning {
                offset: one.refusal.offset,
                found: one.refusal.found,
                text: format!(in alloc; "{name} is left out: expected {expected}")?,
            })?;
        }
    }
    all.sort_by_key(|warning| warning.offset)?;
    Ok(all)
}

// The component whose tag another one has, if that is the fault.
fn explained<'a>(
    alloc: Global,
    rows: &Rows<'a>,
    fault: Fault,
    only: &[&str],
) -> Result<Attempt<'a>, Wrong<'a>> {
    let start = rows.nodes.len().saturating_mul(40).saturating_add(32);
    let index = fault.offset.saturating_sub(start) / 28;
    let Some(name) = rows.components.get(index) else {
        return Err(Wrong::NoTable(fault));
    };
    let refusal = Refusal::of(*name, TAG);
    match (fault.kind, only) {
        (FaultKind::Tag, []) => { Ok(Attempt::Failures(vec![in alloc; refusal]?)) }
        (FaultKind::Tag, _) => Err(Wrong::Refused(refusal)),
        _ => Err(Wrong::NoTable(fault)),
    }
}
