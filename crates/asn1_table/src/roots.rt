//! The types for which a table is made.

use crate::compiled_table::Root;
use crate::library::{Library, written_name};
use crate::nodes::node_at;
use crate::opener::Opener;
use crate::rows::Rows;
use crate::wrong::Wrong;
use asn1_check::not_there;
use std::alloc::Global;

/// The indices of the types with the names `only`, or of all types if `only` is empty. A name may
/// be `MODULE.NAME`. Fails if a name does not exist or its type is left out. Also fails if all
/// types are asked for and all are left out.
pub fn types_of<'a>(
    alloc: Global,
    library: &Library<'a>,
    only: &[&str],
) -> Result<Vec<usize>, Wrong<'a>> {
    let mut found = Vec::new(alloc);
    for name in only {
        found.push(type_of(library, name)?)?;
    }
    if only.is_empty() {
        for assigned in library.module.types.iter() {
            found.push(assigned.of)?;
        }
    }
    match library.left_out.first() {
        Some(left_out) if found.is_empty() => Err(Wrong::Refused(left_out.refusal)),
        _ => Ok(found),
    }
}

// The index of the type with this name. Refuses one that is left out, or not there.
fn type_of<'a>(library: &Library<'a>, name: &str) -> Result<usize, Wrong<'a>> {
    let found = match name.split_once('.') {
        Some(_) => library.commented(0, name),
        None => library.find_anywhere(name),
    };
    if let Some(index) = found {
        return Ok(index);
    }
    let of = match name.split_once('.') {
        Some((_, of)) => of,
        None => name,
    };
    for left_out in library.left_out.iter() {
        if written_name(&library.outlines, left_out.name) == of {
            return Err(Wrong::Refused(left_out.refusal));
        }
    }
    Err(Wrong::Refused(not_there(library.module.name)))
}

/// Adds the node of the type with this index. Returns the node, the name of the type and the name
/// of its module.
pub fn root_at<'a>(
    alloc: Global,
    library: &Library<'a>,
    rows: &mut Rows<'a>,
    index: usize,
) -> Result<Root<'a>, Wrong<'a>> {
    let node = node_at(alloc, library, rows, index, Opener::NONE)?;
    let offset = match library.module.assignment(index) {
        Some(assigned) => assigned.name.offset,
        None => 0,
    };
    Ok(Root {
        module: library.module_at(offset),
        name: library.name_at(index),
        node,
    })
}
