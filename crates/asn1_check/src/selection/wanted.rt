//! The names of the assignments that are compiled.

use super::used::Used;
use asn1_syntax::{Failure, Item, LeftOut, NameIndex, ParsedModule, Refusal};
use std::alloc::{AllocError, Global};

/// Returns the names of the assignments to compile:
///
/// - If `only` is not empty, the names of `only`, and the names that these refer to.
/// - If `only` is empty and `is_first` is true, the names of the first module, and the names that
///   these refer to.
/// - Otherwise all names.
///
/// No name is returned that is left out. Fails if a name of `only` is left out or does not exist.
pub fn wanted_of<'a>(
    alloc: Global,
    parsed: &ParsedModule<'a>,
    used: &Vec<Used<'a>>,
    left_out: &Vec<LeftOut<'a>>,
    only: &[&str],
    is_first: bool,
) -> Result<NameIndex<'a>, Failure<'a>> {
    for name in only {
        for left_out in left_out.iter() {
            if left_out.name.text == *name {
                return Err(Failure::Unsupported(left_out.refusal));
            }
        }
    }
    let all = all_of(alloc, used, left_out)?;
    if only.is_empty() && !is_first {
        return Ok(all);
    }
    let mut found = asked_for(alloc, parsed, used, &all, only)?;
    reach(used, &all, &mut found)?;
    Ok(found)
}

// The names that are not left out, with the numbers of their assignments.
fn all_of<'a>(
    alloc: Global,
    used: &Vec<Used<'a>>,
    left_out: &Vec<LeftOut<'a>>,
) -> Result<NameIndex<'a>, AllocError> {
    let mut left = NameIndex::new(alloc);
    for left_out in left_out.iter() {
        left.add(left_out.name.text, 0)?;
    }
    let mut all = NameIndex::new(alloc);
    for (number, assigned) in used.iter().enumerate() {
        if !left.has(assigned.name.text) {
            all.add(assigned.name.text, number)?;
        }
    }
    Ok(all)
}

// The names of `only`, which are among these; those of the first module if `only` is empty.
fn asked_for<'a>(
    alloc: Global,
    parsed: &ParsedModule<'a>,
    used: &Vec<Used<'a>>,
    all: &NameIndex<'a>,
    only: &[&str],
) -> Result<NameIndex<'a>, Failure<'a>> {
    let mut found = NameIndex::new(alloc);
    for name in only {
        let Some(number) = all.find(name) else {
            return Err(Failure::Refused(not_there(parsed.name)));
        };
        if let Some(assigned) = used.get(number) {
            found.add(assigned.name.text, number)?;
        }
    }
    if !only.is_empty() {
        return Ok(found);
    }
    for (number, assigned) in used.iter().enumerate() {
        if assigned.name.offset < parsed.end && all.find(assigned.name.text).is_some() {
            found.add(assigned.name.text, number)?;
        }
    }
    Ok(found)
}

/// The refusal of a module that does not have a type which the caller asked for.
pub fn not_there<'a>(module: Item<'a>) -> Refusal<'a> {
    Refusal::of(module, "a module that has each type that is asked for")
}

// Adds the names that are reached from these.
fn reach<'a>(
    used: &Vec<Used<'a>>,
    all: &NameIndex<'a>,
    found: &mut NameIndex<'a>,
) -> Result<(), AllocError> {
    for at in 0..used.len() {
        let Some(name) = found.names.get(at) else {
            break;
        };
        let name = *name;
        if let Some(number) = all.find(name)
            && let Some(assigned) = used.get(number)
        {
            add_names(&assigned.names, all, found)?;
            add_names(&assigned.members, all, found)?;
        }
    }
    Ok(())
}

// Adds those of these names that are among all.
fn add_names<'a>(
    names: &Vec<Item<'a>>,
    all: &NameIndex<'a>,
    found: &mut NameIndex<'a>,
) -> Result<(), AllocError> {
    for name in names.iter() {
        if let Some(number) = all.find(name.text) {
            found.add(name.text, number)?;
        }
    }
    Ok(())
}
