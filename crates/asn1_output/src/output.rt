//! Compiles a module to the text of Rust types.

mod abilities;
mod alternatives;
mod choice;
mod choice_line;
mod choice_part;
mod counts;
mod default_place;
mod defaults;
mod definition;
mod definitions;
mod directive;
mod docs;
mod enumeration;
mod field;
mod fields;
mod file;
mod imports;
mod kept;
mod known;
mod lists;
mod naming;
mod nest;
mod number_default;
mod numbers;
mod renamed;
mod root;
mod rust_names;
mod sequence;
mod sequence_part;
mod sources;
mod summary;
mod tagged;
mod taken;
mod template;
mod types;
mod values;
mod warnings;
mod words;
mod wrap;
mod written;

use crate::compiled::Compiled;
use crate::output::abilities::add_imported;
use crate::output::alternatives::left_out;
use crate::output::counts::add_counts;
use crate::output::definition::Definition;
use crate::output::file::file_of;
use crate::output::kept::kept_of;
use crate::output::naming::names_of;
use crate::output::root::{library_of, proof_file, root_of};
use crate::output::sources::Sources;
use crate::output::summary::external_of;
use crate::output::types::types_in_order;
use crate::output::values::{values_file, values_name};
use crate::output::warnings::warnings_of;
use crate::output::written::Written;
use asn1_check::{Checks, External, Module, Selected, check_sorted, selected_module};
use asn1_syntax::{Failure, Refusal};
pub use file::OutputFile;
pub use rust_names::{pascal_name, snake_name};
use std::alloc::{AllocError, Global};

/// Returns what other modules may import from the module in `text`, which is compiled in the crate
/// `krate`. `externals` are the modules from which this module may import. Assignments that are not
/// supported are left out. Fails if the module is not valid, or if `externals` has a module with
/// the same name.
pub fn read_external<'a>(
    alloc: Global,
    externals: &Vec<External<'a>>,
    text: &'a str,
    krate: &str,
) -> Result<External<'a>, Failure<'a>> {
    let mut known = Vec::new(alloc);
    for _ in 0..=text.len() {
        let checked = checked_of(alloc, externals, text, &[], &mut known)?;
        let Some((selected, checks)) = checked else {
            continue;
        };
        let name = selected.module.name;
        if is_given(externals, name.text) {
            let expected = "a module that no --with option in front gives";
            return Err(Failure::Refused(Refusal::of(name, expected)));
        }
        match summary_of(alloc, &selected, &checks, krate) {
            Err(Failure::Unsupported(refusal) | Failure::Refused(refusal)) => {
                add_known(&mut known, refusal)?;
            }
            summary => return summary,
        }
    }
    Err(last_of(&known))
}

fn summary_of<'a>(
    alloc: Global,
    selected: &Selected<'a>,
    checks: &Checks,
    krate: &str,
) -> Result<External<'a>, Failure<'a>> {
    let module = &selected.module;
    let names = names_of(alloc, module)?;
    let kept = kept_of(alloc, module, checks)?;
    let types = types_in_order(alloc, module, &checks.order, &names, &kept)?;
    let written = Written {
        module,
        names: &names,
        types: &types,
        kept: &kept,
    };
    Ok(external_of(alloc, &written, checks, &selected.left_out, krate)?)
}

fn is_given(externals: &Vec<External<'_>>, name: &str) -> bool {
    for external in externals.iter() {
        if external.module == name {
            return true;
        }
    }
    false
}

/// Compiles a module for the crate `krate`. Returns the files to be written beneath the folder of
/// the crate. `externals` are the modules of other crates from which this module may import.
///
/// If `only` is empty, all types are compiled, and what is not supported is left out with a
/// warning. Otherwise the types with the names `only` are compiled, and what they refer to.
///
/// Fails if a type of `only` is not supported, or if nothing of the module is supported.
pub fn compile<'a>(
    alloc: Global,
    externals: &Vec<External<'a>>,
    text: &'a str,
    krate: &str,
    only: &[&str],
) -> Result<Compiled<'a>, Failure<'a>> {
    let mut known = Vec::new(alloc);
    for _ in 0..=text.len() {
        let checked = checked_of(alloc, externals, text, only, &mut known)?;
        let Some((selected, checks)) = checked else {
            continue;
        };
        match compiled_of(alloc, &selected, &checks, krate) {
            Err(Failure::Unsupported(refusal) | Failure::Refused(refusal)) => {
                add_known(&mut known, refusal)?;
            }
            compiled => return compiled,
        }
    }
    Err(last_of(&known))
}

// What is compiled of a module, with its checks; `None` if something is wrong or not supported, which is
// added to `known`.
fn checked_of<'a>(
    alloc: Global,
    externals: &Vec<External<'a>>,
    text: &'a str,
    only: &[&str],
    known: &mut Vec<Refusal<'a>>,
) -> Result<Option<(Selected<'a>, Checks)>, Failure<'a>> {
    let mut selected = match compilable(alloc, externals, text, only, known) {
        Err(Failure::Refused(refusal)) => {
            add_known(known, refusal)?;
            return Ok(None);
        }
        selected => selected?,
    };
    match check_sorted(alloc, &mut selected.module) {
        Ok(checks) => Ok(Some((selected, checks))),
        Err(Failure::Unsupported(refusal) | Failure::Refused(refusal)) => {
            add_known(known, refusal)?;
            Ok(None)
        }
        Err(failure) => Err(failure),
    }
}

// Adds what is wrong or not supported. One that is there was not left out, so it is outside of all
// assignments, or where a parser finds it.
fn add_known<'a>(known: &mut Vec<Refusal<'a>>, refusal: Refusal<'a>) -> Result<(), Failure<'a>> {
    for before in known.iter() {
        if before.offset == refusal.offset {
            return Err(Failure::Refused(refusal));
        }
    }
    Ok(known.push(refusal)?)
}

fn last_of<'a>(known: &Vec<Refusal<'a>>) -> Failure<'a> {
    match known.last() {
        Some(refusal) => Failure::Refused(*refusal),
        None => Failure::OutOfMemory,
    }
}

// What is compiled of a module. What is not supported is added to `known`, and left out.
fn compilable<'a>(
    alloc: Global,
    externals: &Vec<External<'a>>,
    text: &'a str,
    only: &[&str],
    known: &mut Vec<Refusal<'a>>,
) -> Result<Selected<'a>, Failure<'a>> {
    let selected = selected_module(alloc, externals, text, only, known)?;
    let before = known.len();
    add_counts(&selected.module, known)?;
    add_imported(&selected.module, known)?;
    if known.len() == before {
        return checked(selected);
    }
    checked(selected_module(alloc, externals, text, only, known)?)
}

// Checks that something is left, if anything was there.
fn checked<'a>(selected: Selected<'a>) -> Result<Selected<'a>, Failure<'a>> {
    let is_empty = selected.module.types.is_empty() && selected.module.values.is_empty();
    match selected.left_out.first() {
        Some(left_out) if is_empty => Err(Failure::Unsupported(left_out.refusal)),
        _ => Ok(selected),
    }
}

fn compiled_of<'a>(
    alloc: Global,
    selected: &Selected<'a>,
    checks: &Checks,
    krate: &str,
) -> Result<Compiled<'a>, Failure<'a>> {
    let module = &selected.module;
    let names = names_of(alloc, module)?;
    let kept = kept_of(alloc, module, checks)?;
    let types = types_in_order(alloc, module, &checks.order, &names, &kept)?;
    let written = Written {
        module,
        names: &names,
        types: &types,
        kept: &kept,
    };
    Ok(Compiled {
        files: files_of(alloc, &written, krate)?,
        left_out: left_out(alloc, module)?,
        warnings: warnings_of(alloc, &written, &selected.left_out)?,
    })
}

fn files_of<'a>(
    alloc: Global,
    written: &Written<'_, 'a>,
    krate: &str,
) -> Result<Vec<OutputFile>, Failure<'a>> {
    let module = written.module;
    let definitions = written.definitions(alloc)?;
    check_definitions(module, &definitions)?;
    let sources = Sources::of(alloc, module, &definitions)?;
    let mut files = vec![in alloc; library_of(alloc, &definitions)?]?;
    add_root(alloc, &mut files, module, &definitions)?;
    for definition in definitions.iter() {
        files.push(file_of(alloc, module, krate, definition, &sources)?)?;
        add_proofs(alloc, &mut files, krate, definition)?;
    }
    Ok(files)
}

// Checks that no two definitions have the same file, or names that are the same.
fn check_definitions<'a>(
    module: &Module<'a>,
    definitions: &Vec<Definition>,
) -> Result<(), Refusal<'a>> {
    let mut before = None;
    for definition in definitions.iter() {
        if before == Some(definition.file.as_str()) {
            let expected = "types whose names in Rust differ: choose one by a comment `Rust name:`";
            return Err(Refusal::of(module.name, expected));
        }
        before = Some(definition.file.as_str());
    }
    Ok(())
}

// Adds the files of the proofs of a definition.
fn add_proofs(
    alloc: Global,
    files: &mut Vec<OutputFile>,
    krate: &str,
    definition: &Definition,
) -> Result<(), AllocError> {
    for proof in definition.proofs.iter() {
        files.push(proof_file(alloc, krate, definition, proof)?)?;
    }
    Ok(())
}

// Adds the file that names all others, and that of the values if there is one.
fn add_root(
    alloc: Global,
    files: &mut Vec<OutputFile>,
    module: &Module<'_>,
    definitions: &Vec<Definition>,
) -> Result<(), AllocError> {
    let name = module.name.text;
    match values_file(alloc, module, definitions)? {
        Some(values) => {
            files.push(root_of(alloc, name, definitions, Some(values_name(definitions)))?)?;
            Ok(files.push(values)?)
        }
        None => Ok(files.push(root_of(alloc, name, definitions, None)?)?),
    }
}
