//! Rust names of types. Types without an ASN.1 name get one, too.

use super::directive::{chosen_name, type_name};
use super::lists::list_field;
use super::numbers::is_enumeration;
use super::rust_names::pascal_name;
use super::taken::{ALONE, Taken};
use asn1_check::{Module, contained};
use asn1_syntax::{Component, Item, TypeForm};
use std::alloc::{AllocError, Global};

/// The Rust names of all types, by the index of the type. Types for which Rust text is written have
/// different names. A type without an ASN.1 name gets the name of the type around it, followed by
/// the name of its component. The name is empty for a type that occurs only as the type of a value.
pub fn names_of(alloc: Global, module: &Module<'_>) -> Result<Vec<String>, AllocError> {
    let mut taken = imported_names(alloc, module)?;
    let mut names = empty_names(alloc, module.nodes.len())?;
    add_chosen(alloc, module, &mut names, &mut taken)?;
    add_assigned(alloc, module, &mut names, &mut taken)?;
    for count in 0..module.nodes.len() {
        let index = module.nodes.len() - 1 - count;
        name_type(alloc, module, &mut names, &mut taken, index)?;
        if let Some(of) = components_after(module, index) {
            name_type(alloc, module, &mut names, &mut taken, of)?;
        }
    }
    Ok(names)
}

// Gives the type with this index a name that is free, if text is written for it and it has none in the
// module, and names its parts.
fn name_type(
    alloc: Global,
    module: &Module<'_>,
    names: &mut Vec<String>,
    taken: &mut Taken,
    index: usize,
) -> Result<(), AllocError> {
    if !is_assigned(module, index) && is_written(module, index) {
        let name = String::from_str(alloc, text_at(names, index))?;
        let free = free_name(alloc, module, taken, index, name.as_str())?;
        set_name(names, index, free);
    }
    name_parts(alloc, module, names, index)
}

// The SEQUENCE after the tag of a SET, which has a greater index than that.
fn components_after(module: &Module<'_>, index: usize) -> Option<usize> {
    match &module.nodes.get(index)?.form {
        TypeForm::Tagged(_, of) if *of > index => Some(*of),
        _ => None,
    }
}

// The names of types of other crates, which are taken.
fn imported_names(alloc: Global, module: &Module<'_>) -> Result<Taken, AllocError> {
    let mut taken = Taken::new(alloc);
    for imported in module.imported.list.iter() {
        taken.take(alloc, imported.rust_name.as_str(), ALONE)?;
    }
    Ok(taken)
}

/// The names that all types would have in Rust, by the index of the type, if equal names were
/// allowed.
pub fn plain_names_of(alloc: Global, module: &Module<'_>) -> Result<Vec<String>, AllocError> {
    let mut names = empty_names(alloc, module.nodes.len())?;
    add_plain(alloc, module, &mut names)?;
    for count in 0..module.nodes.len() {
        let index = module.nodes.len() - 1 - count;
        name_parts(alloc, module, &mut names, index)?;
        if let Some(of) = components_after(module, index) {
            name_parts(alloc, module, &mut names, of)?;
        }
    }
    Ok(names)
}

fn add_plain(
    alloc: Global,
    module: &Module<'_>,
    names: &mut Vec<String>,
) -> Result<(), AllocError> {
    for assigned in module.types.iter() {
        set_name(names, assigned.of, plain_name(alloc, assigned.name)?);
    }
    Ok(())
}

fn plain_name(alloc: Global, name: Item<'_>) -> Result<String, AllocError> {
    match chosen_name(name) {
        Some(chosen) => String::from_str(alloc, chosen),
        None => pascal_name(alloc, name.text),
    }
}

// Adds the names that comments of the module choose.
fn add_chosen(
    alloc: Global,
    module: &Module<'_>,
    names: &mut Vec<String>,
    taken: &mut Taken,
) -> Result<(), AllocError> {
    for assigned in module.types.iter() {
        if let Some(chosen) = chosen_name(assigned.name) {
            taken.take(alloc, chosen, ends_at(module, assigned.of))?;
            set_name(names, assigned.of, String::from_str(alloc, chosen)?);
        }
    }
    Ok(())
}

// Adds the names of all other types that have one in the module.
fn add_assigned(
    alloc: Global,
    module: &Module<'_>,
    names: &mut Vec<String>,
    taken: &mut Taken,
) -> Result<(), AllocError> {
    for assigned in module.types.iter() {
        if chosen_name(assigned.name).is_none() {
            let name = type_name(alloc, assigned.name)?;
            let free = free_name(alloc, module, taken, assigned.of, name.as_str())?;
            set_name(names, assigned.of, free);
        }
    }
    Ok(())
}

// Takes the first name that is free for the type with this index.
fn free_name(
    alloc: Global,
    module: &Module<'_>,
    taken: &mut Taken,
    index: usize,
    name: &str,
) -> Result<String, AllocError> {
    if name.is_empty() {
        return Ok(String::new(alloc));
    }
    taken.take_free(alloc, name, ends_at(module, index), "")
}

/// Whether the type with this index gets Rust text of its own, even if it has no ASN.1 name.
pub fn is_written(module: &Module<'_>, index: usize) -> bool {
    match module.nodes.get(index) {
        Some(node) => match &node.form {
            TypeForm::Sequence(_) | TypeForm::Choice(_) => true,
            TypeForm::SequenceOf(_) | TypeForm::SetOf(_) => list_field(module, index).is_some(),
            _ => is_enumeration(module, index),
        },
        None => false,
    }
}

// What is after the name of the type with this index in names that belong to it.
fn ends_at(module: &Module<'_>, index: usize) -> &'static str {
    match module.nodes.get(index) {
        Some(node) => match &node.form {
            TypeForm::Sequence(_) if node.mark.is_some() => "\nFields\nKnown",
            TypeForm::Sequence(_) => "\nFields",
            TypeForm::Choice(_) if node.mark.is_some() => "\nAlternatives\nTagged\nKnown",
            TypeForm::Choice(_) => "\nAlternatives\nTagged",
            TypeForm::BitString(bits) if !bits.is_empty() => "\nBit",
            _ => ALONE,
        },
        None => ALONE,
    }
}

fn empty_names(alloc: Global, count: usize) -> Result<Vec<String>, AllocError> {
    let mut names = Vec::new(alloc);
    for _ in 0..count {
        names.push(String::new(alloc))?;
    }
    Ok(names)
}

/// The text with this index; empty if there is none.
pub fn text_at(texts: &Vec<String>, index: usize) -> &str {
    match texts.get(index) {
        Some(text) => text.as_str(),
        None => "",
    }
}

/// Whether the module has a type assignment that gives the type with this index a name.
pub fn is_assigned(module: &Module<'_>, index: usize) -> bool {
    module.assignment(index).is_some()
}

fn set_name(names: &mut Vec<String>, index: usize, name: String) {
    if let Some(place) = names.get_mut(index) {
        *place = name;
    }
}

// Names the parts of the type with this index.
fn name_parts(
    alloc: Global,
    module: &Module<'_>,
    names: &mut Vec<String>,
    index: usize,
) -> Result<(), AllocError> {
    let Some(node) = module.nodes.get(index) else {
        return Ok(());
    };
    let name = String::from_str(alloc, text_at(names, index))?;
    if name.is_empty() {
        return Ok(());
    }
    if let Some(of) = contained(node) {
        set_name(names, of, joined(alloc, &name, "Contents")?);
    }
    match &node.form {
        TypeForm::Sequence(components) | TypeForm::Choice(components) => {
            name_components(alloc, names, &name, components)
        }
        TypeForm::SequenceOf(of) | TypeForm::SetOf(of) => {
            set_name(names, *of, joined(alloc, &name, "Item")?);
            Ok(())
        }
        TypeForm::Tagged(_, of) => {
            let end = if is_assigned(module, index) {
                "Contents"
            } else {
                ""
            };
            set_name(names, *of, joined(alloc, &name, end)?);
            Ok(())
        }
        _ => Ok(()),
    }
}

fn name_components(
    alloc: Global,
    names: &mut Vec<String>,
    name: &String,
    components: &Vec<Component<'_>>,
) -> Result<(), AllocError> {
    for component in components.iter() {
        let end = pascal_name(alloc, component.name.text)?;
        set_name(names, component.of, joined(alloc, name, end.as_str())?);
    }
    Ok(())
}

fn joined(alloc: Global, name: &String, end: &str) -> Result<String, AllocError> {
    let mut text = String::from_str(alloc, name.as_str())?;
    text.push_str(end)?;
    Ok(text)
}
