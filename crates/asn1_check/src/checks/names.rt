//! Checks that each name is defined exactly once.

use super::seen_numbers::SeenNumbers;
use crate::module::Module;
use asn1_syntax::{
    Component, Endpoint, Failure, Item, NameIndex, NamedNumber, Refusal, TypeForm, TypeNode,
};
use std::alloc::Global;

/// The index of the type with this name, if the module defines it.
pub fn find_type(module: &Module<'_>, name: &str) -> Option<usize> {
    module.index.types.find(name)
}

/// Whether the module defines a value with this name.
pub fn has_value(module: &Module<'_>, name: &str) -> bool {
    module.index.values.has(name)
}

/// Whether the module imports this name.
pub fn is_imported(module: &Module<'_>, name: &str) -> bool {
    module.index.imports.has(name)
}

/// Checks that no name is defined twice, and that each name that is used is defined.
pub fn check_names<'a>(alloc: Global, module: &Module<'a>) -> Result<(), Failure<'a>> {
    check_types(module)?;
    check_values(module)?;
    for node in module.nodes.iter() {
        check_node(alloc, module, node)?;
    }
    Ok(())
}

// Checks that each type is the one which the index of the module has for its name.
fn check_types<'a>(module: &Module<'a>) -> Result<(), Refusal<'a>> {
    for assigned in module.types.iter() {
        let name = assigned.name;
        if find_type(module, name.text) != Some(assigned.of) || is_imported(module, name.text) {
            return Err(Refusal::of(name, "a name that no other type has"));
        }
    }
    Ok(())
}

// Checks that each value is the one which the index of the module has for its name.
fn check_values<'a>(module: &Module<'a>) -> Result<(), Refusal<'a>> {
    for (number, assigned) in module.values.iter().enumerate() {
        let name = assigned.name;
        if module.index.values.find(name.text) != Some(number) || is_imported(module, name.text) {
            return Err(Refusal::of(name, "a name that no other value has"));
        }
    }
    Ok(())
}

fn check_node<'a>(
    alloc: Global,
    module: &Module<'a>,
    node: &TypeNode<'a>,
) -> Result<(), Failure<'a>> {
    match &node.form {
        TypeForm::Reference => Ok(check_reference(module, node.item)?),
        TypeForm::Sequence(components) | TypeForm::Set(components) => {
            check_components(alloc, components)
        }
        TypeForm::Choice(components) => check_components(alloc, components),
        TypeForm::Integer(numbers) => check_numbers(alloc, module, numbers, true),
        TypeForm::BitString(numbers) => check_numbers(alloc, module, numbers, true),
        TypeForm::Enumerated(numbers) => check_numbers(alloc, module, numbers, false),
        _ => Ok(()),
    }
}

fn check_reference<'a>(module: &Module<'a>, name: Item<'a>) -> Result<(), Refusal<'a>> {
    if find_type(module, name.text).is_some() || is_imported(module, name.text) {
        return Ok(());
    }
    Err(Refusal::of(name, "a type that this module defines or imports"))
}

fn check_components<'a>(alloc: Global, components: &Vec<Component<'a>>) -> Result<(), Failure<'a>> {
    let mut before = NameIndex::new(alloc);
    for (number, component) in components.iter().enumerate() {
        let name = component.name;
        if !before.add(name.text, number)? {
            return Err(Failure::Refused(Refusal::of(name, "a name that no other component has")));
        }
    }
    Ok(())
}

fn check_numbers<'a>(
    alloc: Global,
    module: &Module<'a>,
    numbers: &Vec<NamedNumber<'a>>,
    are_written: bool,
) -> Result<(), Failure<'a>> {
    let mut before = SeenNumbers::new(alloc);
    for named in numbers.iter() {
        if let Some(refusal) = before.add(named)? {
            return Err(Failure::Refused(refusal));
        }
        if are_written && named.number.is_none() {
            let expected = "a number in parentheses after this name";
            return Err(Failure::Refused(Refusal::of(named.name, expected)));
        }
        check_endpoint(module, named.number)?;
    }
    Ok(())
}

fn check_endpoint<'a>(
    module: &Module<'a>,
    number: Option<Endpoint<'a>>,
) -> Result<(), Refusal<'a>> {
    match number {
        Some(Endpoint::Name(name))
            if !has_value(module, name.text) && !is_imported(module, name.text) => {
            Err(Refusal::of(name, "a value that this module defines or imports"))
        }
        _ => Ok(()),
    }
}
