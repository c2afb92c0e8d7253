//! The order of types, and types that contain themselves.

use super::names::find_type;
use super::parts::Parts;
use crate::bounds::contained;
use crate::module::Module;
use asn1_syntax::{Component, Failure, Item, Refusal, TypeForm};
use std::alloc::{AllocError, Global};

const LOOP: &str = "a type that does not contain itself";

/// Returns the indices of all types. The index of a type comes after the indices of the types that
/// it is made of. Fails if a type contains itself.
pub fn order_of<'a>(alloc: Global, module: &Module<'a>) -> Result<Vec<usize>, Failure<'a>> {
    let order = parts_in_order(alloc, module)?;
    let ready = marks_of(alloc, module, &order)?;
    check_ready(alloc, module, &ready)?;
    Ok(order)
}

/// Adds a refusal to `found` for each named type that contains itself, or that contains a type
/// which contains itself.
pub fn add_loops<'a>(
    alloc: Global,
    module: &Module<'a>,
    found: &mut Vec<Refusal<'a>>,
) -> Result<(), AllocError> {
    let order = parts_in_order(alloc, module)?;
    let ready = marks_of(alloc, module, &order)?;
    for assigned in module.types.iter() {
        if !is_marked(&ready, assigned.of) {
            found.push(Refusal::of(assigned.name, LOOP))?;
        }
    }
    Ok(())
}

/// Returns the indices of types. The index of a type comes after the indices of the types that it
/// is made of. A type is left out if it contains itself, or if it contains a type that contains
/// itself.
pub fn parts_in_order(alloc: Global, module: &Module<'_>) -> Result<Vec<usize>, AllocError> {
    let mut parts = Parts::of(alloc, module)?;
    let mut order = parts.without_parts(alloc)?;
    for at in 0..module.nodes.len() {
        let Some(index) = order.get(at) else {
            break;
        };
        parts.add_complete(*index, &mut order)?;
    }
    Ok(order)
}

/// Whether the index of a type is in `order`, for each type of the module. The place in the result
/// is the index of the type.
pub fn marks_of(
    alloc: Global,
    module: &Module<'_>,
    order: &Vec<usize>,
) -> Result<Vec<bool>, AllocError> {
    let mut ready = vec![in alloc; false; module.nodes.len()]?;
    for index in order.iter() {
        mark(&mut ready, *index);
    }
    Ok(ready)
}

fn check_ready<'a>(
    alloc: Global,
    module: &Module<'a>,
    ready: &Vec<bool>,
) -> Result<(), Failure<'a>> {
    for assigned in module.types.iter() {
        if !is_marked(ready, assigned.of) {
            let name = name_in_loop(alloc, module, ready, assigned.of)?;
            let refusal = Refusal::of(name.unwrap_or(assigned.name), LOOP);
            return Err(Failure::Unsupported(refusal));
        }
    }
    Ok(())
}

// The first name of a type that contains itself and is part of the type with this index.
fn name_in_loop<'a>(
    alloc: Global,
    module: &Module<'a>,
    ready: &Vec<bool>,
    index: usize,
) -> Result<Option<Item<'a>>, AllocError> {
    // after so many steps from part to part a type comes again
    let start = part_after(module, ready, index);
    let mut marks = vec![in alloc; false; module.nodes.len()]?;
    mark_loop(module, ready, &mut marks, start);
    for assigned in module.types.iter() {
        if is_marked(&marks, assigned.of) {
            return Ok(Some(assigned.name));
        }
    }
    Ok(None)
}

// The type that is reached from this one by as many steps to a part that is not ready as there are
// types.
fn part_after(module: &Module<'_>, ready: &Vec<bool>, index: usize) -> usize {
    let mut index = index;
    for _ in module.nodes.iter() {
        index = part_of(module, ready, index);
    }
    index
}

fn mark_loop(module: &Module<'_>, ready: &Vec<bool>, marks: &mut Vec<bool>, start: usize) {
    let mut index = start;
    for _ in module.nodes.iter() {
        mark(marks, index);
        index = part_of(module, ready, index);
    }
}

// The first part of the type with this index that is not ready.
fn part_of(module: &Module<'_>, ready: &Vec<bool>, index: usize) -> usize {
    let Some(node) = module.nodes.get(index) else {
        return index;
    };
    if let Some(of) = contained(node)
        && !is_marked(ready, of)
    {
        return of;
    }
    match &node.form {
        TypeForm::Reference => find_type(module, node.item.text).unwrap_or(index),
        TypeForm::Sequence(components) | TypeForm::Set(components) | TypeForm::Choice(components) =>
            component_of(ready, components).unwrap_or(index),
        TypeForm::SequenceOf(of) | TypeForm::SetOf(of) | TypeForm::Tagged(_, of) => *of,
        _ => index,
    }
}

fn component_of(ready: &Vec<bool>, components: &Vec<Component<'_>>) -> Option<usize> {
    for component in components.iter() {
        if !is_marked(ready, component.of) {
            return Some(component.of);
        }
    }
    None
}

/// Whether the `bool` at this index is true. False if there is no such index.
pub fn is_marked(marks: &Vec<bool>, index: usize) -> bool {
    match marks.get(index) {
        Some(mark) => *mark,
        None => false,
    }
}

/// Sets the `bool` at this index to true.
pub fn mark(marks: &mut Vec<bool>, index: usize) {
    if let Some(place) = marks.get_mut(index) {
        *place = true;
    }
}
