//! Types that contain themselves.

use super::names::find_type;
use super::order::{is_marked, mark, marks_of, parts_in_order};
use crate::base::base_of;
use crate::bounds::contained;
use crate::module::Module;
use asn1_syntax::{Component, SimpleType, TypeForm};
use std::alloc::{AllocError, Global};

/// Changes types that contain themselves so that they can be compiled. In each of these types, the
/// name that leads back to the type is replaced by a type whose values are not read. The
/// replacement is ANY if the name stands for a CHOICE. It is a SEQUENCE of unknown components if
/// the name stands for a SEQUENCE or a SEQUENCE OF. The [`TypeNode::item`](asn1_syntax::TypeNode)
/// of a replacement is still the name.
///
/// The names of other types are not replaced. A name that is the whole right side of an assignment
/// is not replaced either.
pub fn cut_recursion(alloc: Global, module: &mut Module<'_>) -> Result<(), AllocError> {
    let order = parts_in_order(alloc, module)?;
    if order.len() == module.nodes.len() {
        return Ok(());
    }
    let ready = marks_of(alloc, module, &order)?;
    for number in 0..module.types.len() {
        let Some(assigned) = module.types.get(number) else {
            break;
        };
        let (name, first, of) = (assigned.name.text, assigned.first, assigned.of);
        if is_marked(&ready, of) {
            continue;
        }
        if let Some(instead) = instead_of(module, of) {
            let reached = reached_from(alloc, module, &ready, of)?;
            cut(module, &reached, first, name, instead);
        }
    }
    Ok(())
}

// What is in the place of the name of the type with this index.
fn instead_of(module: &Module<'_>, index: usize) -> Option<SimpleType> {
    match &module.nodes.get(base_of(module, index))?.form {
        TypeForm::Sequence(_) | TypeForm::SequenceOf(_) => Some(SimpleType::Unread),
        TypeForm::Choice(_) => Some(SimpleType::Any),
        _ => None,
    }
}

// Puts a type in the place of the marked names of another one, from this index on.
fn cut(
    module: &mut Module<'_>,
    reached: &Vec<bool>,
    first: usize,
    name: &str,
    instead: SimpleType,
) {
    for index in first..module.nodes.len() {
        let is_whole = module.assignment(index).is_some();
        if let Some(node) = module.nodes.get_mut(index)
            && is_marked(reached, index)
            && !is_whole
            && matches!(node.form, TypeForm::Reference)
            && node.item.text == name
        {
            node.form = TypeForm::Simple(instead);
        }
    }
}

// The types that are not ready, and that are parts of the type with this index, or of its parts.
fn reached_from(
    alloc: Global,
    module: &Module<'_>,
    ready: &Vec<bool>,
    index: usize,
) -> Result<Vec<bool>, AllocError> {
    let mut reached = vec![in alloc; false; module.nodes.len()]?;
    let mut open = vec![in alloc; index]?;
    for at in 0..module.nodes.len() {
        let Some(next) = open.get(at) else {
            break;
        };
        let next = *next;
        for part in parts_of(alloc, module, next)?.iter() {
            if !is_marked(ready, *part) && !is_marked(&reached, *part) {
                mark(&mut reached, *part);
                open.push(*part)?;
            }
        }
    }
    Ok(reached)
}

// The types that the type with this index is made of.
fn parts_of(alloc: Global, module: &Module<'_>, index: usize) -> Result<Vec<usize>, AllocError> {
    let mut parts = Vec::new(alloc);
    let Some(node) = module.nodes.get(index) else {
        return Ok(parts);
    };
    if let Some(of) = contained(node) {
        parts.push(of)?;
    }
    match &node.form {
        TypeForm::Reference => {
            if let Some(of) = find_type(module, node.item.text) {
                parts.push(of)?;
            }
        }
        TypeForm::Sequence(components) | TypeForm::Set(components) | TypeForm::Choice(components) =>
            add_components(&mut parts, components)?,
        TypeForm::SequenceOf(of) | TypeForm::SetOf(of) | TypeForm::Tagged(_, of) => {
            parts.push(*of)?;
        }
        _ => {}
    }
    Ok(parts)
}

fn add_components(
    parts: &mut Vec<usize>,
    components: &Vec<Component<'_>>,
) -> Result<(), AllocError> {
    for component in components.iter() {
        parts.push(component.of)?;
    }
    Ok(())
}

/// The name that [`cut_recursion`] has replaced in a component. `index` is the index of the
/// component's type. The name may also be the item type of a SEQUENCE OF or SET OF, or come after a
/// tag. `None` if no name was replaced.
pub fn recursive_name<'a>(module: &Module<'a>, index: usize) -> Option<&'a str> {
    let mut index = index;
    for _ in module.nodes.iter() {
        let node = module.nodes.get(index)?;
        match &node.form {
            TypeForm::SequenceOf(of) | TypeForm::SetOf(of) | TypeForm::Tagged(_, of) => {
                index = *of;
            }
            TypeForm::Simple(SimpleType::Any | SimpleType::Unread) => {
                let name = node.item.text;
                return match find_type(module, name) {
                    Some(_) => Some(name),
                    None => None,
                };
            }
            _ => return None,
        }
    }
    None
}
