//! Warnings about names that are changed in Rust, because they would be equal to others.

use super::directive::{field_name, variant_name};
use super::enumeration::variant_names;
use super::fields::field_names;
use super::naming::{is_assigned, is_written, plain_names_of, text_at};
use super::rust_names::snake_name;
use super::values::value_names;
use super::warnings::add_item;
use super::written::Written;
use asn1_syntax::{Component, Item, NamedNumber, TypeForm, Warning};
use std::alloc::{AllocError, Global};

/// Adds a warning to `found` for each name that gets a number or a `_` at its end in Rust.
pub fn add_renamed<'a>(
    alloc: Global,
    written: &Written<'_, 'a>,
    found: &mut Vec<Warning<'a>>,
) -> Result<(), AllocError> {
    add_types(alloc, written, found)?;
    add_values(alloc, written, found)?;
    for node in written.module.nodes.iter() {
        match &node.form {
            TypeForm::Sequence(components) => add_fields(alloc, found, components)?,
            TypeForm::Enumerated(items) => add_items(alloc, found, items)?,
            _ => {}
        }
    }
    Ok(())
}

// Adds the warning that a name is another one in Rust, unless it is this one.
fn add_name<'a>(
    alloc: Global,
    found: &mut Vec<Warning<'a>>,
    item: Item<'a>,
    name: &str,
    plain: &str,
) -> Result<(), AllocError> {
    if name.is_empty() || name == plain {
        return Ok(());
    }
    let text = format!(in alloc; "the name is `{name}` in Rust")?;
    add_item(alloc, found, item, text.as_str())
}

fn add_types<'a>(
    alloc: Global,
    written: &Written<'_, 'a>,
    found: &mut Vec<Warning<'a>>,
) -> Result<(), AllocError> {
    let module = written.module;
    let plain = plain_names_of(alloc, module)?;
    for assigned in module.types.iter() {
        let name = text_at(written.names, assigned.of);
        add_name(
            alloc,
            found,
            assigned.name,
            name,
            text_at(&plain, assigned.of),
        )?;
    }
    add_parts(alloc, written, &plain, found)
}

// Adds the warnings of types that have no name in the module.
fn add_parts<'a>(
    alloc: Global,
    written: &Written<'_, 'a>,
    plain: &Vec<String>,
    found: &mut Vec<Warning<'a>>,
) -> Result<(), AllocError> {
    let module = written.module;
    for (index, node) in module.nodes.iter().enumerate() {
        if is_written(module, index) && !is_assigned(module, index) {
            let name = text_at(written.names, index);
            add_name(alloc, found, node.item, name, text_at(plain, index))?;
        }
    }
    Ok(())
}

fn add_values<'a>(
    alloc: Global,
    written: &Written<'_, 'a>,
    found: &mut Vec<Warning<'a>>,
) -> Result<(), AllocError> {
    let names = value_names(alloc, written.module)?;
    for (assigned, name) in written.module.values.iter().zip(names.iter()) {
        let plain = snake_name(alloc, assigned.name.text)?;
        add_name(alloc, found, assigned.name, name.as_str(), plain.as_str())?;
    }
    Ok(())
}

fn add_fields<'a>(
    alloc: Global,
    found: &mut Vec<Warning<'a>>,
    components: &Vec<Component<'a>>,
) -> Result<(), AllocError> {
    let names = field_names(alloc, components)?;
    for (component, name) in components.iter().zip(names.iter()) {
        let plain = field_name(alloc, component.name)?;
        add_name(alloc, found, component.name, name.as_str(), plain.as_str())?;
    }
    Ok(())
}

fn add_items<'a>(
    alloc: Global,
    found: &mut Vec<Warning<'a>>,
    items: &Vec<NamedNumber<'a>>,
) -> Result<(), AllocError> {
    let names = variant_names(alloc, items)?;
    for (item, name) in items.iter().zip(names.iter()) {
        let plain = variant_name(alloc, item.name)?;
        add_name(alloc, found, item.name, name.as_str(), plain.as_str())?;
    }
    Ok(())
}
