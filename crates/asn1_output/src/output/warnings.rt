//! Warnings about what the Rust types of a module do not check or leave out.

use super::directive::own_type;
use super::kept::is_kept;
use super::numbers::{is_enumeration, is_open};
use super::renamed::add_renamed;
use super::tagged::is_checked;
use super::values::is_written;
use super::written::Written;
use asn1_check::{Module, RustKind, base_form, range_at};
use asn1_syntax::{Constraint, Endpoint, Item, LeftOut, Range, TypeForm, TypeNode, Warning};
use std::alloc::{AllocError, Global};

const SIZE: &str = "this size is not checked";

const RANGE: &str = "this range is not checked";

const VALUE: &str = "this value is not checked";

const UNREAD: &str = "this constraint is not checked";

const CONTENTS: &str = "the contents are octets, since their type has no tag of its own";

const NUMBERS: &str = "an enum has no items below 0 or above 4294967295: any number is accepted";

const CLOSED: &str = "numbers that no item has are refused";

const CLOSED_SEQUENCE: &str = "elements that no component names are refused";

const CLOSED_CHOICE: &str = "tags that no alternative has are refused";

const NOT_WRITTEN: &str =
    "this value is left out, since it is no INTEGER, BOOLEAN or OBJECT IDENTIFIER";

/// The warnings about a module, sorted by their offsets in the text. `left_out` are the assignments
/// that are not compiled.
pub fn warnings_of<'a>(
    alloc: Global,
    written: &Written<'_, 'a>,
    left_out: &Vec<LeftOut<'a>>,
) -> Result<Vec<Warning<'a>>, AllocError> {
    let mut found = marks_of(alloc, written.module)?;
    add_left_out(alloc, &mut found, left_out)?;
    for (index, node) in written.module.nodes.iter().enumerate() {
        // a type that is written by hand checks what its author wants
        if own_type(written.module, index).is_none() {
            add_node(alloc, written, &mut found, index, node)?;
        }
    }
    add_values(alloc, written.module, &mut found)?;
    add_renamed(alloc, written, &mut found)?;
    found.sort_by_key(|warning| warning.offset)?;
    Ok(found)
}

// The warnings of the parser.
fn marks_of<'a>(alloc: Global, module: &Module<'a>) -> Result<Vec<Warning<'a>>, AllocError> {
    let mut found = Vec::new(alloc);
    for mark in module.warnings.iter() {
        let text = mark.text.as_str();
        add(alloc, &mut found, mark.offset, mark.found, text)?;
    }
    Ok(found)
}

// Adds the warnings of assignments that are left out.
fn add_left_out<'a>(
    alloc: Global,
    found: &mut Vec<Warning<'a>>,
    left_out: &Vec<LeftOut<'a>>,
) -> Result<(), AllocError> {
    for of in left_out.iter() {
        let (name, expected) = (of.name.text, of.refusal.expected);
        let text = format!(in alloc; "{name} is left out: expected {expected}")?;
        add(
            alloc,
            found,
            of.refusal.offset,
            of.refusal.found,
            text.as_str(),
        )?;
    }
    Ok(())
}

/// Adds a warning about a lexical item.
pub fn add_item<'a>(
    alloc: Global,
    found: &mut Vec<Warning<'a>>,
    item: Item<'a>,
    text: &str,
) -> Result<(), AllocError> {
    add(alloc, found, item.offset, item.text, text)
}

// Adds a warning.
fn add<'a>(
    alloc: Global,
    found: &mut Vec<Warning<'a>>,
    offset: usize,
    item: &'a str,
    text: &str,
) -> Result<(), AllocError> {
    Ok(found.push(Warning {
        offset,
        found: item,
        text: String::from_str(alloc, text)?,
    })?)
}

// Adds the warnings of a type.
fn add_node<'a>(
    alloc: Global,
    written: &Written<'_, 'a>,
    found: &mut Vec<Warning<'a>>,
    index: usize,
    node: &TypeNode<'a>,
) -> Result<(), AllocError> {
    if let TypeForm::Enumerated(_) = &node.form
        && !is_enumeration(written.module, index)
    {
        add_item(alloc, found, node.item, NUMBERS)?;
    } else if let Some(mark) = node.mark
        && !is_open(written.module, index)
        && !is_kept(written.kept, index)
    {
        add_item(alloc, found, mark.item, closed_text(&node.form))?;
    }
    for constraint in node.constraints.iter() {
        match constraint {
            Constraint::Size(size) => add_item(alloc, found, size.item, SIZE)?,
            Constraint::Containing(of) if !is_element(written, *of) => {
                add_item(alloc, found, node.item, CONTENTS)?;
            }
            Constraint::Containing(_) => {}
            Constraint::Table(_) => add_item(alloc, found, node.item, UNREAD)?,
            Constraint::Unread(item) => add_item(alloc, found, *item, UNREAD)?,
            Constraint::Range(range) => {
                add_range(alloc, written.module, found, index, range)?;
            }
        }
    }
    Ok(())
}

// What a type with an extension mark refuses.
fn closed_text(form: &TypeForm<'_>) -> &'static str {
    match form {
        TypeForm::Sequence(_) => CLOSED_SEQUENCE,
        TypeForm::Choice(_) => CLOSED_CHOICE,
        _ => CLOSED,
    }
}

fn is_element(written: &Written<'_, '_>, index: usize) -> bool {
    match written.types.get(index) {
        Some(found) => found.kind == RustKind::Element,
        None => false,
    }
}

// Adds the warning of a range that decoding does not check.
fn add_range<'a>(
    alloc: Global,
    module: &Module<'a>,
    found: &mut Vec<Warning<'a>>,
    index: usize,
    range: &Range<'a>,
) -> Result<(), AllocError> {
    let Some(TypeForm::Integer(_)) = base_form(module, index) else {
        return add_item(alloc, found, range.item, VALUE);
    };
    if is_unlimited(&range_at(module, index)) || is_checked(module, index) {
        return Ok(());
    }
    add_item(alloc, found, range.item, RANGE)
}

// Whether a range has all numbers.
fn is_unlimited(range: &Range<'_>) -> bool {
    matches!((range.low, range.high), (Endpoint::Min, Endpoint::Max))
}

// Adds the warnings of values that are not written.
fn add_values<'a>(
    alloc: Global,
    module: &Module<'a>,
    found: &mut Vec<Warning<'a>>,
) -> Result<(), AllocError> {
    for assigned in module.values.iter() {
        if !is_written(module, assigned) {
            add_item(alloc, found, assigned.name, NOT_WRITTEN)?;
        }
    }
    Ok(())
}
