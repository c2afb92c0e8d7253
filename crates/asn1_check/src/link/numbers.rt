//! Names that stand for numbers.

use super::enumerations::numbered_items;
use super::scope::Scope;
use crate::base::base_form;
use crate::module::Module;
use asn1_syntax::{
    Constraint, Endpoint, Failure, Item, NamedNumber, Range, Refusal, TypeForm, TypeNode,
};
use std::alloc::Global;

/// Replaces names by the numbers for which they stand, in named numbers and in constraints. Fails
/// if a name is not defined, or does not stand for a number.
pub fn resolve_numbers<'a>(alloc: Global, module: &mut Module<'a>) -> Result<(), Failure<'a>> {
    for index in 0..module.nodes.len() {
        let Some((form, constraints)) = resolved(alloc, module, index)? else {
            continue;
        };
        if let Some(node) = module.nodes.get_mut(index) {
            node.constraints = constraints;
            if let Some(form) = form {
                node.form = form;
            }
        }
    }
    Ok(())
}

// The constraints of a type without names, and how it is made if that has numbers.
fn resolved<'a>(
    alloc: Global,
    module: &Module<'a>,
    index: usize,
) -> Result<Option<(Option<TypeForm<'a>>, Vec<Constraint<'a>>)>, Failure<'a>> {
    let scope = Scope {
        module,
        known: &module.constants,
    };
    let Some(node) = module.nodes.get(index) else {
        return Ok(None);
    };
    let form = resolved_form(alloc, &scope, node)?;
    let constraints = resolved_constraints(alloc, &scope, index, &node.constraints)?;
    Ok(Some((form, constraints)))
}

fn resolved_form<'a>(
    alloc: Global,
    scope: &Scope<'_, 'a>,
    node: &TypeNode<'a>,
) -> Result<Option<TypeForm<'a>>, Failure<'a>> {
    match &node.form {
        TypeForm::Integer(numbers) => {
            Ok(Some(TypeForm::Integer(resolved_numbers(alloc, scope, numbers)?)))
        }
        TypeForm::Enumerated(numbers) => {
            let written = resolved_numbers(alloc, scope, numbers)?;
            Ok(Some(TypeForm::Enumerated(numbered_items(alloc, &written)?)))
        }
        TypeForm::BitString(numbers) => {
            Ok(Some(TypeForm::BitString(resolved_numbers(alloc, scope, numbers)?)))
        }
        _ => Ok(None),
    }
}

fn resolved_numbers<'a>(
    alloc: Global,
    scope: &Scope<'_, 'a>,
    numbers: &Vec<NamedNumber<'a>>,
) -> Result<Vec<NamedNumber<'a>>, Failure<'a>> {
    let mut found = Vec::new(alloc);
    for named in numbers.iter() {
        let number = match named.number {
            Some(Endpoint::Name(name)) => scope.value_number(name)?,
            number => number,
        };
        found.push(NamedNumber {
            name: named.name,
            number,
            is_addition: named.is_addition,
        })?;
    }
    Ok(found)
}

fn resolved_constraints<'a>(
    alloc: Global,
    scope: &Scope<'_, 'a>,
    index: usize,
    constraints: &Vec<Constraint<'a>>,
) -> Result<Vec<Constraint<'a>>, Failure<'a>> {
    let mut found = Vec::new(alloc);
    for constraint in constraints.iter() {
        found.push(match *constraint {
            Constraint::Range(range) => Constraint::Range(resolved_range(scope, index, range)?),
            Constraint::Size(size) => Constraint::Size(resolved_range(scope, usize::MAX, size)?),
            Constraint::Containing(of) => Constraint::Containing(of),
            Constraint::Table(number) => Constraint::Table(number),
            Constraint::Unread(item) => Constraint::Unread(item),
        })?;
    }
    Ok(found)
}

fn resolved_range<'a>(
    scope: &Scope<'_, 'a>,
    index: usize,
    range: Range<'a>,
) -> Result<Range<'a>, Refusal<'a>> {
    Ok(Range {
        low: resolved_endpoint(scope, index, range.low)?,
        high: resolved_endpoint(scope, index, range.high)?,
        ..range
    })
}

// A name of another value than a number stays: it may be a value of the type.
fn resolved_endpoint<'a>(
    scope: &Scope<'_, 'a>,
    index: usize,
    endpoint: Endpoint<'a>,
) -> Result<Endpoint<'a>, Refusal<'a>> {
    let Endpoint::Name(name) = endpoint else {
        return Ok(endpoint);
    };
    let found = match base_form(scope.module, index) {
        Some(TypeForm::Integer(numbers)) => scope.number_named(numbers, name)?,
        Some(TypeForm::Enumerated(numbers)) if is_named(numbers, name.text) => None,
        _ => named_value(scope, name)?,
    };
    match found {
        Some(number) => Ok(number),
        None => Ok(endpoint),
    }
}

/// Whether one of these numbers has this name.
pub fn is_named(numbers: &Vec<NamedNumber<'_>>, name: &str) -> bool {
    for named in numbers.iter() {
        if named.name.text == name {
            return true;
        }
    }
    false
}

// The number that the value with this name is; `None` if it is another value.
fn named_value<'a>(
    scope: &Scope<'_, 'a>,
    name: Item<'a>,
) -> Result<Option<Endpoint<'a>>, Refusal<'a>> {
    match scope.find(name)? {
        Some(constant) => Ok(constant.number()),
        None => Ok(None),
    }
}
