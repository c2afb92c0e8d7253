//! Arcs of OBJECT IDENTIFIERs.

use super::scope::Scope;
use crate::constant::Constant;
use asn1_syntax::{Endpoint, Failure, Item, ItemKind, Refusal};
use std::alloc::Global;

const NO_ARC: &str = "a number, or a name that stands for one";

const TOO_LARGE: &str = "an arc below 18446744073709551616";

/// The arcs of an OBJECT IDENTIFIER (X.680, 32.3). `items` are the lexical items between its
/// braces, and `brace` is the opening brace. `None` if one of the items is the name of a value that
/// is not computed yet.
pub fn arcs_of<'a>(
    alloc: Global,
    scope: &Scope<'_, 'a>,
    brace: Item<'a>,
    items: &Vec<Item<'a>>,
) -> Result<Option<Vec<u64>>, Failure<'a>> {
    let mut arcs = Vec::new(alloc);
    let mut at = 0usize;
    for _ in 0..items.len() {
        if at >= items.len() {
            break;
        }
        match add_component(scope, items, at, &mut arcs)? {
            Some(end) => at = end,
            None => return Ok(None),
        }
    }
    if arcs.len() < 2 {
        let refusal = Refusal::of(brace, "an OBJECT IDENTIFIER of two arcs or more");
        return Err(Failure::Refused(refusal));
    }
    Ok(Some(arcs))
}

fn item_at<'a>(items: &Vec<Item<'a>>, at: usize) -> Item<'a> {
    match items.get(at) {
        Some(item) => *item,
        None => Item::END,
    }
}

// Adds the arcs of the component at this index, and returns the index after it; `None` if it has a
// name that is not known yet.
fn add_component<'a>(
    scope: &Scope<'_, 'a>,
    items: &Vec<Item<'a>>,
    at: usize,
    arcs: &mut Vec<u64>,
) -> Result<Option<usize>, Failure<'a>> {
    let item = item_at(items, at);
    if item.kind == ItemKind::LowerName && item_at(items, at.saturating_add(1)).is("(") {
        let number = number_after(items, at, item)?;
        let Some(arc) = number_of(scope, number)? else {
            return Ok(None);
        };
        check_standard(item, number, arc, arcs)?;
        add_arc(arcs, number, arc)?;
        return Ok(Some(at.saturating_add(4)));
    }
    if item.kind == ItemKind::LowerName && standard_arc(item.text, arcs).is_none() {
        if !add_named(scope, item, arcs)? {
            return Ok(None);
        }
        return Ok(Some(at.saturating_add(1)));
    }
    let arc = match standard_arc(item.text, arcs) {
        Some(arc) => arc,
        None => written_arc(item)?,
    };
    add_arc(arcs, item, arc)?;
    Ok(Some(at.saturating_add(1)))
}

// Checks that a name which stands for a number has no other number after it.
fn check_standard<'a>(
    name: Item<'a>,
    number: Item<'a>,
    arc: u64,
    arcs: &Vec<u64>,
) -> Result<(), Refusal<'a>> {
    match standard_arc(name.text, arcs) {
        Some(standard) if standard != arc => {
            Err(Refusal::of(number, "the number for which the name in front stands"))
        }
        _ => Ok(()),
    }
}

// The item in parentheses after the name at this index.
fn number_after<'a>(
    items: &Vec<Item<'a>>,
    at: usize,
    name: Item<'a>,
) -> Result<Item<'a>, Refusal<'a>> {
    let number = item_at(items, at.saturating_add(2));
    if !item_at(items, at.saturating_add(3)).is(")") {
        return Err(Refusal::of(name, "a name with one number in parentheses after it"));
    }
    Ok(number)
}

// Adds the arcs of the value with this name; whether it is known.
fn add_named<'a>(
    scope: &Scope<'_, 'a>,
    name: Item<'a>,
    arcs: &mut Vec<u64>,
) -> Result<bool, Failure<'a>> {
    let Some(constant) = scope.find(name)? else {
        return Ok(false);
    };
    match constant {
        Constant::ObjectIdentifier(first) if arcs.is_empty() => {
            for arc in first.iter() {
                arcs.push(*arc)?;
            }
        }
        Constant::Number(arc) => add_arc(arcs, name, *arc)?,
        _ => return Err(Failure::Refused(Refusal::of(name, NO_ARC))),
    }
    Ok(true)
}

// The number in parentheses; `None` if it is the name of a value that is not known yet.
fn number_of<'a>(scope: &Scope<'_, 'a>, item: Item<'a>) -> Result<Option<u64>, Refusal<'a>> {
    if item.kind != ItemKind::LowerName {
        return Ok(Some(written_arc(item)?));
    }
    match scope.value_number(item)? {
        Some(Endpoint::Number(arc)) => Ok(Some(arc)),
        None => Ok(None),
        _ => Err(Refusal::of(item, NO_ARC)),
    }
}

fn written_arc<'a>(item: Item<'a>) -> Result<u64, Refusal<'a>> {
    if item.kind != ItemKind::Number {
        return Err(Refusal::of(item, NO_ARC));
    }
    match item.text.parse::<u64>() {
        Ok(arc) => Ok(arc),
        Err(_) => Err(Refusal::of(item, TOO_LARGE)),
    }
}

// Adds an arc. The first one is 0, 1 or 2, and the one after 0 or 1 is below 40 (X.690, 8.19.4).
fn add_arc<'a>(arcs: &mut Vec<u64>, item: Item<'a>, arc: u64) -> Result<(), Failure<'a>> {
    if arcs.is_empty() && arc > 2 {
        return Err(Failure::Refused(Refusal::of(item, "0, 1 or 2 as the first arc")));
    }
    if arcs.len() == 1 && arc > 39 && arcs.first() != Some(&2) {
        let refusal = Refusal::of(item, "a second arc below 40, since the first one is 0 or 1");
        return Err(Failure::Refused(refusal));
    }
    arcs.push(arc)?;
    Ok(())
}

// The number of a name that is without one, after these arcs (X.660, A.2 to A.4).
fn standard_arc(name: &str, arcs: &Vec<u64>) -> Option<u64> {
    match (arcs.as_slice(), name) {
        ([], "itu-t" | "ccitt") => Some(0),
        ([], "iso") => Some(1),
        ([], "joint-iso-itu-t" | "joint-iso-ccitt") => Some(2),
        ([0], "recommendation") => Some(0),
        ([0], "question") => Some(1),
        ([0], "administration") => Some(2),
        ([0], "network-operator") => Some(3),
        ([0], "identified-organization") => Some(4),
        ([1], "standard") => Some(0),
        ([1], "registration-authority") => Some(1),
        ([1], "member-body") => Some(2),
        ([1], "identified-organization") => Some(3),
        _ => None,
    }
}
