//! Numbers of the items of an ENUMERATED.

use asn1_syntax::{Endpoint, Failure, NamedNumber, Refusal};
use std::alloc::{AllocError, Global};
use std::collections::HashSet;

/// Gives a number to each item of an ENUMERATED that is written without one:
///
/// - An item before the extension marker gets the least number that no item before the marker has
///   (X.680, 20.3). Numbers begin at 0.
/// - An addition, which is an item after the marker, gets the least number that is above the
///   numbers of all additions before it, and that no item before the marker has (20.6).
///
/// Fails if an addition is written with a number that is not above the numbers of the additions
/// before it.
pub fn numbered_items<'a>(
    alloc: Global,
    items: &Vec<NamedNumber<'a>>,
) -> Result<Vec<NamedNumber<'a>>, Failure<'a>> {
    let mut roots = root_numbers(alloc, items)?;
    let mut found = Vec::new(alloc);
    let mut next = 0u64;
    for item in items.iter() {
        let number = match item.number {
            _ if item.is_addition => addition_number(&found, &roots, item)?,
            Some(number) => number,
            None => {
                let free = free_number(&roots, next);
                next = free.saturating_add(1);
                roots.insert(free)?;
                Endpoint::Number(free)
            }
        };
        found.push(NamedNumber {
            number: Some(number),
            ..*item
        })?;
    }
    Ok(found)
}

// The numbers, if they are 0 or more, that items in front of an extension mark are written with.
fn root_numbers(alloc: Global, items: &Vec<NamedNumber<'_>>) -> Result<HashSet<u64>, AllocError> {
    let mut numbers = HashSet::new(alloc);
    for item in items.iter() {
        match item.number {
            Some(Endpoint::Number(number)) if !item.is_addition => {
                numbers.insert(number)?;
            }
            Some(Endpoint::Negative(0)) if !item.is_addition => {
                numbers.insert(0)?;
            }
            _ => {}
        }
    }
    Ok(numbers)
}

// The number of an addition after these items, of which those in front of the mark have these
// numbers.
fn addition_number<'a>(
    before: &Vec<NamedNumber<'a>>,
    roots: &HashSet<u64>,
    item: &NamedNumber<'a>,
) -> Result<Endpoint<'a>, Refusal<'a>> {
    let last = last_addition(before);
    let Some(number) = item.number else {
        return Ok(Endpoint::Number(free_number(roots, number_after(last))));
    };
    match last {
        Some(last) if number.is_at_most(last) => {
            let expected = "a number above those of the additions in front";
            Err(Refusal::of(item.name, expected))
        }
        _ => Ok(number),
    }
}

// The number of the last one of these items, if that is an addition.
fn last_addition<'a>(items: &Vec<NamedNumber<'a>>) -> Option<Endpoint<'a>> {
    let last = items.last()?;
    if last.is_addition { last.number } else { None }
}

// The least number from 0 up that is above this one.
fn number_after(number: Option<Endpoint<'_>>) -> u64 {
    match number {
        Some(Endpoint::Number(number)) => number.saturating_add(1),
        _ => 0,
    }
}

// The least number from `from` on that is none of these.
fn free_number(numbers: &HashSet<u64>, from: u64) -> u64 {
    let mut number = from;
    for _ in 0..numbers.len() {
        if !numbers.contains(&number) {
            break;
        }
        number = number.saturating_add(1);
    }
    number
}
