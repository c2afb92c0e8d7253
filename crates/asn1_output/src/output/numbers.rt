//! INTEGERs with bounds, and ENUMERATEDs.

use super::directive::is_closed_by;
use asn1_check::{Module, range_at};
use asn1_syntax::{Endpoint, NamedNumber, TypeForm};

/// The Rust type of an ENUMERATED that keeps the numbers of unknown items.
pub const OPEN: &str = "EnumeratedOf<i64>";

/// The lowest and the highest number that the type with this index allows. `None` if there is no
/// such bound on one side, or if a bound is below 0.
pub fn bounds(module: &Module<'_>, index: usize) -> Option<(u64, u64)> {
    range_at(module, index).numbers()
}

/// Whether the type with this index becomes a Rust enum. This is true for an ENUMERATED whose
/// numbers are all from 0 to 4294967295, and for an INTEGER whose bounds allow exactly its named
/// numbers.
pub fn is_enumeration(module: &Module<'_>, index: usize) -> bool {
    match module.nodes.get(index) {
        Some(node) => match &node.form {
            TypeForm::Enumerated(items) => are_small(items),
            TypeForm::Integer(numbers) => is_closed(module, index, numbers),
            _ => false,
        },
        None => false,
    }
}

/// Whether the bounds of the INTEGER with this index allow exactly its named numbers.
pub fn is_closed(module: &Module<'_>, index: usize, numbers: &Vec<NamedNumber<'_>>) -> bool {
    let Some((low, high)) = bounds(module, index) else {
        return false;
    };
    if numbers.is_empty() || high < low || high >= 4294967296 {
        return false;
    }
    high - low == numbers.len() as u64 - 1 && are_within(numbers, low, high)
}

/// Whether the ENUMERATED with this index keeps the numbers of unknown items. This is true if it
/// has an extension marker, unless there is a comment `Rust extensions: refused`.
pub fn is_open(module: &Module<'_>, index: usize) -> bool {
    match module.nodes.get(index) {
        Some(node) => {
            node.mark.is_some() && is_enumeration(module, index) && !is_closed_by(module, index)
        }
        None => false,
    }
}

/// Whether all items have numbers from 0 to 4294967295. The items of a Rust enum must have such
/// numbers.
pub fn are_small(items: &Vec<NamedNumber<'_>>) -> bool {
    are_within(items, 0, 4294967295)
}

fn are_within(numbers: &Vec<NamedNumber<'_>>, low: u64, high: u64) -> bool {
    for named in numbers.iter() {
        if !is_within(named.number, low, high) {
            return false;
        }
    }
    true
}

fn is_within(number: Option<Endpoint<'_>>, low: u64, high: u64) -> bool {
    match number {
        Some(Endpoint::Number(number)) => low <= number && number <= high,
        _ => false,
    }
}
