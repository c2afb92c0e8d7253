//! The numbers and sizes that a type allows.

use asn1_syntax::{Constraint, Endpoint, NamedNumber, Range, TypeNode};

/// The limits that constraints set for the values of a type.
#[derive(Clone, Copy)]
pub struct Limits<'a> {
    /// The range of numbers that are allowed; `None` if no constraint limits them.
    pub value: Option<Range<'a>>,
    /// The range of sizes that are allowed, in octets, bits, characters or items; `None` if no
    /// constraint limits the size.
    pub size: Option<Range<'a>>,
}

impl<'a> Limits<'a> {
    /// No limits.
    pub const NONE: Limits<'static> = Limits {
        value: None,
        size: None,
    };

    /// Adds the limits that the constraints of `node` set. Both these and the present limits must
    /// hold. The present limits must come from constraints that are written after the type `node`
    /// (X.680, 50.8).
    pub fn after(self, node: &TypeNode<'a>) -> Self {
        let mut found = self;
        for constraint in node.constraints.iter().rev() {
            match constraint {
                Constraint::Range(range) => found.value = Some(both(found.value, *range)),
                Constraint::Size(range) => found.size = Some(both(found.size, *range)),
                _ => {}
            }
        }
        found
    }
}

// The numbers of a range that are in those after it. An extension mark after the last one allows all
// numbers.
fn both<'a>(after: Option<Range<'a>>, range: Range<'a>) -> Range<'a> {
    match after {
        Some(after) => after.and(range),
        None if range.is_extensible => Range::ALL,
        None => range,
    }
}

/// The lowest and the highest number of a range. An end of the range may be one of the `names`.
/// `None` if the range allows all numbers, or if an end is a name that is not among `names`.
pub fn ends_of(range: &Range<'_>, names: &Vec<NamedNumber<'_>>) -> Option<(i64, i64)> {
    let low = number_of(range.low, names)?;
    let high = number_of(range.high, names)?;
    if low == i64::MIN && high == i64::MAX {
        return None;
    }
    Some((low, high))
}

// The number of an end; the nearest one for a number of more bits.
fn number_of(end: Endpoint<'_>, names: &Vec<NamedNumber<'_>>) -> Option<i64> {
    match end {
        Endpoint::Name(name) => {
            for named in names.iter() {
                if named.name.text == name.text {
                    return known_number(named.number?);
                }
            }
            None
        }
        end => known_number(end),
    }
}

/// The number of one end of a range. For a number outside of `i64`, it is the nearest `i64`. `None`
/// if the end is a name.
pub fn known_number(end: Endpoint<'_>) -> Option<i64> {
    match end {
        Endpoint::Min => Some(i64::MIN),
        Endpoint::Max => Some(i64::MAX),
        Endpoint::Number(number) => Some(i64::try_from(number).unwrap_or(i64::MAX)),
        Endpoint::Negative(number) => match i64::try_from(number) {
            Ok(number) => Some(0i64.saturating_sub(number)),
            Err(_) => Some(i64::MIN),
        },
        Endpoint::Name(_) => None,
    }
}
