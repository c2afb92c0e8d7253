//! Named numbers and limits of types.

use crate::limits::{ends_of, known_number};
use crate::rows::{Rows, span_from};
use crate::wanted::Wanted;
use asn1_syntax::{NamedNumber, Range, TypeForm, TypeNode};
use schema_types::{LimitKind, Name, Span};
use std::alloc::AllocError;

/// The lowest and the highest number or size that the constraints of a type allow. `None` if the
/// constraints allow all numbers and sizes.
pub fn limit_of(wanted: &Wanted<'_>, node: &TypeNode<'_>) -> Option<(i64, i64)> {
    match (&node.form, wanted.limits.value, wanted.limits.size) {
        (TypeForm::Integer(names) | TypeForm::Enumerated(names), Some(range), _) => {
            ends_of(&range, names)
        }
        (TypeForm::Integer(_) | TypeForm::Enumerated(_), None, _) => None,
        (TypeForm::BitString(names), _, Some(range)) => ends_of(&range, names),
        (_, _, Some(range)) => range_ends(&range),
        _ => None,
    }
}

// The ends of a range without names.
fn range_ends(range: &Range<'_>) -> Option<(i64, i64)> {
    let low = known_number(range.low)?;
    let high = known_number(range.high)?;
    if low == i64::MIN && high == i64::MAX {
        return None;
    }
    Some((low, high))
}

/// Adds rows for the named numbers, the named bits or the items of a type. Returns the range of
/// these rows.
pub fn names_of<'a>(rows: &mut Rows<'a>, node: &TypeNode<'a>) -> Result<Span, AllocError> {
    let start = rows.names.len();
    match &node.form {
        TypeForm::Integer(names) | TypeForm::BitString(names) | TypeForm::Enumerated(names) => {
            add_names(rows, names)?;
        }
        _ => {}
    }
    Ok(span_from(start, rows.names.len().saturating_sub(start)))
}

fn add_names<'a>(rows: &mut Rows<'a>, names: &Vec<NamedNumber<'a>>) -> Result<(), AllocError> {
    for named in names.iter() {
        if let Some(end) = named.number
            && let Some(number) = known_number(end)
        {
            let name = rows.text(named.name.text)?;
            rows.names.push(Name { number, name })?;
        }
    }
    Ok(())
}

/// Adds a row for the limits of a type, if the type has limits. Returns the range with this row;
/// the range is empty if the type has none.
pub fn limits_of<'a>(
    rows: &mut Rows<'a>,
    wanted: &Wanted<'a>,
    node: &TypeNode<'a>,
) -> Result<Span, AllocError> {
    let start = rows.limits.len();
    let kind = match &node.form {
        TypeForm::Integer(_) | TypeForm::Enumerated(_) => LimitKind::Value,
        _ => LimitKind::Size,
    };
    rows.add_limit(kind, limit_of(wanted, node))?;
    Ok(span_from(start, rows.limits.len().saturating_sub(start)))
}
