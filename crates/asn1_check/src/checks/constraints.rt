//! Checks that constraints fit their types.

use crate::base::base_form;
use crate::bounds::range_at;
use crate::module::Module;
use asn1_syntax::{Constraint, Endpoint, Range, Refusal, SimpleType, TypeForm, TypeNode};

/// Checks that the type of each constraint allows a constraint of its kind (X.680, 51; X.682, 11).
/// Also checks that all ranges of a type have at least one number in common.
pub fn check_constraints<'a>(module: &Module<'a>) -> Result<(), Refusal<'a>> {
    for (index, node) in module.nodes.iter().enumerate() {
        check_node(module, index, node)?;
    }
    Ok(())
}

fn check_node<'a>(
    module: &Module<'a>,
    index: usize,
    node: &TypeNode<'a>,
) -> Result<(), Refusal<'a>> {
    let Some(form) = base_form(module, index) else {
        return Ok(());
    };
    for constraint in node.constraints.iter().rev() {
        match constraint {
            Constraint::Range(range) => check_range(module, index, form, range)?,
            Constraint::Size(size) => check_size(form, size)?,
            Constraint::Containing(_) if has_contents(form) => {}
            Constraint::Unread(_) | Constraint::Table(_) => {}
            Constraint::Containing(_) => {
                return Err(Refusal::of(
                    node.item,
                    "an OCTET STRING or BIT STRING in front of CONTAINING",
                ));
            }
        }
    }
    Ok(())
}

fn check_range<'a>(
    module: &Module<'a>,
    index: usize,
    form: &TypeForm<'a>,
    range: &Range<'a>,
) -> Result<(), Refusal<'a>> {
    match form {
        TypeForm::Simple(SimpleType::Any | SimpleType::Unknown(_)) => Ok(()),
        TypeForm::Integer(_) if range.is_empty() => Err(Refusal::of(range.item, NOT_ASCENDING)),
        TypeForm::Integer(_) if range_at(module, index).is_empty() => {
            Err(Refusal::of(
                range.item,
                "a range with a number of the type in front of it",
            ))
        }
        TypeForm::Integer(_) => Ok(()),
        _ if is_named_value(range) => Ok(()),
        _ => Err(Refusal::of(range.item, "a constraint for values of this type")),
    }
}

const NOT_ASCENDING: &str = "a first end that is not above the second one";

// Whether a constraint is one value with a name.
fn is_named_value(range: &Range<'_>) -> bool {
    match (range.low, range.high) {
        (Endpoint::Name(low), Endpoint::Name(high)) => low.offset == high.offset,
        _ => false,
    }
}

fn check_size<'a>(form: &TypeForm<'a>, size: &Range<'a>) -> Result<(), Refusal<'a>> {
    if !has_size(form) {
        return Err(Refusal::of(size.item, "no SIZE, since values of this type have none"));
    }
    if is_no_size(size.low) || is_no_size(size.high) {
        return Err(Refusal::of(size.item, "a size that is 0 or more"));
    }
    if size.is_empty() {
        return Err(Refusal::of(size.item, NOT_ASCENDING));
    }
    Ok(())
}

fn is_no_size(end: Endpoint<'_>) -> bool {
    match end {
        Endpoint::Negative(number) => number > 0,
        Endpoint::Name(_) => true,
        _ => false,
    }
}

// Whether values of a type that is made so have a size (X.680, 51.5).
fn has_size(form: &TypeForm<'_>) -> bool {
    match form {
        TypeForm::BitString(_) | TypeForm::SequenceOf(_) | TypeForm::SetOf(_) => true,
        TypeForm::Simple(simple) => match simple {
            SimpleType::Boolean
            | SimpleType::Null
            | SimpleType::ObjectIdentifier
            | SimpleType::UtcTime
            | SimpleType::GeneralizedTime
            | SimpleType::Unread => false,
            _ => true,
        },
        _ => false,
    }
}

// Whether a type that is made so may have a constraint CONTAINING (X.682, 11.1).
fn has_contents(form: &TypeForm<'_>) -> bool {
    match form {
        TypeForm::Simple(SimpleType::OctetString) => true,
        TypeForm::BitString(bits) => bits.is_empty(),
        _ => false,
    }
}
