//! Computes the values of a module.

use super::arcs::arcs_of;
use super::numbers::is_named;
use super::scope::Scope;
use crate::base::base_form;
use crate::constant::{Constant, NamedConstant, copy_of};
use crate::constants::Constants;
use crate::module::Module;
use asn1_syntax::{
    Endpoint, Failure, ItemKind, NamedNumber, Refusal, SimpleType, TypeForm, Value,
    ValueAssignment, ValueForm,
};
use std::alloc::{AllocError, Global};

const NOT_INTEGER: &str = "a number from -9223372036854775808 to 18446744073709551615, or its name";

/// Returns the values that a module imports, and the values that it assigns. Fails if a value is
/// not valid for its type, or if its definition leads back to the value itself.
pub fn constants_of<'a>(alloc: Global, module: &Module<'a>) -> Result<Constants<'a>, Failure<'a>> {
    let mut known = imported_constants(alloc, module)?;
    for _ in 0..module.values.len() {
        if !add_known(alloc, module, &mut known)? {
            break;
        }
    }
    check_known(module, &known)?;
    Ok(known)
}

fn imported_constants<'a>(alloc: Global, module: &Module<'a>) -> Result<Constants<'a>, AllocError> {
    let mut known = Constants::new(alloc);
    for imported in module.constants.list.iter() {
        known.push(imported.copy(alloc)?)?;
    }
    Ok(known)
}

fn check_known<'a>(module: &Module<'a>, known: &Constants<'a>) -> Result<(), Refusal<'a>> {
    for assigned in module.values.iter() {
        if known.find(assigned.name.text).is_none() {
            let expected = "a value that is not defined by itself";
            return Err(Refusal::of(assigned.name, expected));
        }
    }
    Ok(())
}

// Adds the values whose names are all known; whether there are any.
fn add_known<'a>(
    alloc: Global,
    module: &Module<'a>,
    known: &mut Constants<'a>,
) -> Result<bool, Failure<'a>> {
    let mut has_more = false;
    for assigned in module.values.iter() {
        if known.find(assigned.name.text).is_some() {
            continue;
        }
        if let Some(constant) = constant_of(alloc, module, known, assigned)? {
            known.push(NamedConstant {
                name: assigned.name.text,
                constant,
            })?;
            has_more = true;
        }
    }
    Ok(has_more)
}

fn constant_of<'a>(
    alloc: Global,
    module: &Module<'a>,
    known: &Constants<'a>,
    assigned: &ValueAssignment<'a>,
) -> Result<Option<Constant>, Failure<'a>> {
    let scope = Scope { module, known };
    let value = &assigned.value;
    if matches!(value.form, ValueForm::Unread) {
        return Ok(Some(Constant::Other));
    }
    match base_form(module, assigned.of) {
        Some(TypeForm::Integer(numbers)) => Ok(integer(&scope, numbers, value)?),
        Some(TypeForm::Simple(SimpleType::Boolean)) => Ok(boolean(&scope, value)?),
        Some(TypeForm::Simple(SimpleType::ObjectIdentifier)) => {
            object_identifier(alloc, &scope, value)
        }
        Some(form) => Ok(other(&scope, form, value)?),
        None => Ok(Some(Constant::Other)),
    }
}

fn integer<'a>(
    scope: &Scope<'_, 'a>,
    numbers: &Vec<NamedNumber<'a>>,
    value: &Value<'a>,
) -> Result<Option<Constant>, Refusal<'a>> {
    let number = match (&value.form, value.item.kind) {
        (ValueForm::Negative(number), _) => Some(Endpoint::Negative(*number)),
        (ValueForm::Item, ItemKind::LowerName) => scope.number_named(numbers, value.item)?,
        (ValueForm::Item, ItemKind::Number) => match value.item.text.parse::<u64>() {
            Ok(number) => Some(Endpoint::Number(number)),
            Err(_) => return Err(Refusal::of(value.item, NOT_INTEGER)),
        },
        _ => return Err(Refusal::of(value.item, NOT_INTEGER)),
    };
    match number {
        Some(Endpoint::Number(number)) => Ok(Some(Constant::Number(number))),
        Some(Endpoint::Negative(0)) => Ok(Some(Constant::Number(0))),
        Some(Endpoint::Negative(number)) if number <= 9223372036854775808 => {
            Ok(Some(Constant::Negative(number)))
        }
        None => Ok(None),
        _ => Err(Refusal::of(value.item, NOT_INTEGER)),
    }
}

fn boolean<'a>(scope: &Scope<'_, 'a>, value: &Value<'a>) -> Result<Option<Constant>, Refusal<'a>> {
    match (&value.form, value.item.text) {
        (ValueForm::Item, "TRUE") => return Ok(Some(Constant::Boolean(true))),
        (ValueForm::Item, "FALSE") => return Ok(Some(Constant::Boolean(false))),
        _ => {}
    }
    if value.item.kind != ItemKind::LowerName {
        return Err(Refusal::of(value.item, "TRUE or FALSE"));
    }
    let Some(constant) = scope.find(value.item)? else {
        return Ok(None);
    };
    match constant {
        Constant::Boolean(is_true) => Ok(Some(Constant::Boolean(*is_true))),
        _ => Err(Refusal::of(value.item, "TRUE or FALSE")),
    }
}

fn object_identifier<'a>(
    alloc: Global,
    scope: &Scope<'_, 'a>,
    value: &Value<'a>,
) -> Result<Option<Constant>, Failure<'a>> {
    if let ValueForm::Braces(items) = &value.form {
        return match arcs_of(alloc, scope, value.item, items)? {
            Some(arcs) => Ok(Some(Constant::ObjectIdentifier(arcs))),
            None => Ok(None),
        };
    }
    let refusal = Refusal::of(
        value.item,
        "arcs in braces, or the name of an OBJECT IDENTIFIER",
    );
    if value.item.kind != ItemKind::LowerName {
        return Err(Failure::Refused(refusal));
    }
    let Some(constant) = scope.find(value.item)? else {
        return Ok(None);
    };
    match constant {
        Constant::ObjectIdentifier(arcs) => {
            Ok(Some(Constant::ObjectIdentifier(copy_of(alloc, arcs)?)))
        }
        _ => Err(Failure::Refused(refusal)),
    }
}

// A value of another type, which is not computed.
fn other<'a>(
    scope: &Scope<'_, 'a>,
    form: &TypeForm<'a>,
    value: &Value<'a>,
) -> Result<Option<Constant>, Refusal<'a>> {
    if value.item.kind == ItemKind::LowerName && !is_item_of(form, value.item.text) {
        let Some(constant) = scope.find(value.item)? else {
            return Ok(None);
        };
        return match constant {
            Constant::Other => Ok(Some(Constant::Other)),
            _ => Err(Refusal::of(value.item, "a value of this type")),
        };
    }
    if value.is_written_for(form) {
        return Ok(Some(Constant::Other));
    }
    Err(Refusal::of(value.item, "a value of this type"))
}

// Whether this is an item of an ENUMERATED.
fn is_item_of(form: &TypeForm<'_>, name: &str) -> bool {
    match form {
        TypeForm::Enumerated(items) => is_named(items, name),
        _ => false,
    }
}
