//! Built-in types that are not compiled.

use super::order::{is_marked, mark};
use crate::module::Module;
use asn1_syntax::{Component, Failure, Refusal, TypeForm};
use std::alloc::{AllocError, Global};

/// Checks that each built-in type that is not compiled is an alternative of a CHOICE. The compiler
/// can leave out only an alternative.
pub fn check_unknown<'a>(alloc: Global, module: &Module<'a>) -> Result<(), Failure<'a>> {
    let mut found = Vec::new(alloc);
    add_unknown(alloc, module, &mut found)?;
    match found.first() {
        Some(refusal) => Err(Failure::Unsupported(*refusal)),
        None => Ok(()),
    }
}

/// Adds a refusal to `found` for each built-in type that is not compiled, unless the type is an
/// alternative of a CHOICE.
pub fn add_unknown<'a>(
    alloc: Global,
    module: &Module<'a>,
    found: &mut Vec<Refusal<'a>>,
) -> Result<(), AllocError> {
    let mut alternatives = vec![in alloc; false; module.nodes.len()]?;
    for node in module.nodes.iter() {
        if let TypeForm::Choice(components) = &node.form {
            mark_all(&mut alternatives, components);
        }
    }
    for (index, node) in module.nodes.iter().enumerate() {
        match node.form {
            TypeForm::Simple(simple) if !simple.is_compiled() && !is_marked(&alternatives, index) =>
                {
                    found.push(Refusal::of(node.item, "a type that the library knows"))?;
                }
            _ => {}
        }
    }
    Ok(())
}

fn mark_all(marks: &mut Vec<bool>, components: &Vec<Component<'_>>) {
    for component in components.iter() {
        mark(marks, component.of);
    }
}
