//! Checks for which types Rust text can be written.

use super::directive::own_type;
use asn1_check::Module;
use asn1_syntax::{Component, Refusal, TagClass, TypeForm, TypeNode};
use std::alloc::AllocError;

/// The greatest number of components of a SEQUENCE or SET. The proof checker does not take more.
const MOST_FIELDS: usize = 10;

/// The greatest number of alternatives of a CHOICE.
const MOST_ALTERNATIVES: usize = 25;

/// Adds a refusal to `found` for each type for which no Rust text can be written: for a SEQUENCE,
/// SET or CHOICE with no or too many components, and for a tag of class UNIVERSAL. A type is not
/// refused if its Rust type is written by hand.
pub fn add_counts<'a>(module: &Module<'a>, found: &mut Vec<Refusal<'a>>) -> Result<(), AllocError> {
    for (index, node) in module.nodes.iter().enumerate() {
        if own_type(module, index).is_none()
            && let Err(refusal) = check_node(node)
        {
            found.push(refusal)?;
        }
    }
    Ok(())
}

fn check_node<'a>(node: &TypeNode<'a>) -> Result<(), Refusal<'a>> {
    match &node.form {
        TypeForm::Sequence(components) | TypeForm::Set(components) => {
            let expected = "1 to 10 components: the checker proves no more";
            check_count(node, components, MOST_FIELDS, expected)
        }
        TypeForm::Choice(components) => {
            let expected = "a CHOICE of 1 to 25 alternatives";
            check_count(node, components, MOST_ALTERNATIVES, expected)
        }
        TypeForm::Tagged(prefix, _) if prefix.tag.class == TagClass::Universal => {
            Err(Refusal::of(node.item, "no tag of the class UNIVERSAL"))
        }
        _ => Ok(()),
    }
}

fn check_count<'a>(
    node: &TypeNode<'a>,
    components: &Vec<Component<'a>>,
    most: usize,
    expected: &'static str,
) -> Result<(), Refusal<'a>> {
    if components.is_empty() || components.len() > most {
        return Err(Refusal::of(node.item, expected));
    }
    Ok(())
}
