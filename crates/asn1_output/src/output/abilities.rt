//! Types that can be items of a SEQUENCE OF or SET OF, in particular types of other crates.

use super::lists::list_field;
use asn1_check::{ExternalType, Module, base_of, find_type};
use asn1_syntax::{Item, Refusal, TypeForm};
use std::alloc::AllocError;

/// Whether the type with this index can be the item of a SEQUENCE OF or SET OF in Rust. A SEQUENCE
/// OF or SET OF can only be an item if it is a Rust struct of its own. All other types of the
/// module can. For an imported type, the answer is [`ExternalType::is_item`].
pub fn has_item(module: &Module<'_>, index: usize) -> bool {
    let (base, name) = end_of_names(module, index);
    if let Some(external) = external_at(module, name) {
        return external.is_item;
    }
    !is_list(module, base) || list_field(module, base).is_some()
}

fn is_list(module: &Module<'_>, index: usize) -> bool {
    match module.nodes.get(index) {
        Some(node) => matches!(&node.form, TypeForm::SequenceOf(_) | TypeForm::SetOf(_)),
        None => false,
    }
}

/// Adds a refusal to `found` for each imported type that is an item of a SEQUENCE OF or SET OF, but
/// cannot be one, because its crate does not have the needed implementations.
pub fn add_imported<'a>(
    module: &Module<'a>,
    found: &mut Vec<Refusal<'a>>,
) -> Result<(), AllocError> {
    for node in module.nodes.iter() {
        if let TypeForm::SequenceOf(of) | TypeForm::SetOf(of) = &node.form
            && let Err(refusal) = check_item(module, *of)
        {
            found.push(refusal)?;
        }
    }
    Ok(())
}

fn check_item<'a>(module: &Module<'a>, index: usize) -> Result<(), Refusal<'a>> {
    let (_, name) = end_of_names(module, index);
    match external_at(module, name) {
        Some(external) if !external.is_item => {
            let expected = "no list, or one with a comment `Rust field:` in its module";
            Err(Refusal::of(name, expected))
        }
        _ => Ok(()),
    }
}

// The type at the end of the names that begin with the type of this index, and its first item.
fn end_of_names<'a>(module: &Module<'a>, index: usize) -> (usize, Item<'a>) {
    let base = base_of(module, index);
    match module.nodes.get(base) {
        Some(node) => (base, node.item),
        None => (base, Item::END),
    }
}

// The imported type with the name at the end of names.
fn external_at<'m, 'a>(module: &'m Module<'a>, name: Item<'a>) -> Option<&'m ExternalType<'a>> {
    match find_type(module, name.text) {
        Some(_) => None,
        None => module.imported.find(name.text),
    }
}
