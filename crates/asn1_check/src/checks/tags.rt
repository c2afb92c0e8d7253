//! The tags that values of each type begin with.

use super::components::{check_alternatives, check_sequence};
use super::names::find_type;
use crate::base::base_of;
use crate::module::Module;
use crate::tag_set::TagSet;
use asn1_syntax::{Failure, Refusal, TagPrefix, Tagging, TypeForm, TypeNode};
use std::alloc::{AllocError, Global};

/// Returns the tags that values of each type may begin with, in a list by the index of the type.
/// Fails if tags are not distinct where they must be:
///
/// - the tags of the alternatives of a CHOICE;
/// - the tags of the components of a SET;
/// - in a SEQUENCE, the tags of a component that may be absent and of the components after it, up
///   to the first required one.
pub fn tags_in_order<'a>(
    alloc: Global,
    module: &Module<'a>,
    order: &Vec<usize>,
) -> Result<Vec<TagSet>, Failure<'a>> {
    let mut table = empty_sets(alloc, module.nodes.len())?;
    for index in order.iter() {
        let Some(node) = module.nodes.get(*index) else {
            continue;
        };
        let tags = tags_of(alloc, module, &table, node)?;
        if let Some(place) = table.get_mut(*index) {
            *place = tags;
        }
    }
    Ok(table)
}

fn empty_sets(alloc: Global, count: usize) -> Result<Vec<TagSet>, AllocError> {
    let mut table = Vec::new(alloc);
    for _ in 0..count {
        table.push(TagSet::empty(alloc))?;
    }
    Ok(table)
}

fn tags_of<'a>(
    alloc: Global,
    module: &Module<'a>,
    table: &Vec<TagSet>,
    node: &TypeNode<'a>,
) -> Result<TagSet, Failure<'a>> {
    match &node.form {
        TypeForm::Reference => Ok(tags_of_name(alloc, module, table, node.item.text)?),
        TypeForm::Choice(alternatives) => check_alternatives(alloc, module, table, alternatives),
        TypeForm::Tagged(prefix, of) => tagged(alloc, module, node, *prefix, *of),
        TypeForm::Sequence(components) => {
            check_sequence(alloc, module, table, components)?;
            Ok(tags_of_form(alloc, &node.form)?)
        }
        TypeForm::Set(components) => {
            check_alternatives(alloc, module, table, components)?;
            Ok(tags_of_form(alloc, &node.form)?)
        }
        form => Ok(tags_of_form(alloc, form)?),
    }
}

// The tag of a type that has one of its own, or any tag.
fn tags_of_form(alloc: Global, form: &TypeForm<'_>) -> Result<TagSet, AllocError> {
    match tag_number(form) {
        Some(number) => TagSet::universal(alloc, number),
        None => Ok(TagSet::any(alloc)),
    }
}

// The number of the universal tag of a type that is made so (X.680, 8.4).
fn tag_number(form: &TypeForm<'_>) -> Option<u64> {
    match form {
        TypeForm::Simple(simple) => simple.tag_number(),
        TypeForm::Integer(_) => Some(2),
        TypeForm::BitString(_) => Some(3),
        TypeForm::Enumerated(_) => Some(10),
        TypeForm::Sequence(_) | TypeForm::SequenceOf(_) => Some(16),
        TypeForm::Set(_) | TypeForm::SetOf(_) => Some(17),
        _ => None,
    }
}

// The tags of the type with this name.
fn tags_of_name(
    alloc: Global,
    module: &Module<'_>,
    table: &Vec<TagSet>,
    name: &str,
) -> Result<TagSet, AllocError> {
    match find_type(module, name) {
        Some(of) => copy_at(alloc, table, of),
        None => external_tags(alloc, module, name),
    }
}

// The tags of the imported type with this name.
fn external_tags(alloc: Global, module: &Module<'_>, name: &str) -> Result<TagSet, AllocError> {
    let mut copy = TagSet::empty(alloc);
    if let Some(external) = module.imported.find(name) {
        copy.add(&external.tags)?;
    }
    Ok(copy)
}

// A copy of the tag set of the type with this index.
pub fn copy_at(alloc: Global, table: &Vec<TagSet>, index: usize) -> Result<TagSet, AllocError> {
    let mut copy = TagSet::empty(alloc);
    if let Some(tags) = table.get(index) {
        copy.add(tags)?;
    }
    Ok(copy)
}

// The tag in front of a type; refuses the word IMPLICIT in front of a CHOICE or ANY (X.680, 31.2.9).
fn tagged<'a>(
    alloc: Global,
    module: &Module<'a>,
    node: &TypeNode<'a>,
    prefix: TagPrefix,
    of: usize,
) -> Result<TagSet, Failure<'a>> {
    if prefix.tagging == Some(Tagging::Implicit) && has_no_tag(module, of) {
        let refusal = Refusal::of(node.item, "EXPLICIT in front of a CHOICE or ANY");
        return Err(Failure::Refused(refusal));
    }
    Ok(TagSet::of(alloc, prefix.tag)?)
}

/// Whether the type with this index has no tag of its own, as a CHOICE and ANY have none. If the
/// type is a reference, the answer is for the type that it refers to.
pub fn has_no_tag(module: &Module<'_>, index: usize) -> bool {
    let Some(node) = module.nodes.get(base_of(module, index)) else {
        return false;
    };
    match &node.form {
        TypeForm::Choice(_) => true,
        TypeForm::Simple(simple) => simple.tag_number().is_none(),
        TypeForm::Reference => is_external_without_tag(module, node.item.text),
        _ => false,
    }
}

fn is_external_without_tag(module: &Module<'_>, name: &str) -> bool {
    match module.imported.find(name) {
        Some(external) => external.has_no_tag,
        None => false,
    }
}
