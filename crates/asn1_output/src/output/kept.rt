//! Finds the types with an extension marker that keep unknown components and alternatives.

use super::directive::{is_closed_by, own_type};
use asn1_check::{
    Checks, Module, TagSet, are_numbered, automatic_number, base_of, component_tags, copy_at,
};
use asn1_syntax::{Component, Mark, Presence, TypeForm, TypeNode};
use std::alloc::{AllocError, Global};

/// The greatest number of components of a SEQUENCE that keeps unknown components. The proof checker
/// does not take more. A SEQUENCE with more components refuses unknown ones.
const MOST_FIELDS: usize = 9;

/// The greatest number of alternatives of a CHOICE that keeps unknown alternatives. A CHOICE with
/// more alternatives refuses unknown ones.
const MOST_ALTERNATIVES: usize = 24;

/// Returns the tags that each type with an extension marker knows where the marker is. Elements
/// with other tags are kept there as unknown elements. The place in the result is the index of the
/// type. `None` for a type that refuses unknown elements, or that has no extension marker.
pub fn kept_of(
    alloc: Global,
    module: &Module<'_>,
    checks: &Checks,
) -> Result<Vec<Option<TagSet>>, AllocError> {
    let closed = closed_choices(alloc, module)?;
    let mut kept = Vec::new(alloc);
    for (index, node) in module.nodes.iter().enumerate() {
        let is_closed = closed.get(index) == Some(&true)
            || own_type(module, index).is_some()
            || is_closed_by(module, index);
        let known = match (&node.mark, is_closed) {
            (Some(mark), false) => known_tags(alloc, module, checks, index, node, *mark)?,
            _ => None,
        };
        kept.push(known)?;
    }
    Ok(kept)
}

/// Whether the type with this index keeps unknown components or alternatives.
pub fn is_kept(kept: &Vec<Option<TagSet>>, index: usize) -> bool {
    matches!(kept.get(index), Some(Some(_)))
}

// The tags that a type knows at its mark, unless any tag may be there, or it has too many parts.
fn known_tags(
    alloc: Global,
    module: &Module<'_>,
    checks: &Checks,
    index: usize,
    node: &TypeNode<'_>,
    mark: Mark<'_>,
) -> Result<Option<TagSet>, AllocError> {
    let known = match &node.form {
        TypeForm::Sequence(components) if components.len() <= MOST_FIELDS => {
            tags_around(alloc, module, checks, components, mark.insertion)?
        }
        TypeForm::Choice(alternatives) if alternatives.len() <= MOST_ALTERNATIVES => {
            copy_at(alloc, &checks.tags, index)?
        }
        _ => TagSet::any(alloc),
    };
    if known.is_any {
        return Ok(None);
    }
    Ok(Some(known))
}

// The tags of the components after the insertion point of a SEQUENCE, and of those that may be
// absent right in front of it (X.680, 25.6).
fn tags_around(
    alloc: Global,
    module: &Module<'_>,
    checks: &Checks,
    components: &Vec<Component<'_>>,
    insertion: usize,
) -> Result<TagSet, AllocError> {
    let are_numbered = are_numbered(components);
    let mut known = TagSet::empty(alloc);
    for (count, component) in components.iter().enumerate() {
        let number = automatic_number(components, count);
        let tags = component_tags(alloc, &checks.tags, component, are_numbered, number)?;
        if count < insertion && is_required(component) {
            known = TagSet::empty(alloc);
        } else {
            known.add(&tags)?;
        }
    }
    Ok(known)
}

fn is_required(component: &Component<'_>) -> bool {
    matches!(&component.presence, Presence::Required)
}

// Whether each type, by its index, is a CHOICE that is without a tag where its tags decide what is
// absent, or which alternative is there: a tag that it does not know may be that of something else.
fn closed_choices(alloc: Global, module: &Module<'_>) -> Result<Vec<bool>, AllocError> {
    let mut closed = vec![in alloc; false; module.nodes.len()]?;
    for node in module.nodes.iter() {
        match &node.form {
            TypeForm::Choice(parts) if !are_numbered(parts) => {
                for part in parts.iter() {
                    close(module, &mut closed, part.of);
                }
            }
            TypeForm::Sequence(parts) if !are_numbered(parts) => {
                close_parts(module, &mut closed, node, parts);
            }
            _ => {}
        }
    }
    Ok(closed)
}

// Closes the components of a SEQUENCE that are optional, or right after something that may be absent.
fn close_parts(
    module: &Module<'_>,
    closed: &mut Vec<bool>,
    node: &TypeNode<'_>,
    parts: &Vec<Component<'_>>,
) {
    let mut is_after = false;
    for (count, part) in parts.iter().enumerate() {
        let is_inserted = match &node.mark {
            Some(mark) => mark.insertion == count,
            None => false,
        };
        if is_after || is_inserted || !is_required(part) {
            close(module, closed, part.of);
        }
        is_after = !is_required(part);
    }
}

// Closes the type after the names of the type with this index.
fn close(module: &Module<'_>, closed: &mut Vec<bool>, index: usize) {
    if let Some(place) = closed.get_mut(base_of(module, index)) {
        *place = true;
    }
}
