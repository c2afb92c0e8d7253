//! Tags of components and of alternatives.

use super::recursion::recursive_name;
use super::tags::copy_at;
use crate::module::Module;
use crate::tag_set::TagSet;
use asn1_syntax::{Component, Failure, Presence, Refusal, Tag, TagClass};
use std::alloc::{AllocError, Global};

/// Returns the tags of all alternatives of a CHOICE, or of all components of a SET. Fails if two
/// alternatives or two components have a tag in common (X.680, 27.3 and 29.3).
pub fn check_alternatives<'a>(
    alloc: Global,
    module: &Module<'a>,
    table: &Vec<TagSet>,
    alternatives: &Vec<Component<'a>>,
) -> Result<TagSet, Failure<'a>> {
    let are_numbered = are_numbered(alternatives);
    let mut before = TagSet::empty(alloc);
    for (count, alternative) in alternatives.iter().enumerate() {
        let number = automatic_number(alternatives, count);
        let tags = component_tags(alloc, table, alternative, are_numbered, number)?;
        if !before.is_distinct_from(&tags) {
            let expected = "an alternative whose tag no other one has";
            let refusal = Refusal::of(alternative.name, expected);
            return Err(not_distinct(module, alternatives, refusal));
        }
        before.add(&tags)?;
    }
    Ok(before)
}

/// Checks the tags of the components of a SEQUENCE. Fails if a component has a tag in common with
/// an earlier component that may be absent, and no required component is between the two (X.680,
/// 25.6).
pub fn check_sequence<'a>(
    alloc: Global,
    module: &Module<'a>,
    table: &Vec<TagSet>,
    components: &Vec<Component<'a>>,
) -> Result<(), Failure<'a>> {
    let are_numbered = are_numbered(components);
    let mut before = TagSet::empty(alloc);
    for (count, component) in components.iter().enumerate() {
        let number = automatic_number(components, count);
        let tags = component_tags(alloc, table, component, are_numbered, number)?;
        if !before.is_distinct_from(&tags) {
            let expected = "a component whose tag no optional one in front of it has";
            let refusal = Refusal::of(component.name, expected);
            return Err(not_distinct(module, components, refusal));
        }
        match component.presence {
            Presence::Required => before = TagSet::empty(alloc),
            _ => before.add(&tags)?,
        }
    }
    Ok(())
}

// The failure of components whose tags are not distinct. With a type that leads back to itself, whose
// element may have any tag, they are not supported.
fn not_distinct<'a>(
    module: &Module<'a>,
    components: &Vec<Component<'a>>,
    refusal: Refusal<'a>,
) -> Failure<'a> {
    for component in components.iter() {
        if recursive_name(module, component.of).is_some() {
            return Failure::Unsupported(refusal);
        }
    }
    Failure::Refused(refusal)
}

/// The tags that values of a component may begin with. If `is_numbered` is true, the component has
/// an automatic tag: this is the only tag, of the context-specific class and with this `number`.
pub fn component_tags(
    alloc: Global,
    table: &Vec<TagSet>,
    component: &Component<'_>,
    is_numbered: bool,
    number: usize,
) -> Result<TagSet, AllocError> {
    if !is_numbered {
        return copy_at(alloc, table, component.of);
    }
    TagSet::of(
        alloc,
        Tag {
            class: TagClass::ContextSpecific,
            number: number as u64,
        },
    )
}

/// The tag number that AUTOMATIC TAGS gives the component with this index. The components of the
/// extension root have the first numbers, and the extension additions have the numbers after these
/// (X.680, 25.7). The result is 0 if AUTOMATIC TAGS gives no numbers to these components.
pub fn automatic_number(components: &Vec<Component<'_>>, index: usize) -> usize {
    match components.get(index) {
        Some(component) => component.number.unwrap_or(0),
        None => 0,
    }
}

/// Whether AUTOMATIC TAGS gives these components tags with ascending numbers (X.680, 25.2).
pub fn are_numbered(components: &Vec<Component<'_>>) -> bool {
    for component in components.iter() {
        if component.number.is_some() {
            return true;
        }
    }
    false
}
