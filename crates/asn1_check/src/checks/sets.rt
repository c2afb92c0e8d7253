//! SETs with components, which DER encodes in the order of their tags.

use super::components::{are_numbered, automatic_number, component_tags};
use crate::module::Module;
use crate::tag_set::TagSet;
use asn1_syntax::{
    Component, Failure, Refusal, Tag, TagClass, TagPrefix, Tagging, TypeForm, TypeNode, Warning,
};
use std::alloc::Global;
use std::mem;

const NO_TAG: &str = "no CHOICE and no ANY without a tag in a SET";

const CLOSED: &str = "elements that no component names are refused";

/// Replaces each SET with components by a SEQUENCE that has the tag of a SET. The components of the
/// SEQUENCE are in the order of their tags (X.690, 10.3). `table` has the tags of each type, at the
/// index of the type. Returns whether the module has a SET with components.
pub fn sort_sets<'a>(
    alloc: Global,
    module: &mut Module<'a>,
    table: &Vec<TagSet>,
) -> Result<bool, Failure<'a>> {
    let count = module.nodes.len();
    for index in 0..count {
        sort_set(alloc, module, table, index)?;
    }
    Ok(module.nodes.len() > count)
}

// The same for the type with this index.
fn sort_set<'a>(
    alloc: Global,
    module: &mut Module<'a>,
    table: &Vec<TagSet>,
    index: usize,
) -> Result<(), Failure<'a>> {
    let inside = module.nodes.len();
    let Some(node) = module.nodes.get_mut(index) else {
        return Ok(());
    };
    let item = node.item;
    let order = match &node.form {
        TypeForm::Set(components) => order_of(alloc, table, components)?,
        _ => return Ok(()),
    };
    let mark = node.mark.take();
    let form = mem::replace(&mut node.form, TypeForm::Tagged(set_prefix(), inside));
    module.nodes.push(TypeNode {
        item,
        form: sorted_form(alloc, form, &order)?,
        constraints: Vec::new(alloc),
        mark: None,
    })?;
    if let Some(mark) = mark {
        let warning = Warning::of(alloc, mark.item, CLOSED)?;
        module.warnings.push(warning)?;
    }
    Ok(())
}

// The tag of a SET, in place of another one.
fn set_prefix() -> TagPrefix {
    TagPrefix {
        tag: Tag {
            class: TagClass::Universal,
            number: 17,
        },
        tagging: Some(Tagging::Implicit),
    }
}

// The indices of components in the order of their tags, each with its place.
fn order_of<'a>(
    alloc: Global,
    table: &Vec<TagSet>,
    components: &Vec<Component<'a>>,
) -> Result<Vec<(u64, usize)>, Failure<'a>> {
    let are_numbered = are_numbered(components);
    let mut order = Vec::new(alloc);
    for (index, component) in components.iter().enumerate() {
        let number = automatic_number(components, index);
        let tags = component_tags(alloc, table, component, are_numbered, number)?;
        match tags.tags.first() {
            Some(tag) if tags.tags.len() == 1 && !tags.is_any => order.push((
                place_of(*tag),
                index,
            ))?,
            _ => return Err(Failure::Unsupported(Refusal::of(component.name, NO_TAG))),
        }
    }
    order.sort_by_key(|pair| pair.0)?;
    Ok(order)
}

// The place of a tag among all tags (X.680, 8.6), of those whose numbers have less than 60 bits.
fn place_of(tag: Tag) -> u64 {
    let class = match tag.class {
        TagClass::Universal => 0u64,
        TagClass::Application => 1u64,
        TagClass::ContextSpecific => 2u64,
        TagClass::Private => 3u64,
    };
    class
        .saturating_mul(1152921504606846976)
        .saturating_add(tag.number.min(1152921504606846975))
}

// A SEQUENCE of the components of a SET in this order.
fn sorted_form<'a>(
    alloc: Global,
    form: TypeForm<'a>,
    order: &Vec<(u64, usize)>,
) -> Result<TypeForm<'a>, Failure<'a>> {
    let TypeForm::Set(components) = form else {
        return Ok(form);
    };
    let mut places = Vec::new(alloc);
    for component in components.into_iter() {
        places.push(Some(component))?;
    }
    let mut sorted = Vec::new(alloc);
    for (_, index) in order.iter() {
        if let Some(place) = places.get_mut(*index)
            && let Some(component) = place.take()
        {
            sorted.push(component)?;
        }
    }
    Ok(TypeForm::Sequence(sorted))
}
