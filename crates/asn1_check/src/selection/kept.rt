//! Removes the assignments that are not compiled from a module.

use super::left::missing;
use crate::external::External;
use asn1_syntax::{Item, NameIndex, ParsedModule, SimpleType, TypeForm, TypeNode};
use std::alloc::{AllocError, Global};

/// Removes from a module the assignments whose names are not in `wanted`. Also removes the imports
/// that cannot be found in `externals`. The types that remain keep their indices.
pub fn keep<'a>(
    alloc: Global,
    parsed: &mut ParsedModule<'a>,
    externals: &Vec<External<'a>>,
    wanted: &NameIndex<'a>,
) -> Result<(), AllocError> {
    clear_types(alloc, parsed, wanted);
    parsed
        .types
        .retain(|assigned| wanted.has(assigned.name.text));
    parsed
        .values
        .retain(|assigned| wanted.has(assigned.name.text));
    parsed.objects.retain(|object| wanted.has(object.name.text));
    parsed.sets.retain(|set| wanted.has(set.name.text));
    parsed
        .imports
        .retain(|import| missing(externals, import).is_none());
    keep_exports(alloc, parsed, wanted)?;
    parsed.look_up_names(alloc)
}

// Puts NULL in the place of each type that is in none of these assignments: others keep their
// indices.
fn clear_types<'a>(alloc: Global, parsed: &mut ParsedModule<'a>, wanted: &NameIndex<'a>) {
    for assigned in parsed.types.iter() {
        if !wanted.has(assigned.name.text) {
            clear(alloc, &mut parsed.nodes, assigned.first, assigned.of);
        }
    }
    for assigned in parsed.values.iter() {
        if !wanted.has(assigned.name.text) {
            clear(alloc, &mut parsed.nodes, assigned.first, assigned.of);
        }
    }
    for object in parsed.objects.iter() {
        if !wanted.has(object.name.text) && object.first < object.end {
            clear(alloc, &mut parsed.nodes, object.first, object.end - 1);
        }
    }
}

fn clear<'a>(alloc: Global, nodes: &mut Vec<TypeNode<'a>>, first: usize, last: usize) {
    for index in first..=last {
        if let Some(node) = nodes.get_mut(index) {
            *node = TypeNode {
                item: Item::END,
                form: TypeForm::Simple(SimpleType::Null),
                constraints: Vec::new(alloc),
                mark: None,
            };
        }
    }
}

// Drops the names that are exported and that the module had, unless they are kept.
fn keep_exports<'a>(
    alloc: Global,
    parsed: &mut ParsedModule<'a>,
    wanted: &NameIndex<'a>,
) -> Result<(), AllocError> {
    let mut former = NameIndex::new(alloc);
    let index = &parsed.index;
    for names in [
        &index.types.names,
        &index.values.names,
        &index.imports.names,
        &parsed.passed.names,
    ] {
        for name in names.iter() {
            former.add(*name, 0)?;
        }
    }
    for left_out in parsed.left_out.iter() {
        former.add(left_out.name.text, 0)?;
    }
    parsed
        .exports
        .retain(|name| wanted.has(name.text) || !former.has(name.text));
    Ok(())
}
