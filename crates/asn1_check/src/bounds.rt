//! The numbers that a type allows, and the type that a string contains.

use crate::checks::find_type;
use crate::module::Module;
use asn1_syntax::{Constraint, Range, TypeForm, TypeNode};

/// The range of numbers that the type with this index allows. All range constraints of the type
/// count, and all range constraints of the types behind its references and tags. If the last range
/// constraint has an extension marker, that constraint excludes no number. The extension markers of
/// the other constraints are ignored (X.680, 50.8).
pub fn range_at<'a>(module: &Module<'a>, index: usize) -> Range<'a> {
    let mut index = index;
    let mut found = None;
    for _ in module.nodes.iter() {
        let Some(node) = module.nodes.get(index) else {
            break;
        };
        found = narrowed(found, node);
        match &node.form {
            TypeForm::Tagged(_, of) => index = *of,
            TypeForm::Reference => match find_type(module, node.item.text) {
                Some(of) => index = of,
                None => return with_imported(module, node.item.text, found),
            },
            _ => break,
        }
    }
    found.unwrap_or(Range::ALL)
}

// The numbers of the ranges that come after, if there are any, that are in those of a type.
fn narrowed<'a>(found: Option<Range<'a>>, node: &TypeNode<'a>) -> Option<Range<'a>> {
    let mut found = found;
    for constraint in node.constraints.iter().rev() {
        if let Constraint::Range(range) = constraint {
            found = Some(narrowed_by(found, *range));
        }
    }
    found
}

fn narrowed_by<'a>(found: Option<Range<'a>>, range: Range<'a>) -> Range<'a> {
    match found {
        Some(after) => after.and(range),
        None if range.is_extensible => Range::ALL,
        None => range,
    }
}

fn with_imported<'a>(module: &Module<'a>, name: &str, found: Option<Range<'a>>) -> Range<'a> {
    match (module.imported.find(name), found) {
        (Some(external), Some(after)) => after.and(external.range),
        (Some(external), None) => external.range,
        (None, after) => after.unwrap_or(Range::ALL),
    }
}

/// The index of the type that a string contains: the contents of the string are an encoding of that
/// type. `None` if the string has no constraint CONTAINING.
pub fn contained(node: &TypeNode<'_>) -> Option<usize> {
    for constraint in node.constraints.iter() {
        if let Constraint::Containing(of) = constraint {
            return Some(*of);
        }
    }
    None
}
