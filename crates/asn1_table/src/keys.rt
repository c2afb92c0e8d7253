//! Keys of nodes. Types with the same key share a node.

use crate::library::Library;
use crate::opener::Opener;
use crate::properties::limit_of;
use crate::rows::count_of;
use crate::wanted::Wanted;
use asn1_syntax::{SimpleType, TypeForm};
use std::alloc::{AllocError, Global};

/// Removes from the description of a node the properties that mean nothing for its type.
pub fn settled<'a>(library: &Library<'a>, wanted: Wanted<'a>) -> Wanted<'a> {
    let Some(node) = library.node(wanted.index) else {
        return wanted;
    };
    match &node.form {
        _ if wanted.is_around => wanted,
        TypeForm::SequenceOf(_) | TypeForm::SetOf(_) | TypeForm::Tagged(_, _) => wanted,
        TypeForm::Simple(SimpleType::Any) => Wanted {
            name: wanted.name,
            ..Wanted::any(wanted.opener)
        },
        TypeForm::Simple(SimpleType::OctetString) | TypeForm::BitString(_) => wanted,
        _ => Wanted {
            opener: Opener::NONE,
            ..wanted
        },
    }
}

/// Returns a text as the key of a node. Two types get the same key if and only if they share a
/// node:
///
/// - A built-in type without a name, and without named numbers, shares a node with each equal type
///   that has the same tag and limits.
/// - Any other type shares a node only with itself: the same type of the same module, with the same
///   tag. The properties that come from the component around it must be the same, too.
pub fn key_of(
    alloc: Global,
    library: &Library<'_>,
    wanted: &Wanted<'_>,
) -> Result<String, AllocError> {
    let (class, number) = wanted.tag_or(0);
    let (is_tagged, is_around) = (wanted.tag.is_some(), wanted.is_around);
    let (low, high) = ends_at(library, wanted);
    let index = wanted.index;
    if let Some(of) = leaf_number(library, wanted) {
        return format!(in alloc; "{of} {class} {number} {is_tagged} {low} {high}");
    }
    let Opener {
        chooser,
        table,
        objects,
        is_string,
        own,
    } = wanted.opener;
    let objects = match objects {
        Some(number) => i64::from(count_of(number)),
        None => -1,
    };
    let chooser = match chooser {
        Some(field) => i64::from(field),
        None => -1,
    };
    let own = own.unwrap_or(index);
    let contained = wanted.contained.unwrap_or(index);
    let name = wanted.name;
    format!(in alloc;
        "{index} {class} {number} {is_tagged} {is_around} {low} {high} {chooser} {objects} {is_string} {own} {contained} {name} {table}"
    )
}

// The ends of the limits of a node.
fn ends_at(library: &Library<'_>, wanted: &Wanted<'_>) -> (i64, i64) {
    match library.node(wanted.index) {
        Some(node) => limit_of(wanted, node).unwrap_or((i64::MIN, i64::MAX)),
        None => (i64::MIN, i64::MAX),
    }
}

// The number of the universal tag of a type without a name, without names of numbers and without parts.
fn leaf_number(library: &Library<'_>, wanted: &Wanted<'_>) -> Option<u64> {
    if wanted.is_around
        || wanted.contained.is_some()
        || wanted.opener.is_string
        || !wanted.name.is_empty()
    {
        return None;
    }
    let node = library.node(wanted.index)?;
    match &node.form {
        TypeForm::Simple(SimpleType::Unread | SimpleType::Any) => None,
        TypeForm::Simple(simple) => simple.tag_number(),
        TypeForm::Integer(names) if names.is_empty() => Some(2),
        TypeForm::BitString(names) if names.is_empty() => Some(3),
        _ => None,
    }
}
