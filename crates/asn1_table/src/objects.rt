//! Types that information objects give to OBJECT IDENTIFIERs (X.681).

use crate::identifiers::oid_octets;
use crate::library::Library;
use asn1_check::{Constant, contained};
use asn1_syntax::{
    Constraint, InformationObject, NameIndex, Setting, TableUse, TypeForm, TypeNode,
};
use std::alloc::{AllocError, Global};

/// Finds a table constraint with a component relation (`{@name}`, X.682 10.7) in the type with this
/// index: on the type itself, on the items of a SEQUENCE OF or SET OF, or on the type that an OCTET
/// STRING or BIT STRING contains. Returns the index of the constraint among the `tables`; `None` if
/// there is none.
pub fn use_in(library: &Library<'_>, index: usize) -> Option<usize> {
    let mut index = index;
    for _ in 0..=library.module.nodes.len() {
        let node = library.node(index)?;
        if let Some(number) = use_at(library, node) {
            return Some(number);
        }
        if let Some(of) = contained(node) {
            index = of;
            continue;
        }
        match &node.form {
            TypeForm::Tagged(_, of) | TypeForm::SequenceOf(of) | TypeForm::SetOf(of) => index = *of,
            _ => return None,
        }
    }
    None
}

// The index of what a constraint of a type says of a class and of another component.
fn use_at(library: &Library<'_>, node: &TypeNode<'_>) -> Option<usize> {
    for constraint in node.constraints.iter() {
        if let Constraint::Table(number) = constraint
            && let Some(of) = library.tables.get(*number)
            && of.by.is_some()
        {
            return Some(*number);
        }
    }
    None
}

/// The types among which a table constraint chooses, by the information objects of the constraint.
/// There is a pair for each object: the contents octets of the OBJECT IDENTIFIER of the object, and
/// the index of the type that the object has in the field of the constraint. The pairs are sorted
/// by the octets, and equal octets occur once. An object is skipped if it has no OBJECT IDENTIFIER,
/// or if it refers to something that is left out.
pub fn types_by<'a>(
    alloc: Global,
    library: &Library<'a>,
    number: usize,
) -> Result<Vec<(Vec<u8>, usize)>, AllocError> {
    let mut found: Vec<(Vec<u8>, usize)> = Vec::new(alloc);
    let Some(of) = library.tables.get(number) else {
        return Ok(found);
    };
    for name in members_of(alloc, library, of)?.iter() {
        if let Some(object) = library.object(name)
            && let Some(index) = type_in(library, object, of.field.text)
            && let Some(octets) = identifier_in(alloc, library, object)?
        {
            found.push((octets, index))?;
        }
    }
    found.sort_by(|one, other| one.0.as_slice().cmp(other.0.as_slice()))?;
    found.dedup_by(|one, other| one.0.as_slice() == other.0.as_slice());
    Ok(found)
}

// The names of objects, and of sets in which there are others.
fn members_of<'a>(
    alloc: Global,
    library: &Library<'a>,
    of: &TableUse<'a>,
) -> Result<Vec<&'a str>, AllocError> {
    let mut seen = NameIndex::new(alloc);
    for member in of.members.iter() {
        seen.add(member.text, 0)?;
    }
    for at in 0..=library.sets.len().saturating_add(library.objects.len()) {
        let Some(name) = seen.names.get(at) else {
            break;
        };
        let name = *name;
        if let Some(set) = library.set(name) {
            for member in set.members.iter() {
                seen.add(member.text, 0)?;
            }
        }
    }
    Ok(seen.names)
}

// The index of the type in a field of an object, if all names in the object's types are there.
fn type_in(library: &Library<'_>, object: &InformationObject<'_>, field: &str) -> Option<usize> {
    for index in object.first..object.end {
        let node = library.node(index)?;
        if matches!(&node.form, TypeForm::Reference) {
            library.module.index.types.find(node.item.text)?;
        }
    }
    for setting in object.fields.iter() {
        if setting.name.text == field
            && let Setting::Type(index) = &setting.setting
        {
            return Some(*index);
        }
    }
    None
}

// The contents octets of the first OBJECT IDENTIFIER with a name in a field of an object.
fn identifier_in(
    alloc: Global,
    library: &Library<'_>,
    object: &InformationObject<'_>,
) -> Result<Option<Vec<u8>>, AllocError> {
    for setting in object.fields.iter() {
        if let Setting::Value(value) = &setting.setting
            && let Some(Constant::ObjectIdentifier(arcs)) = library
                .module
                .constants
                .find(value.item.text)
        {
            return Ok(Some(oid_octets(alloc, arcs)?));
        }
    }
    Ok(None)
}
