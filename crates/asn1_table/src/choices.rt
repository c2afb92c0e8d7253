//! Comments that say which types OBJECT IDENTIFIERs choose for open types.

use crate::directives::type_in;
use crate::identifiers::oid_octets;
use crate::library::Library;
use crate::wrong::Wrong;
use asn1_check::Constant;
use asn1_syntax::{Item, Refusal, ValueAssignment};
use std::alloc::Global;

const NO_IDENTIFIER: &str = "an OBJECT IDENTIFIER after a comment `Schema type:`";

const TWICE: &str = "an OBJECT IDENTIFIER that has no other type in this open type";

/// A type that an OBJECT IDENTIFIER chooses for an open type. A comment `Schema type:` in front of
/// the OBJECT IDENTIFIER says so.
#[derive(Drop)]
pub struct Choice<'a> {
    /// The name of the open type. Empty if the type is chosen for each `ANY` that has no name.
    pub table: &'a str,
    /// The contents octets of the OBJECT IDENTIFIER.
    pub identifier: Vec<u8>,
    /// The index of the chosen type among the `nodes` of the module.
    pub of: usize,
    /// The name of the OBJECT IDENTIFIER in its module.
    name: Item<'a>,
}

/// The types that OBJECT IDENTIFIERs choose for open types, as the comments in the modules say. The
/// list is sorted by the contents octets of the OBJECT IDENTIFIERs.
pub fn choices_of<'a>(alloc: Global, library: &Library<'a>) -> Result<Vec<Choice<'a>>, Wrong<'a>> {
    let mut choices = Vec::new(alloc);
    for assigned in library.module.values.iter() {
        add_value(alloc, library, assigned, &mut choices)?;
    }
    choices.sort_by(|one, other| one.identifier.as_slice().cmp(other.identifier.as_slice()))?;
    check_once(&choices)?;
    Ok(choices)
}

// Adds the types that the comment of a value gives to it.
fn add_value<'a>(
    alloc: Global,
    library: &Library<'a>,
    assigned: &ValueAssignment<'a>,
    choices: &mut Vec<Choice<'a>>,
) -> Result<(), Wrong<'a>> {
    for line in assigned.name.comments.lines() {
        if let Some((name, table)) = type_in(line)
            && let Some(of) = library.commented(assigned.name.offset, name)
        {
            let Some(Constant::ObjectIdentifier(arcs)) = library
                .module
                .constants
                .find(assigned.name.text)
            else {
                return Err(Wrong::Refused(Refusal::of(assigned.name, NO_IDENTIFIER)));
            };
            choices.push(Choice {
                table,
                identifier: oid_octets(alloc, arcs)?,
                of,
                name: assigned.name,
            })?;
        }
    }
    Ok(())
}

// Checks that no OBJECT IDENTIFIER chooses two types of one open type.
fn check_once<'a>(choices: &Vec<Choice<'a>>) -> Result<(), Wrong<'a>> {
    for (at, choice) in choices.iter().enumerate() {
        if is_again(choices, at, choice) {
            return Err(Wrong::Refused(Refusal::of(choice.name, TWICE)));
        }
    }
    Ok(())
}

// Whether a choice in front of this index has the same identifier and open type.
fn is_again(choices: &Vec<Choice<'_>>, at: usize, choice: &Choice<'_>) -> bool {
    for other in choices.iter().take(at).rev() {
        if other.identifier.as_slice() != choice.identifier.as_slice() {
            return false;
        }
        if other.table == choice.table {
            return true;
        }
    }
    false
}
