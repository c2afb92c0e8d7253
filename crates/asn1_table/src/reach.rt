//! Follows references and tags to the type behind them.

use crate::library::Library;
use crate::limits::Limits;
use crate::opener::Opener;
use crate::wanted::Wanted;
use crate::wrong::Wrong;
use asn1_syntax::{Refusal, SimpleType, Tag, TagPrefix, Tagging, TypeForm, TypeNode};

const LOOP: &str = "a type that is not made of its own name";

/// Describes the node that the type with this index needs. References (names of types) and implicit
/// tags are followed to the type behind them. If `tag` is given, it replaces the tag of the type.
/// Fails if the definition of a type leads back to its own name.
pub fn reach<'a>(
    library: &Library<'a>,
    index: usize,
    tag: Option<Tag>,
    opener: Opener<'a>,
) -> Result<Wanted<'a>, Wrong<'a>> {
    let mut wanted = Wanted {
        index,
        name: library.name_at(index),
        tag,
        is_around: false,
        limits: Limits::NONE,
        contained: None,
        opener,
    };
    for _ in 0..=library.module.nodes.len() {
        let Some(node) = library.node(wanted.index) else {
            break;
        };
        if let Some(of) = wanted.opener.own
            && !is_tagged(node)
        {
            wanted = wanted.named(of, library.name_at(of), opener.with_own(None));
            continue;
        }
        wanted = wanted.after(node);
        match &node.form {
            TypeForm::Reference => {
                let of = library.named(node.item)?;
                wanted = wanted.named(of, library.name_at(of), wanted.opener);
            }
            TypeForm::Tagged(prefix, of) if is_implicit(library, *of, *prefix) => {
                wanted = wanted.under(prefix.tag, *of);
            }
            _ => return Ok(wanted),
        }
    }
    Err(refused_at(library, index))
}

fn is_tagged(node: &TypeNode<'_>) -> bool {
    matches!(&node.form, TypeForm::Tagged(_, _))
}

// Why a type is no type.
fn refused_at<'a>(library: &Library<'a>, index: usize) -> Wrong<'a> {
    match library.node(index) {
        Some(node) => Wrong::Unsupported(Refusal::of(node.item, LOOP)),
        None => Wrong::OutOfMemory,
    }
}

// Whether a tag takes the place of that of the type with this index after it (X.680, 31.2.7).
fn is_implicit(library: &Library<'_>, after: usize, prefix: TagPrefix) -> bool {
    prefix.tagging != Some(Tagging::Explicit) && !has_no_tag(library, after)
}

/// Whether the type with this index has no tag of its own, as a CHOICE and `ANY` have none.
/// References are followed.
pub fn has_no_tag(library: &Library<'_>, index: usize) -> bool {
    let mut index = index;
    for _ in 0..=library.module.nodes.len() {
        let Some(node) = library.node(index) else {
            return false;
        };
        match &node.form {
            TypeForm::Reference => match library.module.index.types.find(node.item.text) {
                Some(of) => index = of,
                None => return false,
            },
            TypeForm::Choice(_) | TypeForm::Simple(SimpleType::Any) => return true,
            _ => return false,
        }
    }
    false
}
