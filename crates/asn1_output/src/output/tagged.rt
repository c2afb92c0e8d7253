//! Rust types for types with tags.

use super::directive::{name_of_type, own_type};
use super::numbers::bounds;
use asn1_check::{Module, RustKind, RustType, base_of, find_type};
use asn1_syntax::{Tag, TagClass, TagPrefix, Tagging, TypeForm};
use std::alloc::{AllocError, Global};

/// The Rust type for the type with the index `of` with a tag in front of it.
pub fn tagged(
    alloc: Global,
    module: &Module<'_>,
    table: &Vec<RustType>,
    prefix: TagPrefix,
    of: usize,
) -> Result<RustType, AllocError> {
    let Some(found) = table.get(of) else {
        return RustType::new(alloc, "", RustKind::Element);
    };
    match found.kind {
        RustKind::Choice => tagged_choice(alloc, found, prefix.tag),
        RustKind::Any => wrapped(alloc, "ExplicitAny", "'a", prefix.tag),
        RustKind::Element => {
            let word = word_of(tagging(prefix.tagging));
            wrapped(alloc, word, found.text.as_str(), prefix.tag)
        }
    }
}

// The type of a tag in front of a CHOICE.
fn tagged_choice(alloc: Global, found: &RustType, tag: Tag) -> Result<RustType, AllocError> {
    let mut inside = tagged_name(alloc, found)?;
    if found.has_lifetime {
        inside.push_str("<'a>")?;
    }
    wrapped(alloc, "Implicit", inside.as_str(), tag)
}

/// The name of the Rust struct for this CHOICE when it is inside an explicit tag.
pub fn tagged_name(alloc: Global, choice: &RustType) -> Result<String, AllocError> {
    let name = name_of_type(choice.text.as_str());
    format!(in alloc; "{name}Tagged")
}

// How a tag is put in front of a type with a tag.
fn tagging(written: Option<Tagging>) -> Tagging {
    written.unwrap_or(Tagging::Implicit)
}

fn word_of(tagging: Tagging) -> &'static str {
    match tagging {
        Tagging::Implicit => "Implicit",
        Tagging::Explicit => "Explicit",
    }
}

fn wrapped(alloc: Global, word: &str, inside: &str, tag: Tag) -> Result<RustType, AllocError> {
    Ok(RustType::element(alloc, wrapped_text(alloc, word, inside, tag)?))
}

// The type of a tag in front of the type `inside`.
fn wrapped_text(alloc: Global, word: &str, inside: &str, tag: Tag) -> Result<String, AllocError> {
    let number = tag.number;
    match tag.class {
        TagClass::Application => format!(in alloc; "Application<{word}<{inside}, {number}>>"),
        TagClass::Private => format!(in alloc; "Private<{word}<{inside}, {number}>>"),
        TagClass::Universal => format!(in alloc; "AsSet<{inside}>"),
        _ => format!(in alloc; "{word}<{inside}, {number}>"),
    }
}

/// The tag that a component with this number gets from AUTOMATIC TAGS.
pub fn numbered(number: usize) -> TagPrefix {
    let tag = Tag {
        class: TagClass::ContextSpecific,
        number: number as u64,
    };
    TagPrefix { tag, tagging: None }
}

/// The Rust type `inside` with tags around it: all tags of the type with this index, and of the
/// types that it refers to by name. Returns `None` in these cases:
///
/// - One of these types is written by hand.
/// - One of these types is imported, and has a tag that is not of class UNIVERSAL.
pub fn after_tags(
    alloc: Global,
    module: &Module<'_>,
    index: usize,
    inside: String,
) -> Result<Option<String>, AllocError> {
    let Some(prefixes) = prefixes_at(alloc, module, index)? else {
        return Ok(None);
    };
    let mut text = inside;
    for prefix in prefixes.iter().rev() {
        text = after_tag(alloc, *prefix, text.as_str())?;
    }
    Ok(Some(text))
}

/// The Rust type for the type `inside` with this tag around it. The type `inside` must be decoded
/// as an element.
pub fn after_tag(alloc: Global, prefix: TagPrefix, inside: &str) -> Result<String, AllocError> {
    wrapped_text(alloc, word_of(tagging(prefix.tagging)), inside, prefix.tag)
}

// The tags of the type with this index, and of those that it names, the first one first.
fn prefixes_at(
    alloc: Global,
    module: &Module<'_>,
    index: usize,
) -> Result<Option<Vec<TagPrefix>>, AllocError> {
    let mut prefixes = Vec::new(alloc);
    let mut index = index;
    for _ in module.nodes.iter() {
        let Some(node) = module.nodes.get(index) else {
            return Ok(None);
        };
        if own_type(module, index).is_some() {
            return Ok(None);
        }
        match &node.form {
            TypeForm::Tagged(prefix, of) => {
                prefixes.push(*prefix)?;
                index = *of;
            }
            TypeForm::Reference => match find_type(module, node.item.text) {
                Some(of) => index = of,
                None if is_imported_plain(module, node.item.text) => return Ok(Some(prefixes)),
                None => return Ok(None),
            },
            _ => return Ok(Some(prefixes)),
        }
    }
    Ok(None)
}

/// Whether decoding checks the bounds of the INTEGER with this index. This is true if the INTEGER
/// has a lower and an upper bound, neither is below 0, and its Rust type is neither written by hand
/// nor imported.
pub fn is_checked(module: &Module<'_>, index: usize) -> bool {
    if bounds(module, index).is_none() {
        return false;
    }
    let end = end_of(module, index);
    match module.nodes.get(end) {
        Some(node) => {
            own_type(module, end).is_none() && matches!(&node.form, TypeForm::Integer(_))
        }
        None => false,
    }
}

// Whether an imported type has a universal tag alone.
fn is_imported_plain(module: &Module<'_>, name: &str) -> bool {
    match module.imported.find(name) {
        Some(external) => !external.tags.is_any && are_universal(&external.tags.tags),
        None => false,
    }
}

fn are_universal(tags: &Vec<Tag>) -> bool {
    for tag in tags.iter() {
        if tag.class != TagClass::Universal {
            return false;
        }
    }
    true
}

/// The index of the type behind the tags of the type with this index. References to other types are
/// not followed.
pub fn leaf_of(module: &Module<'_>, index: usize) -> usize {
    let mut index = index;
    for _ in module.nodes.iter() {
        match module.nodes.get(index) {
            Some(node) => match &node.form {
                TypeForm::Tagged(_, of) => index = *of,
                _ => return index,
            },
            None => return index,
        }
    }
    index
}

/// The index of the type behind the tags and references of the type with this index. If that type
/// is of another crate, it is the index of the reference to it.
pub fn end_of(module: &Module<'_>, index: usize) -> usize {
    let mut index = index;
    for _ in module.nodes.iter() {
        let after = leaf_of(module, base_of(module, index));
        if after == index {
            return index;
        }
        index = after;
    }
    index
}
