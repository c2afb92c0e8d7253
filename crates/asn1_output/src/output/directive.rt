//! Directives: comments in a module that choose names and types for Rust.

use super::rust_names::{pascal_name, snake_name};
use super::words::is_used;
use asn1_check::Module;
use asn1_syntax::{Item, comment_text, is_digit, is_word_octet};
use asn1_table::is_schema_line;
use std::alloc::{AllocError, Global};

/// The start of a comment line that gives the Rust name of a type, a field or a variant.
pub const NAME: &str = "Rust name:";

/// The start of a comment line that makes a Rust struct of a SEQUENCE OF or SET OF. The name of the
/// only field of the struct follows.
pub const FIELD: &str = "Rust field:";

/// The start of a comment line that names a Rust type which is written by hand. The compiler uses
/// it for the type after the comment.
pub const TYPE: &str = "Rust type:";

/// The start of a comment line that names a Rust type which is written by hand. The type stands for
/// the default value of the component after the comment.
pub const DEFAULT: &str = "Rust default:";

/// The start of a comment line that gives the Rust type of the number in a component with a
/// DEFAULT. Only `u64` may follow.
pub const INTEGER: &str = "Rust integer:";

/// The start of a comment line for a type with an extension marker. If `refused` follows, unknown
/// numbers, components and alternatives are refused. Without this line, they are kept.
pub const EXTENSIONS: &str = "Rust extensions:";

/// Whether a line of a comment is a directive for Rust types or for tables of types. The comment
/// marks must already be removed from the line.
pub fn is_directive(line: &str) -> bool {
    line.starts_with(NAME)
        || line.starts_with(FIELD)
        || line.starts_with(TYPE)
        || line.starts_with(DEFAULT)
        || line.starts_with(INTEGER)
        || line.starts_with(EXTENSIONS)
        || is_schema_line(line)
}

/// The name after the directive `key` in these comments. `None` if the comments do not have this
/// directive, or if no Rust identifier follows it.
pub fn directive<'a>(comments: &'a str, key: &str) -> Option<&'a str> {
    for line in comments.lines() {
        if let Some(rest) = comment_text(line).strip_prefix(key) {
            let name = rest.trim();
            if is_name(name) {
                return Some(name);
            }
        }
    }
    None
}

/// The Rust type that a comment `Rust type:` names for the type with this index. It is written by
/// hand, and the root of the crate exports it. `None` if there is no such comment.
pub fn own_type<'a>(module: &Module<'a>, index: usize) -> Option<&'a str> {
    own_type_in(module.assignment(index)?.name.comments)
}

fn own_type_in<'a>(comments: &'a str) -> Option<&'a str> {
    for line in comments.lines() {
        if let Some(rest) = comment_text(line).strip_prefix(TYPE) {
            return Some(rest.trim());
        }
    }
    None
}

/// Whether a comment `Rust extensions: refused` is in front of the type with this index. The type
/// then refuses unknown values at its extension marker.
pub fn is_closed_by(module: &Module<'_>, index: usize) -> bool {
    match module.assignment(index) {
        Some(assigned) => directive(assigned.name.comments, EXTENSIONS) == Some("refused"),
        None => false,
    }
}

/// The name of the Rust type that stands for the default value of the component with this name, as a
/// comment `Rust default:` above the component says. That type is written by hand, and the root of
/// the crate exports it. `None` if there is no such comment.
pub fn own_default<'a>(name: Item<'a>) -> Option<&'a str> {
    directive(name.comments, DEFAULT)
}

/// Whether a comment `Rust integer: u64` is in front of the component with this name.
pub fn is_word(name: Item<'_>) -> bool {
    directive(name.comments, INTEGER) == Some("u64")
}

/// The name of a Rust type without its generic parameters.
pub fn name_of_type(text: &str) -> &str {
    match text.split_once('<') {
        Some((name, _)) => name,
        None => text,
    }
}

// Whether a text is letters, digits and `_`, of which the first one is no digit.
fn is_name(text: &str) -> bool {
    let octets = text.as_bytes();
    match octets.first() {
        Some(octet) if !is_digit(*octet) => are_word_octets(octets),
        _ => false,
    }
}

fn are_word_octets(octets: &[u8]) -> bool {
    for octet in octets {
        if !is_word_octet(*octet) {
            return false;
        }
    }
    true
}

/// The Rust name that a comment in front of `name` chooses: a comment `Rust type:`, or else a
/// comment `Rust name:`. `None` if there is no such comment.
pub fn chosen_name<'a>(name: Item<'a>) -> Option<&'a str> {
    match own_type_in(name.comments) {
        Some(own) => Some(name_of_type(own)),
        None => directive(name.comments, NAME),
    }
}

/// The Rust name of the type with this ASN.1 name. If the written files use the name for something
/// else, a `_` is appended.
pub fn type_name(alloc: Global, name: Item<'_>) -> Result<String, AllocError> {
    if let Some(chosen) = chosen_name(name) {
        return String::from_str(alloc, chosen);
    }
    let mut text = pascal_name(alloc, name.text)?;
    if is_used(text.as_str()) {
        text.push('_')?;
    }
    Ok(text)
}

/// The Rust name of the variant for the alternative or item with this ASN.1 name.
pub fn variant_name(alloc: Global, name: Item<'_>) -> Result<String, AllocError> {
    match chosen_name(name) {
        Some(chosen) => String::from_str(alloc, chosen),
        None if name.text == "self" => String::from_str(alloc, "Self_"),
        None => pascal_name(alloc, name.text),
    }
}

/// The Rust name of the field for the component with this ASN.1 name.
pub fn field_name(alloc: Global, name: Item<'_>) -> Result<String, AllocError> {
    match directive(name.comments, NAME) {
        Some(chosen) => String::from_str(alloc, chosen),
        None => snake_name(alloc, name.text),
    }
}
