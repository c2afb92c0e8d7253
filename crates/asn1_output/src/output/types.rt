//! The Rust types for ASN.1 types.

use super::alternatives::{Alternative, alternatives};
use super::directive::{is_word, own_type};
use super::kept::is_kept;
use super::lists::list_field;
use super::naming::text_at;
use super::nest;
use super::numbers::{OPEN, are_small, bounds, is_closed, is_enumeration, is_open};
use super::tagged::{after_tags, numbered, tagged};
use asn1_check::{
    Module, RustKind, RustType, TagSet, are_numbered, automatic_number, base_form, contained,
    find_type,
};
use asn1_syntax::{
    Component, Failure, NamedNumber, Presence, Refusal, SimpleType, TagPrefix, TypeForm, TypeNode,
};
use std::alloc::{AllocError, Global};
use std::fmt::Write;

/// The Rust types of all ASN.1 types of a module, by the index of the ASN.1 type.
pub fn types_in_order<'a>(
    alloc: Global,
    module: &Module<'a>,
    order: &Vec<usize>,
    names: &Vec<String>,
    kept: &Vec<Option<TagSet>>,
) -> Result<Vec<RustType>, Failure<'a>> {
    let mut table = empty_types(alloc, module)?;
    for index in order.iter() {
        let Some(node) = module.nodes.get(*index) else {
            continue;
        };
        let found = type_of(alloc, module, &table, names, kept, *index, node)?;
        if let Some(place) = table.get_mut(*index) {
            *place = found;
        }
    }
    Ok(table)
}

fn empty_types(alloc: Global, module: &Module<'_>) -> Result<Vec<RustType>, AllocError> {
    let mut table = Vec::new(alloc);
    for _ in module.nodes.iter() {
        table.push(RustType::element(alloc, String::new(alloc)))?;
    }
    Ok(table)
}

fn type_of<'a>(
    alloc: Global,
    module: &Module<'a>,
    table: &Vec<RustType>,
    names: &Vec<String>,
    kept: &Vec<Option<TagSet>>,
    index: usize,
    node: &TypeNode<'a>,
) -> Result<RustType, Failure<'a>> {
    if let Some(own) = own_type(module, index) {
        return Ok(RustType::new(alloc, own, own_kind(node))?);
    }
    let name = text_at(names, index);
    match &node.form {
        TypeForm::Simple(SimpleType::Any) => {
            Ok(RustType::new(alloc, "AnyRef<'a>", RustKind::Any)?)
        }
        TypeForm::Reference => reference(alloc, module, table, names, index, node),
        TypeForm::Choice(parts) if is_kept(kept, index) => {
            choice(alloc, module, table, name, parts, Some(name))
        }
        TypeForm::Choice(parts) => choice(alloc, module, table, name, parts, None),
        TypeForm::Sequence(_) if is_kept(kept, index) => {
            Ok(RustType::element(alloc, format!(in alloc; "{name}<'a>")?))
        }
        TypeForm::Tagged(prefix, of) => Ok(tagged(alloc, module, table, *prefix, *of)?),
        TypeForm::SequenceOf(_) | TypeForm::SetOf(_) => {
            Ok(RustType::element(alloc, list_type(alloc, module, table, name, index, node)?))
        }
        TypeForm::Integer(numbers) => {
            Ok(RustType::element(alloc, integer_text(alloc, module, index, numbers, name)?))
        }
        TypeForm::Enumerated(_) if is_open(module, index) => {
            Ok(RustType::new(alloc, OPEN, RustKind::Element)?)
        }
        _ => Ok(RustType::element(alloc, element_text(alloc, module, table, name, node)?)),
    }
}

// How a type that is written by hand is read.
fn own_kind(node: &TypeNode<'_>) -> RustKind {
    match node.form {
        TypeForm::Choice(_) => RustKind::Choice,
        _ => RustKind::Element,
    }
}

// The type of a list: a struct, or the list itself.
fn list_type(
    alloc: Global,
    module: &Module<'_>,
    table: &Vec<RustType>,
    name: &str,
    index: usize,
    node: &TypeNode<'_>,
) -> Result<String, AllocError> {
    match list_field(module, index) {
        Some(_) => format!(in alloc; "{name}<'a>"),
        None => list_text(alloc, table, node),
    }
}

// The type of an element that is no list and no INTEGER, and has no tag in front of it.
fn element_text(
    alloc: Global,
    module: &Module<'_>,
    table: &Vec<RustType>,
    name: &str,
    node: &TypeNode<'_>,
) -> Result<String, AllocError> {
    match &node.form {
        TypeForm::Simple(SimpleType::OctetString) => {
            string_text(alloc, table, node, "OctetStringOf", "OctetStringRef<'a>")
        }
        TypeForm::Simple(simple) => String::from_str(alloc, simple_text(*simple)),
        TypeForm::Enumerated(items) if are_small(items) => format!(in alloc; "Enumerated<{name}>"),
        TypeForm::Enumerated(_) => String::from_str(alloc, "EnumeratedRef<'a>"),
        TypeForm::BitString(bits) if bits.is_empty() => {
            string_text(alloc, table, node, "BitStringOf", "BitStringRef<'a>")
        }
        TypeForm::BitString(_) => String::from_str(alloc, "NamedBitsRef<'a>"),
        TypeForm::Sequence(parts) => {
            let lifetime = fields_lifetime(module, table, parts);
            format!(in alloc; "{name}{lifetime}")
        }
        _ => Ok(String::new(alloc)),
    }
}

// The type of a string: `word` of the type whose encoding it contains, if that has a tag of its
// own, or else `plain`.
fn string_text(
    alloc: Global,
    table: &Vec<RustType>,
    node: &TypeNode<'_>,
    word: &str,
    plain: &str,
) -> Result<String, AllocError> {
    if let Some(of) = contained(node)
        && let Some(found) = table.get(of)
        && found.kind == RustKind::Element
    {
        let inside = found.text.as_str();
        return format!(in alloc; "{word}<{inside}>");
    }
    String::from_str(alloc, plain)
}

fn simple_text(simple: SimpleType) -> &'static str {
    match simple {
        SimpleType::Boolean => "BooleanRef<'a>",
        SimpleType::Null => "Null<'a>",
        SimpleType::ObjectIdentifier => "ObjectIdentifierRef<'a>",
        SimpleType::Utf8String => "Utf8StringRef<'a>",
        SimpleType::NumericString => "NumericStringRef<'a>",
        SimpleType::PrintableString => "PrintableStringRef<'a>",
        SimpleType::TeletexString => "TeletexStringRef<'a>",
        SimpleType::Ia5String => "Ia5StringRef<'a>",
        SimpleType::VisibleString => "VisibleStringRef<'a>",
        SimpleType::BmpString => "BmpStringRef<'a>",
        SimpleType::UtcTime => "UtcTime",
        SimpleType::GeneralizedTime => "GeneralizedTime",
        SimpleType::Unknown(9) => "RealRef<'a>",
        SimpleType::Unknown(13) => "RelativeOidRef<'a>",
        SimpleType::Unknown(21) => "VideotexStringRef<'a>",
        SimpleType::Unknown(27) => "GeneralStringRef<'a>",
        SimpleType::Unread => "SequenceRef<'a>",
        _ => "AnyRef<'a>",
    }
}

// The type of an INTEGER. One without two bounds that are 0 or more has any size and sign.
fn integer_text(
    alloc: Global,
    module: &Module<'_>,
    index: usize,
    numbers: &Vec<NamedNumber<'_>>,
    name: &str,
) -> Result<String, AllocError> {
    if is_closed(module, index, numbers) {
        return format!(in alloc; "NamedInteger<{name}>");
    }
    match bounds(module, index) {
        Some((low, high)) => format!(in alloc; "IntegerIn<{low}, {high}>"),
        None => String::from_str(alloc, "IntRef<'a>"),
    }
}

// The failure of a type that is right, and for which no text is written.
fn not_written<'a>(node: &TypeNode<'a>) -> Failure<'a> {
    Failure::Unsupported(Refusal::of(node.item, "a type for which the compiler has a form"))
}

// The lifetime of a SEQUENCE of these components.
fn fields_lifetime(
    module: &Module<'_>,
    table: &Vec<RustType>,
    components: &Vec<Component<'_>>,
) -> &'static str {
    for component in components.iter() {
        if has_lifetime(table, component.of) && !is_number(module, component) {
            return "<'a>";
        }
    }
    ""
}

// Whether the field of a component is a number of 64 bits.
fn is_number(module: &Module<'_>, component: &Component<'_>) -> bool {
    matches!(&component.presence, Presence::Default(_))
        && is_word(component.name)
        && matches!(base_form(module, component.of), Some(TypeForm::Integer(_)))
}

fn has_lifetime(table: &Vec<RustType>, index: usize) -> bool {
    match table.get(index) {
        Some(found) => found.has_lifetime,
        None => false,
    }
}

fn reference<'a>(
    alloc: Global,
    module: &Module<'a>,
    table: &Vec<RustType>,
    names: &Vec<String>,
    index: usize,
    node: &TypeNode<'a>,
) -> Result<RustType, Failure<'a>> {
    match find_type(module, node.item.text) {
        Some(of) => match narrowed(alloc, module, index, of)? {
            Some(text) => Ok(RustType::element(alloc, text)),
            None => Ok(named_type(alloc, module, table, names, of)?),
        },
        None => match module.imported.find(node.item.text) {
            Some(external) => Ok(external.of.copy(alloc)?),
            None => Err(not_written(node)),
        },
    }
}

// The type for the name with this index of an INTEGER, which is the type with the index `of`, if
// its bounds are others than those of that type.
fn narrowed(
    alloc: Global,
    module: &Module<'_>,
    index: usize,
    of: usize,
) -> Result<Option<String>, AllocError> {
    let Some((low, high)) = bounds(module, index) else {
        return Ok(None);
    };
    if bounds(module, of) == Some((low, high)) {
        return Ok(None);
    }
    let inside = format!(in alloc; "IntegerIn<{low}, {high}>")?;
    after_tags(alloc, module, of, inside)
}

/// The Rust type for a type that has a name in the module. `of` is the index of the type that is
/// assigned to the name.
pub fn named_type(
    alloc: Global,
    module: &Module<'_>,
    table: &Vec<RustType>,
    names: &Vec<String>,
    of: usize,
) -> Result<RustType, AllocError> {
    let Some(found) = table.get(of) else {
        return RustType::new(alloc, "", RustKind::Element);
    };
    if is_enumeration(module, of) {
        return found.copy(alloc);
    }
    let mut text = String::from_str(alloc, text_at(names, of))?;
    if found.has_lifetime {
        text.push_str("<'a>")?;
    }
    found.renamed(alloc, text.as_str())
}

/// The Rust type of a SEQUENCE OF or SET OF, with the Rust type of its items.
pub fn list_text(
    alloc: Global,
    table: &Vec<RustType>,
    node: &TypeNode<'_>,
) -> Result<String, AllocError> {
    match &node.form {
        TypeForm::SequenceOf(of) => {
            let items = text_of(table, *of);
            format!(in alloc; "SequenceOf<'a, {items}>")
        }
        TypeForm::SetOf(of) => {
            let items = text_of(table, *of);
            format!(in alloc; "SetOf<'a, {items}>")
        }
        _ => Ok(String::new(alloc)),
    }
}

fn text_of(table: &Vec<RustType>, index: usize) -> &str {
    match table.get(index) {
        Some(found) => found.text.as_str(),
        None => "",
    }
}

/// The Rust type of each component. It includes the tag that the component gets from AUTOMATIC
/// TAGS. It does not include what OPTIONAL and DEFAULT add.
pub fn component_types<'a>(
    alloc: Global,
    module: &Module<'a>,
    table: &Vec<RustType>,
    components: &Vec<Component<'a>>,
) -> Result<Vec<RustType>, Failure<'a>> {
    let mut types = Vec::new(alloc);
    for (count, component) in components.iter().enumerate() {
        match automatic_tag(module, components, count) {
            Some(prefix) => types.push(tagged(alloc, module, table, prefix, component.of)?)?,
            None => types.push(copy_at(alloc, table, component.of)?)?,
        }
    }
    Ok(types)
}

/// The tag that the component with this index gets from AUTOMATIC TAGS. `None` if it gets no tag
/// from AUTOMATIC TAGS.
pub fn automatic_tag(
    module: &Module<'_>,
    components: &Vec<Component<'_>>,
    count: usize,
) -> Option<TagPrefix> {
    if !are_numbered(components) {
        return None;
    }
    Some(numbered(automatic_number(components, count)))
}

fn copy_at(alloc: Global, table: &Vec<RustType>, index: usize) -> Result<RustType, AllocError> {
    match table.get(index) {
        Some(found) => found.copy(alloc),
        None => RustType::new(alloc, "", RustKind::Element),
    }
}

fn choice<'a>(
    alloc: Global,
    module: &Module<'a>,
    table: &Vec<RustType>,
    name: &str,
    components: &Vec<Component<'a>>,
    keeping: Option<&str>,
) -> Result<RustType, Failure<'a>> {
    let alternatives = alternatives(alloc, module, table, components, keeping)?;
    let lifetime = nest::lifetime_of(&alternatives);
    Ok(choice_of(alloc, name, lifetime, &alternatives)?)
}

fn choice_of(
    alloc: Global,
    name: &str,
    lifetime: &str,
    alternatives: &Vec<Alternative>,
) -> Result<RustType, AllocError> {
    let mut of = RustType {
        text: format!(in alloc; "{name}{lifetime}")?,
        kind: RustKind::Choice,
        has_lifetime: !lifetime.is_empty(),
        arms: String::new(alloc),
    };
    for alternative in alternatives.iter() {
        push_arm(&mut of.arms, name, alternative)?;
    }
    Ok(of)
}

// Adds the arm that checks the value of an alternative.
fn push_arm(out: &mut String, name: &str, alternative: &Alternative) -> Result<(), AllocError> {
    let variant = alternative.name.as_str();
    write!(out, "            {name}::{variant}(value) => ")?;
    alternative.of.push_check(out)?;
    out.push_str(",\n")
}
