//! Encodings of DEFAULT values.

use crate::contents::{bit_contents, number_contents, simple_contents};
use crate::fields::wanted_of;
use crate::library::Library;
use crate::opener::Opener;
use crate::reach::reach;
use crate::values::{Words, WordsForm, value_named};
use crate::wanted::{Wanted, numbers_of};
use crate::wrong::Wrong;
use asn1_syntax::{Component, Item, Presence, SimpleType, TypeForm, Value};
use std::alloc::{AllocError, Global};

/// The greatest depth to which values may be nested. Each name and each tag that is followed counts
/// as one level.
const MAX_DEPTH: u32 = 64;

/// The DER encoding of a DEFAULT value. `None` if the compiler does not know how to encode the
/// value.
pub fn default_of<'a>(
    alloc: Global,
    library: &Library<'a>,
    wanted: &Wanted<'a>,
    value: &Value<'a>,
) -> Result<Option<Vec<u8>>, Wrong<'a>> {
    let words = Words::of_value(alloc, value)?;
    encoding(alloc, library, wanted, &words, MAX_DEPTH)
}

// The encoding of a value of this node.
#[cycle(encodings)]
fn encoding<'a>(
    alloc: Global,
    library: &Library<'a>,
    wanted: &Wanted<'a>,
    words: &Words<'a>,
    depth: u32,
) -> Result<Option<Vec<u8>>, Wrong<'a>> {
    let Some(node) = library.node(wanted.index) else {
        return Ok(None);
    };
    if depth == 0 {
        return Ok(None);
    }
    if wanted.is_around {
        let inside = Wanted {
            tag: None,
            is_around: false,
            ..*wanted
        };
        let contents = encoding(alloc, library, &inside, words, depth - 1)?;
        return Ok(element(alloc, wanted.tag_or(0), true, contents)?);
    }
    match &node.form {
        TypeForm::Tagged(prefix, of) => {
            let inside = reach(library, *of, None, Opener::NONE)?;
            let contents = encoding(alloc, library, &inside, words, depth - 1)?;
            let tag = numbers_of(wanted.tag.unwrap_or(prefix.tag));
            Ok(element(alloc, tag, true, contents)?)
        }
        TypeForm::Simple(SimpleType::Any) => open_value(alloc, library, words, depth - 1),
        form => {
            let contents = contents_of(alloc, library, form, words, depth - 1)?;
            if contents.is_none() && words.name().is_some() {
                return named(alloc, library, wanted, words, depth - 1);
            }
            let tag = wanted.tag_or(number_of(form));
            Ok(element(alloc, tag, is_constructed(form), contents)?)
        }
    }
}

// The encoding of the value with the name that a value is.
#[cycle(encodings)]
fn named<'a>(
    alloc: Global,
    library: &Library<'a>,
    wanted: &Wanted<'a>,
    words: &Words<'a>,
    depth: u32,
) -> Result<Option<Vec<u8>>, Wrong<'a>> {
    if depth == 0 {
        return Ok(None);
    }
    let Some(name) = words.name() else {
        return Ok(None);
    };
    let Some(value) = value_named(library, name.text) else {
        return Ok(None);
    };
    let words = Words::of_value(alloc, value)?;
    encoding(alloc, library, wanted, &words, depth - 1)
}

// The encoding of a value with its type in front of it.
#[cycle(encodings)]
fn open_value<'a>(
    alloc: Global,
    library: &Library<'a>,
    words: &Words<'a>,
    depth: u32,
) -> Result<Option<Vec<u8>>, Wrong<'a>> {
    let items = words.items.as_slice();
    let (Some(of), Some(colon)) = (items.first(), colon_in(items)) else {
        return Ok(None);
    };
    let of = *of;
    let words = Words::of(alloc, items.get(colon.saturating_add(1)..).unwrap_or(&[]))?;
    if depth == 0 {
        return Ok(None);
    }
    if let Some(simple) = simple_type(of) {
        let contents = simple_contents(alloc, library, simple, &words)?;
        let tag = (0, number_of(&TypeForm::Simple(simple)));
        return Ok(element(alloc, tag, false, contents)?);
    }
    match library.find_anywhere(of.text) {
        Some(index) => {
            let wanted = reach(library, index, None, Opener::NONE)?;
            encoding(alloc, library, &wanted, &words, depth - 1)
        }
        None => Ok(None),
    }
}

// The index of the colon that is after a type of one word or two.
fn colon_in(items: &[Item<'_>]) -> Option<usize> {
    for (index, item) in items.iter().enumerate().take(3) {
        if item.is(":") {
            return Some(index);
        }
    }
    None
}

// The simple type that begins with this item.
fn simple_type(of: Item<'_>) -> Option<SimpleType> {
    match of.text {
        "OCTET" => Some(SimpleType::OctetString),
        "OBJECT" => Some(SimpleType::ObjectIdentifier),
        word => SimpleType::of(word),
    }
}

// The contents of a value of a type that is made so.
#[cycle(encodings)]
fn contents_of<'a>(
    alloc: Global,
    library: &Library<'a>,
    form: &TypeForm<'a>,
    words: &Words<'a>,
    depth: u32,
) -> Result<Option<Vec<u8>>, Wrong<'a>> {
    match form {
        TypeForm::Simple(simple) => Ok(simple_contents(alloc, library, *simple, words)?),
        TypeForm::Integer(names) | TypeForm::Enumerated(names) => {
            Ok(number_contents(alloc, library, names, words)?)
        }
        TypeForm::BitString(names) => Ok(bit_contents(alloc, names, words)?),
        TypeForm::SequenceOf(_) | TypeForm::SetOf(_) if words.is_empty_braces() => {
            Ok(Some(Vec::new(alloc)))
        }
        TypeForm::Sequence(components) => {
            components_of(alloc, library, components, words, depth)
        }
        _ => Ok(None),
    }
}

// The contents of a SEQUENCE of these components.
#[cycle(encodings)]
fn components_of<'a>(
    alloc: Global,
    library: &Library<'a>,
    components: &Vec<Component<'a>>,
    words: &Words<'a>,
    depth: u32,
) -> Result<Option<Vec<u8>>, Wrong<'a>> {
    let mut contents = Vec::new(alloc);
    if !words.is_braces() || depth == 0 {
        return Ok(None);
    }
    for (index, component) in components.iter().enumerate() {
        let Some(items) = words.component(component.name.text) else {
            if matches!(component.presence, Presence::Required) {
                return Ok(None);
            }
            continue;
        };
        let wanted = wanted_of(library, components, index, 0, None)?;
        let Some(octets) = component_value(alloc, library, &wanted, items, depth - 1)? else {
            return Ok(None);
        };
        contents.extend_from_slice(octets.as_slice())?;
    }
    Ok(Some(contents))
}

// The encoding of the value of a component.
#[cycle(encodings)]
fn component_value<'a>(
    alloc: Global,
    library: &Library<'a>,
    wanted: &Wanted<'a>,
    items: &[Item<'a>],
    depth: u32,
) -> Result<Option<Vec<u8>>, Wrong<'a>> {
    if depth == 0 {
        return Ok(None);
    }
    let words = match colon_in(items) {
        Some(_) => Words::new(alloc, WordsForm::Braces, items)?,
        None => Words::of(alloc, items)?,
    };
    encoding(alloc, library, wanted, &words, depth - 1)
}

// The number of the universal tag of a type that is made so.
fn number_of(form: &TypeForm<'_>) -> u32 {
    match form {
        TypeForm::Simple(simple) => u32::try_from(simple.tag_number().unwrap_or(0)).unwrap_or(0),
        TypeForm::Integer(_) => 2,
        TypeForm::BitString(_) => 3,
        TypeForm::Enumerated(_) => 10,
        TypeForm::SetOf(_) | TypeForm::Set(_) => 17,
        _ => 16,
    }
}

fn is_constructed(form: &TypeForm<'_>) -> bool {
    matches!(
        form,
        TypeForm::Sequence(_) | TypeForm::SequenceOf(_) | TypeForm::SetOf(_)
    )
}

// The element with this tag around contents, if they are known.
fn element(
    alloc: Global,
    tag: (u32, u32),
    is_constructed: bool,
    contents: Option<Vec<u8>>,
) -> Result<Option<Vec<u8>>, AllocError> {
    let Some(contents) = contents else {
        return Ok(None);
    };
    let (class, number) = tag;
    let mut octets = Vec::new(alloc);
    let first = (class.min(3) * 64) as u8 + if is_constructed { 32 } else { 0 };
    if number < 31 {
        octets.push(first + number as u8)?;
    } else {
        octets.push(first + 31)?;
        push_number(&mut octets, number)?;
    }
    push_length(&mut octets, contents.len())?;
    octets.extend_from_slice(contents.as_slice())?;
    Ok(Some(octets))
}

// Adds the octets of a tag's number of 31 and more (X.690, 8.1.2.4).
fn push_number(octets: &mut Vec<u8>, number: u32) -> Result<(), AllocError> {
    for count in 1..5u32 {
        let rest = number >> (7 * (5 - count));
        if rest > 0 {
            octets.push((rest % 128) as u8 | 128)?;
        }
    }
    octets.push((number % 128) as u8)?;
    Ok(())
}

// Adds the octets of a length (X.690, 10.1).
fn push_length(octets: &mut Vec<u8>, length: usize) -> Result<(), AllocError> {
    if length < 128 {
        octets.push(length as u8)?;
        return Ok(());
    }
    let digits = (length as u64).to_be_bytes();
    let mut count = 0u8;
    for digit in digits {
        if count > 0 || digit != 0 {
            count = count.saturating_add(1);
        }
    }
    octets.push(128u8.saturating_add(count))?;
    for digit in digits.iter().skip(8usize.saturating_sub(count as usize)) {
        octets.push(*digit)?;
    }
    Ok(())
}
