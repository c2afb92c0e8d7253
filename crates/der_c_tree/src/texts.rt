//! The names, types and values of the elements of a tree, as text.

use crate::answer::NO_ROOM;
use crate::ended::ended;
use crate::find::element_at;
use crate::output::printed;
use crate::value::put_value;
use der_print::{Characters, Form, Output, Printer, Space, Style, put_text};
use schema_read::Entry;
use schema_types::Schema;

/// Writes the name of the element with the index `index`, and a zero octet. It is the name of the
/// field or of the CHOICE alternative; the name is empty if there is none. Returns the number of
/// octets of the name, without the zero octet. Returns `SIZE_MAX` if `text` is too short, if
/// `table` is not a table of types, or if there is no element with this index.
pub fn der_tree_name<'a>(
    table: &'a [u8],
    octets: &'a [u8],
    entries: &'a [Entry],
    index: usize,
    text: &mut [u8],
) -> usize {
    let count = put(table, octets, entries, index, Part::Name, text);
    ended(text, count)
}

/// Writes the name of the type of the element with the index `index`, and a zero octet. The name is
/// empty if the type has no name. Returns the number of octets of the name, without the zero octet.
/// Returns `SIZE_MAX` if `text` is too short, if `table` is not a table of types, or if there is no
/// element with this index.
pub fn der_tree_type<'a>(
    table: &'a [u8],
    octets: &'a [u8],
    entries: &'a [Entry],
    index: usize,
    text: &mut [u8],
) -> usize {
    let count = put(table, octets, entries, index, Part::Type, text);
    ended(text, count)
}

/// Writes a text for the element with the index `index`, and a zero octet. The text is:
///
/// - for a primitive element, its value;
/// - for a distinguished name, the name;
/// - for any other element that begins with an OBJECT IDENTIFIER, this OBJECT IDENTIFIER;
/// - for any other element, empty.
///
/// Returns the number of octets of the text, without the zero octet. Returns `SIZE_MAX` if `text`
/// is too short, if `table` is not a table of types, or if there is no element with this index.
pub fn der_tree_text<'a>(
    table: &'a [u8],
    octets: &'a [u8],
    entries: &'a [Entry],
    index: usize,
    text: &mut [u8],
) -> usize {
    let count = put(table, octets, entries, index, Part::Value, text);
    ended(text, count)
}

// What is printed of an element.
#[derive(Clone, Copy)]
enum Part {
    Name,
    Type,
    Value,
}

// Prints a part of an element.
fn put<'a>(
    table: &'a [u8],
    octets: &'a [u8],
    entries: &'a [Entry],
    index: usize,
    part: Part,
    text: &mut [u8],
) -> usize {
    let Ok(schema) = Schema::new(table) else {
        return NO_ROOM;
    };
    let Some(element) = element_at(octets, &schema, entries, index) else {
        return NO_ROOM;
    };
    let mut printer = Printer::new(Output::to(Space::new(text)), Form::Lines);
    match part {
        Part::Name => put_word(&mut printer.out, element.name()),
        Part::Type => put_word(&mut printer.out, element.type_name()),
        Part::Value => put_value(&mut printer, element),
    }
    printed(&printer.out)
}

// Prints a word, if there is one.
fn put_word(out: &mut Output<Space<'_>>, word: Option<&str>) {
    if let Some(word) = word {
        put_text(out, word.as_bytes(), Characters::Utf8, Style::Line);
    }
}
