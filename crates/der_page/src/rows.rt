//! Lines of text that describe elements.

use der_c_tree::{NO_ROOM, printed, put_value};
use der_print::{Characters, Form, Output, Printer, Space, Style, put_tag, put_text};
use schema_cursor::Cursor;
use schema_read::Entry;
use schema_types::{NodeKind, Schema};

/// Prints a line for each of `count` elements. The first one has the index `first`. A line has five
/// columns, with tabs between them:
///
/// - the name of the field;
/// - the name of the CHOICE alternative;
/// - the name of the type;
/// - the tag;
/// - the text of the value.
///
/// A column may be empty. Control characters and invisible characters are escaped in all columns.
/// Returns the number of octets printed, or `usize::MAX` if they do not fit in `text`, or if
/// `table` is not a table of types.
#[unsafe(no_mangle)]
pub extern "C" fn page_rows<'a>(
    table: &'a [u8],
    octets: &'a [u8],
    entries: &'a [Entry],
    first: usize,
    count: usize,
    text: &mut [u8],
) -> usize {
    let Ok(schema) = Schema::new(table) else {
        return NO_ROOM;
    };
    let mut printer = Printer::new(Output::to(Space::new(text)), Form::Lines);
    if let Some(root) = Cursor::over(octets, &schema, entries) {
        for index in first..first.saturating_add(count) {
            if let Some(element) = root.element(index) {
                put_row(&mut printer, element);
            }
        }
    }
    printed(&printer.out)
}

fn put_row(printer: &mut Printer<Space<'_>>, element: Cursor<'_>) {
    for name in [element.name(), element.alternative(), element.type_name()] {
        put_word(&mut printer.out, name.unwrap_or(""));
    }
    put_tag(printer, element);
    printer.out.put("\t");
    put_value(printer, element);
    printer.out.put("\n");
}

fn put_word(out: &mut Output<Space<'_>>, word: &str) {
    put_text(out, word.as_bytes(), Characters::Utf8, Style::Line);
    out.put("\t");
}

/// Sets each item of `shapes` to a letter for the element with the same index:
///
/// - `x` if the element stands for the value inside it, for example if it has an EXPLICIT tag;
/// - `l` if the element is a list;
/// - `o` for any other element.
///
/// If there is no element with this index, or if `table` is not a table of types, the item is
/// unchanged.
#[unsafe(no_mangle)]
pub extern "C" fn page_shapes<'a>(
    table: &'a [u8],
    octets: &'a [u8],
    entries: &'a [Entry],
    shapes: &mut [u8],
) {
    let Ok(schema) = Schema::new(table) else {
        return;
    };
    if let Some(root) = Cursor::over(octets, &schema, entries) {
        for index in 0..shapes.len() {
            if let Some(element) = root.element(index) {
                shapes[index] = letter_of(element);
            }
        }
    }
}

fn letter_of(element: Cursor<'_>) -> u8 {
    match element.kind() {
        Some(NodeKind::Explicit) => b'x',
        Some(NodeKind::SequenceOf | NodeKind::SetOf) => b'l',
        Some(_) if element.inner().is_some() => b'x',
        _ => b'o',
    }
}
