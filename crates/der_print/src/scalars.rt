//! Printing of values that have no inner elements.

use crate::form::Form;
use crate::printer::Printer;
use crate::tags::{put_header_tag, tag_of_universal};
use crate::text::{
    Characters, Style, Target, is_text, long_name, put_arcs, put_identifier, put_iso_time,
    put_octets, put_some_octets, put_value_text, small_number,
};
use crate::values::tag_of;
use ber::read_header;
use der::Tag;
use schema_cursor::Cursor;

/// A line shows at most this number of octets of a value.
const SHOWN: usize = 32;

/// Prints the value of a primitive element in the format of `printer`. The caller has already
/// printed the name of the value.
pub fn put_value<T: Target>(printer: &mut Printer<T>, value: Cursor<'_>) {
    match printer.form {
        Form::Json => put_json(printer, value),
        Form::Lines => {
            printer.out.put(" ");
            put_plain(printer, value);
        }
    }
    printer.end_value();
}

fn put_json<T: Target>(printer: &mut Printer<T>, value: Cursor<'_>) {
    let contents = value.contents();
    match tag_of(value) {
        Some(Tag::Boolean | Tag::Null | Tag::Integer | Tag::Enumerated) => {
            put_json_number(printer, value);
        }
        Some(Tag::BitString) => put_json_bits(printer, value),
        Some(Tag::ObjectIdentifier) => put_json_identifier(printer, contents),
        tag => {
            printer.out.put("\"");
            put_json_text(printer, tag.unwrap_or(Tag::OctetString), contents);
            printer.out.put("\"");
        }
    }
}

fn put_json_number<T: Target>(printer: &mut Printer<T>, value: Cursor<'_>) {
    let contents = value.contents();
    match (tag_of(value), small_number(contents)) {
        (Some(Tag::Null), _) => printer.out.put("null"),
        (Some(Tag::Boolean), _) => {
            let is_true = contents != [0].as_slice();
            printer.out.put(if is_true { "true" } else { "false" });
        }
        (Some(Tag::Enumerated), Some(number)) => match value.number_name() {
            Some(name) => {
                printer.out.put("\"");
                printer.out.put(name);
                printer.out.put("\"");
            }
            None => printer.out.put_number(number),
        },
        (_, Some(number)) => printer.out.put_number(number),
        (_, None) => {
            printer.out.put("\"");
            put_octets(&mut printer.out, contents);
            printer.out.put("\"");
        }
    }
}

fn has_names(value: Cursor<'_>) -> bool {
    match value.node() {
        Some(node) => node.parts.count > 0,
        None => false,
    }
}

fn put_json_bits<T: Target>(printer: &mut Printer<T>, value: Cursor<'_>) {
    if has_names(value) && value.bit_names().is_some() {
        printer.out.put("[");
        put_bit_names(printer, value, "\"");
        printer.out.put("]");
        return;
    }
    let (unused, octets) = match value.contents() {
        [first, rest @ ..] => (*first, rest),
        [] => (0, value.contents()),
    };
    printer.out.put("{\"unusedBits\": ");
    printer.out.put_number(u64::from(unused));
    printer.out.put(", \"octets\": \"");
    put_octets(&mut printer.out, octets);
    printer.out.put("\"}");
}

// The names of the bits that are one, as `a, b`, between quotes.
fn put_bit_names<T: Target>(printer: &mut Printer<T>, value: Cursor<'_>, quote: &str) {
    let Some(names) = value.bit_names() else {
        return;
    };
    let mut is_first = true;
    for name in names {
        if !is_first {
            printer.out.put(", ");
        }
        is_first = false;
        printer.out.put(quote);
        printer.out.put(name);
        printer.out.put(quote);
    }
}

fn put_json_identifier<T: Target>(printer: &mut Printer<T>, contents: &[u8]) {
    printer.out.put("{\"arcs\": \"");
    put_arcs(&mut printer.out, contents);
    printer.out.put("\"");
    if let Some(name) = long_name(contents) {
        printer.out.put(", \"name\": \"");
        printer.out.put(name);
        printer.out.put("\"");
    }
    printer.out.put("}");
}

// The text between the quotes: that of a time or a string, or else hexadecimal digits.
fn put_json_text<T: Target>(printer: &mut Printer<T>, tag: Tag, contents: &[u8]) {
    if put_iso_time(&mut printer.out, tag, contents) {
        return;
    }
    if !put_value_text(&mut printer.out, tag, contents, Style::Json) {
        put_octets(&mut printer.out, contents);
    }
}

/// Prints the value of a primitive element as text on a line. Does not end the line.
pub fn put_plain<T: Target>(printer: &mut Printer<T>, value: Cursor<'_>) {
    let contents = value.contents();
    match (tag_of(value), contents) {
        (Some(Tag::Integer | Tag::Enumerated), _) => put_plain_number(printer, value),
        (Some(Tag::BitString), _) if has_names(value) && value.bit_names().is_some() => {
            put_bit_names(printer, value, "");
        }
        (Some(Tag::BitString), [_, bits @ ..]) => put_some_octets(&mut printer.out, bits, SHOWN),
        (tag, _) => put_plain_text(printer, tag.unwrap_or(Tag::OctetString), contents),
    }
}

fn put_plain_number<T: Target>(printer: &mut Printer<T>, value: Cursor<'_>) {
    match small_number(value.contents()) {
        Some(number) => {
            if let Some(name) = value.number_name() {
                printer.out.put(name);
                printer.out.put(" (");
                printer.out.put_number(number);
                printer.out.put(")");
            } else {
                printer.out.put_number(number);
            }
        }
        None => put_some_octets(&mut printer.out, value.contents(), SHOWN),
    }
}

/// Prints the value of a primitive element as text on a line, if the table of types has no type for
/// the element. Its tag decides how the value is printed. Does not end the line.
pub fn put_plain_element<T: Target>(printer: &mut Printer<T>, element: Cursor<'_>) {
    let tag = own_tag(element).unwrap_or(Tag::OctetString);
    put_plain_text(printer, tag, element.contents());
}

// Contents on a line: the names of an identifier, a time, a text, or the first octets.
fn put_plain_text<T: Target>(printer: &mut Printer<T>, tag: Tag, contents: &[u8]) {
    match tag {
        Tag::Null => printer.out.put("NULL"),
        Tag::Boolean => {
            let is_true = contents != [0].as_slice();
            printer.out.put(if is_true { "TRUE" } else { "FALSE" });
        }
        Tag::ObjectIdentifier => put_identifier(&mut printer.out, contents),
        _ => {
            if !put_iso_time(&mut printer.out, tag, contents)
                && !put_value_text(&mut printer.out, tag, contents, Style::Line)
            {
                put_some_octets(&mut printer.out, contents, SHOWN);
            }
        }
    }
}

/// Prints the octets of a constructed string in hexadecimal. The contents of its segments are
/// joined (X.690 8.7.3).
pub fn put_joined<T: Target>(printer: &mut Printer<T>, string: Cursor<'_>) {
    match printer.form {
        Form::Json => {
            printer.out.put("\"");
            put_segments(printer, string, usize::MAX);
            printer.out.put("\"");
        }
        Form::Lines => {
            printer.out.put(" ");
            put_segments(printer, string, SHOWN);
        }
    }
    printer.end_value();
}

// Prints the first octets of the segments, and `..` if there are more.
fn put_segments<T: Target>(printer: &mut Printer<T>, string: Cursor<'_>, most: usize) {
    let mut left = most;
    for index in string.index()..usize::MAX {
        let Some(segment) = string.element(index) else {
            return;
        };
        if index > string.index() && segment.entry().depth <= string.entry().depth {
            return;
        }
        if !segment.is_constructed() {
            let octets = segment.contents();
            put_some_octets(&mut printer.out, octets, left);
            if octets.len() > left {
                return;
            }
            left = left.saturating_sub(octets.len());
        }
    }
}

/// Prints the tag in the header of `element`.
pub fn put_tag<T: Target>(printer: &mut Printer<T>, element: Cursor<'_>) {
    match read_header(element.octets()) {
        Ok(header) => put_header_tag(&mut printer.out, header),
        Err(_) => printer.out.put("unknown"),
    }
}

// The universal tag of the header of an element.
fn own_tag(element: Cursor<'_>) -> Option<Tag> {
    match read_header(element.octets()) {
        Ok(header) => tag_of_universal(header.universal()?),
        Err(_) => None,
    }
}

/// Prints the tag and the value of a primitive element in the format of `printer`, if the table of
/// types has no type for the element. The caller has already printed the name of the value.
pub fn put_element<T: Target>(printer: &mut Printer<T>, element: Cursor<'_>) {
    let tag = own_tag(element).unwrap_or(Tag::OctetString);
    match printer.form {
        Form::Json => put_json_element(printer, tag, element),
        Form::Lines => {
            printer.out.put(" ");
            put_tag(printer, element);
            printer.out.put(": ");
            put_plain_text(printer, tag, element.contents());
        }
    }
    printer.end_value();
}

// An object with the tag, and with the text of a string or else the octets.
fn put_json_element<T: Target>(printer: &mut Printer<T>, tag: Tag, element: Cursor<'_>) {
    let contents = element.contents();
    printer.out.put("{\"tag\": \"");
    put_tag(printer, element);
    printer.out.put("\", ");
    if tag == Tag::ObjectIdentifier {
        printer.out.put("\"value\": \"");
        put_arcs(&mut printer.out, contents);
    } else if is_shown(tag, contents) {
        printer.out.put("\"value\": \"");
        put_json_text(printer, tag, contents);
    } else {
        printer.out.put("\"octets\": \"");
        put_octets(&mut printer.out, contents);
    }
    printer.out.put("\"}");
}

// Whether the contents are the text of a string or a time.
fn is_shown(tag: Tag, contents: &[u8]) -> bool {
    match tag {
        Tag::Utf8String
        | Tag::NumericString
        | Tag::PrintableString
        | Tag::Ia5String
        | Tag::VisibleString
        | Tag::UtcTime
        | Tag::GeneralizedTime => is_text(contents, Characters::Utf8),
        Tag::TeletexString => is_text(contents, Characters::Latin),
        Tag::BmpString => is_text(contents, Characters::Wide),
        _ => false,
    }
}
