//! Printing of an OCTET STRING whose contents are of an unknown type.

use crate::page::Page;
use crate::text::{Element, Elements, Style, put_arcs, put_octets, put_value_text};
use crate::values::put_colons;
use der::{EncodingRules, Tag};
use schema_cursor::Cursor;
use std::fmt::Write;

/// Prints the contents of an OCTET STRING in hexadecimal.
pub fn put_whole_octets(page: &mut Page<'_>, value: Cursor<'_>) {
    page.at(value);
    put_colons(page, value.contents());
    page.end();
}

/// Prints a line with the contents of an OCTET STRING. If the contents are exactly one primitive
/// element, the line shows the tag and the value of this element: its text, or the arcs of an
/// OBJECT IDENTIFIER, or else its contents octets in hexadecimal. Otherwise the line shows all
/// octets in hexadecimal.
pub fn put_element_line(page: &mut Page<'_>, value: Cursor<'_>) {
    let mut inside = Elements::new(value.contents(), 0, EncodingRules::Der);
    let Some(element) = inside.take_first() else {
        put_whole_octets(page, value);
        return;
    };
    if element.is_constructed || !inside.is_finished() {
        put_whole_octets(page, value);
        return;
    }
    page.at_inside(value);
    let tag = element.tag;
    let _ = write!(page.out, "{tag}: ");
    put_read(page, &element);
    page.end();
}

fn put_read(page: &mut Page<'_>, element: &Element<'_>) {
    if element.tag == Tag::ObjectIdentifier {
        put_arcs(&mut page.out, element.contents);
        return;
    }
    if !put_value_text(&mut page.out, element.tag, element.contents, Style::Line) {
        put_octets(&mut page.out, element.contents);
    }
}
