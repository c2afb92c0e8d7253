//! Values of elements, and functions that print them.

use crate::page::Page;
use crate::tags::tag_of_universal;
use crate::text::{
    Output, Style, Target, long_name, put_arcs, put_identifier, put_integer, put_octets,
    put_octets_with, put_time, put_value_text, short_name, small_number,
};
use ber::Universal;
use der::Tag;
use schema_cursor::{Children, Cursor};
use std::fmt::Write;

/// The contents octets of an element. If the element has an EXPLICIT tag, the contents octets of
/// the element inside.
pub fn contents(element: Cursor<'_>) -> &[u8] {
    element.untagged().contents()
}

/// The elements of a SEQUENCE OF or a SET OF.
pub fn items(list: Cursor<'_>) -> Children<'_> {
    list.untagged().children()
}

/// The octets of a BIT STRING, without the first contents octet, which counts the unused bits.
pub fn bit_octets(bits: Cursor<'_>) -> &[u8] {
    contents(bits).get(1..).unwrap_or(&[])
}

/// Whether the element is primitive and of the type `universal`. If the element has an EXPLICIT
/// tag, this is said of the element inside.
pub fn is_of(element: Cursor<'_>, universal: Universal) -> bool {
    let value = element.untagged();
    value.universal() == Some(universal) && !value.is_constructed()
}

/// Whether the table of types has a type for the element.
pub fn is_typed(element: Cursor<'_>) -> bool {
    element.node().is_some()
}

/// The [`Tag`] of the universal type of an element. `None` if the element has no universal type, or
/// if the crate `der` has no such tag.
pub fn tag_of(element: Cursor<'_>) -> Option<Tag> {
    tag_of_universal(element.untagged().universal()?)
}

/// Returns `octets` without a leading zero octet. A single zero octet is kept. `octets` are the
/// contents octets of an INTEGER.
pub fn digits_of(octets: &[u8]) -> &[u8] {
    match octets {
        [0, rest @ ..] if !rest.is_empty() => rest,
        all => all,
    }
}

/// Prints the text of a string or a time, and returns true. If the element is of another type, or
/// if its contents are not text, prints nothing and returns false.
pub fn put_text_of<T: Target>(out: &mut Output<T>, element: Cursor<'_>, style: Style) -> bool {
    match tag_of(element) {
        Some(tag) if !element.untagged().is_constructed() => {
            put_value_text(out, tag, contents(element), style)
        }
        _ => false,
    }
}

/// Prints the text of a string, or the arcs of an OBJECT IDENTIFIER. For any other element, prints
/// the contents octets in hexadecimal.
pub fn put_text_or_octets(page: &mut Page<'_>, element: Cursor<'_>) {
    if is_of(element, Universal::ObjectIdentifier) {
        put_arcs(&mut page.out, contents(element));
        return;
    }
    if !put_text_of(&mut page.out, element, Style::Line) {
        put_octets(&mut page.out, contents(element));
    }
}

/// Prints a time. An element that is not a time in DER is printed as text if it is a string, and
/// otherwise in hexadecimal.
pub fn put_time_of(page: &mut Page<'_>, element: Cursor<'_>) {
    let is_time = match tag_of(element) {
        Some(tag) => put_time(&mut page.out, tag, contents(element)),
        None => false,
    };
    if !is_time && !put_text_of(&mut page.out, element, Style::Line) {
        put_octets(&mut page.out, contents(element));
    }
}

/// Prints the long name and the arcs of an OBJECT IDENTIFIER. If it has no known name, prints only
/// the arcs.
pub fn put_identifier_of(page: &mut Page<'_>, element: Cursor<'_>) {
    put_identifier(&mut page.out, contents(element));
}

/// Prints the long name of an OBJECT IDENTIFIER. If it has no known name, prints its arcs.
/// `identifier` are the contents octets.
pub fn put_long(page: &mut Page<'_>, identifier: &[u8]) {
    match long_name(identifier) {
        Some(name) => page.put(name),
        None => put_arcs(&mut page.out, identifier),
    }
}

/// Prints the short name of an OBJECT IDENTIFIER. If it has no known name, prints its arcs.
/// `identifier` are the contents octets.
pub fn put_short(page: &mut Page<'_>, identifier: &[u8]) {
    match short_name(identifier) {
        Some(name) => page.put(name),
        None => put_arcs(&mut page.out, identifier),
    }
}

/// The value of an INTEGER. `None` if it is negative, or 2^53 or more.
pub fn small(element: Cursor<'_>) -> Option<u64> {
    small_number(contents(element))
}

/// Prints an INTEGER. A number from 0 to 2^53 - 1 is printed in decimal, and any other number in
/// hexadecimal.
pub fn put_small(page: &mut Page<'_>, element: Cursor<'_>) {
    match small(element) {
        Some(number) => page.number(number),
        None => {
            page.put("0x");
            put_integer(&mut page.out, contents(element));
        }
    }
}

/// Prints an INTEGER in decimal. A number that is negative or has more than 128 bits is printed in
/// hexadecimal.
pub fn put_decimal(page: &mut Page<'_>, element: Cursor<'_>) {
    match wide_number(contents(element)) {
        Some(number) => {
            let _ = write!(page.out, "{number}");
        }
        None => {
            page.put("0x");
            put_integer(&mut page.out, contents(element));
        }
    }
}

fn wide_number(octets: &[u8]) -> Option<u128> {
    let digits = match octets {
        [0x80..=0xFF, ..] | [] => return None,
        [0, rest @ ..] => rest,
        all => all,
    };
    if digits.len() > 16 {
        return None;
    }
    let mut number = 0u128;
    for octet in digits {
        number = number.checked_mul(256)?.checked_add(u128::from(*octet))?;
    }
    Some(number)
}

/// Prints octets in hexadecimal, with `:` between two octets.
pub fn put_colons(page: &mut Page<'_>, octets: &[u8]) {
    put_octets_with(&mut page.out, octets, true);
}
