//! Prints lines with a title and the value of an element. Except for [`version_line`], a function
//! prints nothing if the element is `None`.

use crate::page::Page;
use crate::text::{put_integer, put_octets, put_octets_with};
use crate::values::{
    contents, digits_of, put_decimal, put_identifier_of, put_long, put_small, put_text_or_octets,
    put_time_of,
};
use schema_cursor::Cursor;
use std::fmt::Write;

fn begin(page: &mut Page<'_>, title: &str, element: Cursor<'_>) {
    page.at(element);
    page.put(title);
}

/// Prints a line with `title` and a time.
pub fn time_line(page: &mut Page<'_>, title: &str, element: Option<Cursor<'_>>) {
    if let Some(element) = element {
        begin(page, title, element);
        put_time_of(page, element);
        page.end();
    }
}

/// Prints a line with `title`, and the name and the arcs of an OBJECT IDENTIFIER.
pub fn identifier_line(page: &mut Page<'_>, title: &str, element: Option<Cursor<'_>>) {
    if let Some(element) = element {
        begin(page, title, element);
        put_identifier_of(page, element);
        page.end();
    }
}

/// Prints a line with `title`, and the name of an OBJECT IDENTIFIER. If it has no known name,
/// prints its arcs.
pub fn name_line(page: &mut Page<'_>, title: &str, element: Option<Cursor<'_>>) {
    if let Some(element) = element {
        begin(page, title, element);
        put_long(page, contents(element));
        page.end();
    }
}

/// Prints a line with `title`, and an INTEGER in hexadecimal.
pub fn serial_line(page: &mut Page<'_>, title: &str, element: Option<Cursor<'_>>) {
    if let Some(element) = element {
        begin(page, title, element);
        put_integer(&mut page.out, contents(element));
        page.end();
    }
}

/// Prints a line with `title`, and a serial number as `openssl x509 -text` writes it. A number in
/// the range of an `i64` is printed in decimal and hexadecimal, and any other number in
/// hexadecimal.
pub fn long_serial_line(page: &mut Page<'_>, title: &str, element: Option<Cursor<'_>>) {
    if let Some(element) = element {
        begin(page, title, element);
        match (element.number(), contents(element)) {
            (Some(number), _) => {
                let sign = if number < 0 { "-" } else { "" };
                let size = number.unsigned_abs();
                let _ = write!(page.out, "{number} ({sign}{size:#x})");
            }
            (None, [0x80..=0xFF, ..]) => put_integer(&mut page.out, contents(element)),
            (None, octets) => put_octets_with(&mut page.out, digits_of(octets), false),
        }
        page.end();
    }
}

/// Prints a line with `title`, and an INTEGER. A number from 0 to 2^53 - 1 is printed in decimal,
/// and any other number in hexadecimal.
pub fn number_line(page: &mut Page<'_>, title: &str, element: Option<Cursor<'_>>) {
    if let Some(element) = element {
        begin(page, title, element);
        put_small(page, element);
        page.end();
    }
}

/// Prints a line with `title`, and an INTEGER in decimal. A number that is negative or has more
/// than 128 bits is printed in hexadecimal.
pub fn decimal_line(page: &mut Page<'_>, title: &str, element: Option<Cursor<'_>>) {
    if let Some(element) = element {
        begin(page, title, element);
        put_decimal(page, element);
        page.end();
    }
}

/// Prints a line with `title`, and the contents octets of the element in hexadecimal.
pub fn octets_line(page: &mut Page<'_>, title: &str, element: Option<Cursor<'_>>) {
    if let Some(element) = element {
        begin(page, title, element);
        put_octets(&mut page.out, contents(element));
        page.end();
    }
}

/// Prints a line with `title`, and the contents octets of the element in hexadecimal. Between two
/// octets is a `:`.
pub fn colons_line(page: &mut Page<'_>, title: &str, element: Option<Cursor<'_>>) {
    if let Some(element) = element {
        begin(page, title, element);
        put_octets_with(&mut page.out, contents(element), true);
        page.end();
    }
}

/// Prints a line with `title`, and the text of a string or the arcs of an OBJECT IDENTIFIER. Of any
/// other element, prints the contents octets in hexadecimal.
pub fn text_line(page: &mut Page<'_>, title: &str, element: Option<Cursor<'_>>) {
    if let Some(element) = element {
        begin(page, title, element);
        put_text_or_octets(page, element);
        page.end();
    }
}

/// Prints a line with `title` and a number of octets: the number of contents octets of the element,
/// minus `skipped`.
pub fn count_line(page: &mut Page<'_>, title: &str, element: Option<Cursor<'_>>, skipped: usize) {
    if let Some(element) = element {
        begin(page, title, element);
        page.number(contents(element).len().saturating_sub(skipped) as u64);
        page.put(" octets");
        page.end();
    }
}

/// Prints a line with a version. The version is one more than the number in the element. If
/// `element` is `None`, prints version 1.
pub fn version_line(page: &mut Page<'_>, element: Option<Cursor<'_>>) {
    page.at_or_beside(element);
    let number = match element {
        Some(element) => crate::values::small(element).unwrap_or(0),
        None => 0,
    };
    page.version(number);
}
