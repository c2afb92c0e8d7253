//! Prints distinguished names.

use crate::page::Page;
use crate::text::{Output, Style, Target, put_arcs, put_octets, short_name};
use crate::values::{contents, items, put_text_of};
use schema_cursor::Cursor;

/// Prints a distinguished name on one line, as openssl does. The parts are in the order of the
/// encoding. Values are escaped as RFC 4514 says, and are never shortened.
pub fn put_name<T: Target>(out: &mut Output<T>, name: Cursor<'_>) {
    let mut is_first = true;
    for level in items(name) {
        if !is_first {
            out.put(", ");
        }
        is_first = false;
        put_level(out, level);
    }
}

/// Prints the attributes of a RelativeDistinguishedName, with `+` between two attributes.
pub fn put_level<T: Target>(out: &mut Output<T>, level: Cursor<'_>) {
    let mut is_first = true;
    for attribute in items(level) {
        if !is_first {
            out.put(" + ");
        }
        is_first = false;
        put_attribute(out, attribute);
    }
}

// The type, `=` and the value. A value of a type without a name, or one that is no text, is `#` and the
// encoding of the value in hexadecimal (RFC 4514, 2.4).
fn put_attribute<T: Target>(out: &mut Output<T>, attribute: Cursor<'_>) {
    let (Some(kind), Some(value)) = (attribute.at("type"), attribute.at("value")) else {
        out.put("#");
        put_octets(out, attribute.octets());
        return;
    };
    let is_text = match short_name(contents(kind)) {
        Some(name) => {
            out.put(name);
            out.put("=");
            put_text_of(out, value, Style::Name)
        }
        None => {
            put_arcs(out, contents(kind));
            out.put("=");
            false
        }
    };
    if !is_text {
        out.put("#");
        put_octets(out, value.octets());
    }
}

/// Prints a line with `title` and a distinguished name. Prints nothing if `name` is `None`.
pub fn put_name_line(page: &mut Page<'_>, title: &str, name: Option<Cursor<'_>>) {
    if let Some(name) = name {
        page.at(name);
        page.put(title);
        put_name(&mut page.out, name);
        page.end();
    }
}
