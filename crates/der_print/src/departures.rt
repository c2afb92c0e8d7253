//! Prints departures: the places at which octets break a rule of DER.

use crate::text::{Characters, Output, Style, Target, put_octets, put_text};
use ber::read_element;
use schema_cursor::Cursor;
use schema_read::{Departure, Rule};
use std::fmt;
use std::fmt::Write;

/// For each departure, at most this number of octets of its element are printed.
pub const FOUND: usize = 16;

/// Prints a departure as a JSON object with these fields:
///
/// - the path of the element at which the octets depart from DER;
/// - the offset of the element: `base` plus its offset in `octets`;
/// - the section of the standard;
/// - the rule that is broken;
/// - whether BER allows the octets, since only DER has the rule;
/// - the first octets of the element in hexadecimal; none, if `octets` are `None`, because they may
///   be secret.
pub fn put_departure<T: Target>(
    out: &mut Output<T>,
    octets: Option<&[u8]>,
    root: Option<Cursor<'_>>,
    base: usize,
    departure: &Departure,
) {
    out.put("{");
    put_departure_fields(out, octets, root, base, departure);
    out.put("}");
}

/// Prints the fields that [`put_departure`] prints, without the braces around them.
pub fn put_departure_fields<T: Target>(
    out: &mut Output<T>,
    octets: Option<&[u8]>,
    root: Option<Cursor<'_>>,
    base: usize,
    departure: &Departure,
) {
    out.put("\"path\": \"");
    let _ = put_path(out, root, departure, Style::Json);
    out.put("\", \"offset\": ");
    out.put_number(base.saturating_add(departure.offset) as u64);
    out.put(", \"section\": \"");
    out.put(departure.rule.section());
    out.put("\", \"rule\": \"");
    put_rule(out, departure.rule);
    out.put("\", \"ber\": ");
    out.put(if departure.rule.verdict().is_ber() {
        "true"
    } else {
        "false"
    });
    out.put(", \"found\": \"");
    if let Some(octets) = octets {
        let found = found_at(octets, departure);
        put_octets(out, found.get(..FOUND).unwrap_or(found));
    }
    out.put("\"");
}

/// Prints the path of the element at which a departure was found. Prints nothing if `root` is
/// `None`, or if `root` does not have the element. Returns whether something was printed.
pub fn put_path<T: Target>(
    out: &mut Output<T>,
    root: Option<Cursor<'_>>,
    departure: &Departure,
    style: Style,
) -> bool {
    let Some(root) = root else {
        return false;
    };
    let Some(element) = root.element(departure.node) else {
        return false;
    };
    let mut path = Escaped {
        out,
        style,
        is_empty: true,
    };
    let _ = write!(path, "{}", element.place());
    !path.is_empty
}

/// A writer that escapes the text it receives in the style `style`, and prints the result to `out`.
#[derive(Drop)]
struct Escaped<'o, T: Target> {
    out: &'o mut Output<T>,
    style: Style,
    is_empty: bool,
}

impl<T: Target> fmt::Write for Escaped<'_, T> {
    fn write_str(&mut self, text: &str) -> fmt::Result {
        self.is_empty = self.is_empty && text.is_empty();
        put_text(self.out, text.as_bytes(), Characters::Utf8, self.style);
        Ok(())
    }
}

/// The octets of the element at the offset of `departure`. If no element can be read at this
/// offset, all octets from the offset to the end.
pub fn found_at<'a>(octets: &'a [u8], departure: &Departure) -> &'a [u8] {
    let rest = octets.get(departure.offset..).unwrap_or(&[]);
    match read_element(rest) {
        Ok(element) => {
            let len = rest.len().saturating_sub(element.rest.len());
            rest.get(..len).unwrap_or(rest)
        }
        Err(_) => rest,
    }
}

/// Prints a sentence about `rule`: it says what the rule requires, or how the octets break the
/// rule.
pub fn put_rule<T: Target>(out: &mut Output<T>, rule: Rule) {
    let _ = match rule {
        Rule::Contents(rule) => write!(out, "{rule}"),
        other => write!(out, "{other}"),
    };
}
