//! Names of object identifiers.

use crate::text::output::Output;
use crate::text::rows::{NAMES_ISO, NAMES_OTHER, NAMES_PKIX, NAMES_RSA, NAMES_X500};
use crate::text::target::Target;
use der_asn1::ObjectIdentifierRef;
use std::cmp::Ordering;
use std::fmt::Write;

/// Looks up an OBJECT IDENTIFIER, given by its contents octets, in the table of names. Returns the
/// short name, `=`, and the long name. The long name is empty if it is the same as the short name.
/// Returns `None` if the table does not have the OBJECT IDENTIFIER.
fn names_of(octets: &[u8]) -> Option<&'static str> {
    let table = match octets {
        [0x55, ..] => NAMES_X500,
        [0x2a, 0x86, 0x48, 0x86, 0xf7, 0x0d, ..] => NAMES_RSA,
        [0x2b, 0x06, 0x01, 0x05, ..] => NAMES_PKIX,
        [0x2a, ..] => NAMES_ISO,
        _ => NAMES_OTHER,
    };
    find_line(table, octets)
}

// The names in the line of these contents. The lines are in the order of their contents, so half of them is
// left after each step.
fn find_line(table: &'static str, octets: &[u8]) -> Option<&'static str> {
    let (mut low, mut high) = (0usize, table.len());
    for _ in 0..usize::BITS {
        if low >= high {
            return None;
        }
        let (start, end) = line_around(table.as_bytes(), low, high);
        let (digits, names) = table.get(start..end)?.split_once(' ')?;
        match compare(digits.as_bytes(), octets) {
            Ordering::Equal => return Some(names),
            Ordering::Less => low = end.saturating_add(1),
            Ordering::Greater => high = start,
        }
    }
    None
}

// Where the line begins and ends that the octet in the middle is in.
fn line_around(text: &[u8], low: usize, high: usize) -> (usize, usize) {
    let middle = low.saturating_add(high.saturating_sub(low) / 2);
    let before = text.get(low..middle).unwrap_or(&[]);
    let start = match before.iter().rposition(|octet| *octet == b'\n') {
        Some(place) => low.saturating_add(place).saturating_add(1),
        None => low,
    };
    let after = text.get(middle..high).unwrap_or(&[]);
    let end = match after.iter().position(|octet| *octet == b'\n') {
        Some(place) => middle.saturating_add(place),
        None => high,
    };
    (start, end)
}

// The order of the octets with these lower-case hexadecimal digits and of others.
fn compare(digits: &[u8], octets: &[u8]) -> Ordering {
    let mut rest = digits;
    for octet in octets {
        let [high, low, after @ ..] = rest else {
            return Ordering::Less;
        };
        let own = digit_value(*high) << 4 | digit_value(*low) & 15;
        if own != *octet {
            return own.cmp(octet);
        }
        rest = after;
    }
    if rest.is_empty() {
        Ordering::Equal
    } else {
        Ordering::Greater
    }
}

/// Whether `digits` are the lower-case hexadecimal digits of `octets`.
pub fn is_hexadecimal_of(digits: &[u8], octets: &[u8]) -> bool {
    if digits.len() / 2 != octets.len() || digits.len() % 2 != 0 {
        return false;
    }
    let mut rest = digits;
    for octet in octets {
        match rest {
            [high, low, after @ ..] => {
                if digit_value(*high) != *octet >> 4 || digit_value(*low) != *octet & 15 {
                    return false;
                }
                rest = after;
            }
            _ => return false,
        }
    }
    true
}

fn digit_value(digit: u8) -> u8 {
    match digit {
        b'0'..=b'9' => digit.wrapping_sub(b'0'),
        _ => digit.wrapping_sub(b'a').wrapping_add(10),
    }
}

/// The short name that OpenSSL gives the object identifier with these contents octets, such as
/// `CN`. `None` if the table of names does not have the object identifier.
pub fn short_name(octets: &[u8]) -> Option<&'static str> {
    let (short, _) = names_of(octets)?.split_once('=')?;
    Some(short)
}

/// The long name that OpenSSL gives the object identifier with these contents octets, such as
/// `commonName`. `None` if the table of names does not have the object identifier.
pub fn long_name(octets: &[u8]) -> Option<&'static str> {
    let (short, long) = names_of(octets)?.split_once('=')?;
    Some(if long.is_empty() { short } else { long })
}

/// Prints the arcs of an OBJECT IDENTIFIER, separated by dots. `octets` are its contents octets. If
/// `octets` are not valid contents of an OBJECT IDENTIFIER, prints `#` and `octets` in hexadecimal.
pub fn put_arcs<T: Target>(out: &mut Output<T>, octets: &[u8]) {
    match ObjectIdentifierRef::new(octets) {
        Some(oid) => {
            let _ = write!(out, "{oid}");
        }
        None => {
            out.put("#");
            crate::text::numbers::put_octets(out, octets);
        }
    }
}

/// Prints the long name of the object identifier with these contents octets, and its arcs in
/// parentheses. If the table of names does not have the object identifier, prints only the arcs.
pub fn put_identifier<T: Target>(out: &mut Output<T>, octets: &[u8]) {
    match long_name(octets) {
        Some(name) => {
            out.put(name);
            out.put(" (");
            put_arcs(out, octets);
            out.put(")");
        }
        None => put_arcs(out, octets),
    }
}
