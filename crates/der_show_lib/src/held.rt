//! Finds encodings inside an OCTET STRING or a BIT STRING.

use ber::{Header, Universal, read_element};
use der_base::Class;

/// The greatest number of elements that may enclose an element, counted inside the string.
const MAX_DEPTH: usize = 32;

/// Looks for an encoding inside a primitive OCTET STRING or BIT STRING. Returns the number of
/// contents octets before the encoding: 0 for an OCTET STRING, and 1 for a BIT STRING, whose first
/// octet counts the unused bits.
///
/// Returns `None` if the string contains no encoding. An encoding is exactly one element of
/// definite length. The contents of a constructed element must be elements too.
pub fn held_start(header: Header, contents: &[u8]) -> Option<usize> {
    if header.constructed {
        return None;
    }
    let skipped = match (header.universal(), contents) {
        (Some(Universal::OctetString), [_, _, ..]) => 0,
        (Some(Universal::BitString), [0, _, _, ..]) => 1,
        _ => return None,
    };
    let octets = contents.get(skipped..)?;
    if is_encoding(octets) {
        Some(skipped)
    } else {
        None
    }
}

// Whether the octets are exactly one element, whose parts are elements too: the ends of the elements around
// the next one are kept, as what is left after each.
fn is_encoding(octets: &[u8]) -> bool {
    let mut ends = [0usize; MAX_DEPTH];
    let mut depth = 0usize;
    let mut rest = octets;
    for _ in 0..octets.len() {
        let Ok(element) = read_element(rest) else {
            return false;
        };
        if !fits(element.header, depth, element.rest.len(), &ends) {
            return false;
        }
        if element.header.constructed && !element.contents.is_empty() {
            let Some(end) = ends.get_mut(depth) else {
                return false;
            };
            *end = element.rest.len();
            depth = depth.saturating_add(1);
            rest = rest.get(element.header.header_len..).unwrap_or(&[]);
        } else {
            rest = element.rest;
        }
        depth = left(depth, rest.len(), &ends);
        if depth == 0 {
            return rest.is_empty();
        }
    }
    false
}

// Whether an element has a tag that is no end of contents, and ends inside of the one around it.
fn fits(header: Header, depth: usize, after: usize, ends: &[usize; MAX_DEPTH]) -> bool {
    if header.class == Class::Universal && header.number == 0 {
        return false;
    }
    match ends.get(depth.wrapping_sub(1)) {
        Some(end) if depth > 0 => after >= *end,
        _ => true,
    }
}

// How many elements are around the place at which so many octets are left.
fn left(depth: usize, after: usize, ends: &[usize; MAX_DEPTH]) -> usize {
    let mut inside = depth;
    for _ in 0..MAX_DEPTH {
        match ends.get(inside.wrapping_sub(1)) {
            Some(end) if inside > 0 && *end == after => inside -= 1,
            _ => return inside,
        }
    }
    inside
}
