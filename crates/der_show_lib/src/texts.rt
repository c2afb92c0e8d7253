//! Rewrites texts whose PEM blocks are in an unusual form: with a byte order mark, in UTF-16,
//! indented, or in a mail.

use std::alloc::{AllocError, Global};
use std::str;

/// The part of a text to which a line belongs.
#[derive(Clone, Copy, PartialEq, Eq)]
enum Part {
    /// The line is among the headers of a mail. No header so far says that the body is a CMS
    /// message.
    Headers,
    /// The line is among the headers of a mail. A header before it says that the body is a CMS
    /// message in base64 (RFC 8551, 3.2).
    MessageHeaders,
    /// The line belongs to any other text.
    Body,
    /// The line belongs to the base64 of a CMS message in a mail.
    Message,
}

/// Rewrites a text so that it can be read as PEM:
///
/// - removes a byte order mark;
/// - converts UTF-16 to one octet for each character, and a character that is not ASCII to `?`;
/// - removes the indentation of lines that begin with dashes;
/// - puts each CMS message of a mail into a PEM block.
///
/// Fails if an allocation fails.
pub fn pem_text(alloc: Global, octets: &[u8]) -> Result<Vec<u8>, AllocError> {
    let narrow = without_mark(alloc, octets)?;
    let mut text = Vec::with_capacity(alloc, narrow.len())?;
    let mut part = Part::Headers;
    let mut rest = narrow.as_slice();
    for _ in 0..=narrow.len() {
        if rest.is_empty() {
            break;
        }
        let (line, after) = split_line(rest);
        part = put_line(alloc, &mut text, line, part)?;
        rest = after;
    }
    if part == Part::Message {
        text.extend_from_slice(b"-----END PKCS7-----\n")?;
    }
    Ok(text)
}

// The octets without a byte order mark, and those of UTF-16 as one octet a character.
fn without_mark(alloc: Global, octets: &[u8]) -> Result<Vec<u8>, AllocError> {
    let mut narrow = Vec::with_capacity(alloc, octets.len())?;
    let (mut rest, is_little) = match octets {
        [0xFF, 0xFE, after @ ..] => (after, true),
        [0xFE, 0xFF, after @ ..] => (after, false),
        [0xEF, 0xBB, 0xBF, after @ ..] => {
            narrow.extend_from_slice(after)?;
            return Ok(narrow);
        }
        _ => {
            narrow.extend_from_slice(octets)?;
            return Ok(narrow);
        }
    };
    for _ in 0..octets.len() {
        let [one, other, after @ ..] = rest else {
            break;
        };
        let (low, high) = if is_little {
            (*one, *other)
        } else {
            (*other, *one)
        };
        narrow.push(if high == 0 && low < 0x80 { low } else { b'?' })?;
        rest = after;
    }
    Ok(narrow)
}

// The first line with its end, and the octets after it.
fn split_line(text: &[u8]) -> (&[u8], &[u8]) {
    let len = match text.iter().position(|octet| *octet == b'\n') {
        Some(place) => place.saturating_add(1),
        None => text.len(),
    };
    (
        text.get(..len).unwrap_or(text),
        text.get(len..).unwrap_or(&[]),
    )
}

// Appends a line, and returns what the next line is part of.
fn put_line(
    alloc: Global,
    text: &mut Vec<u8>,
    line: &[u8],
    part: Part,
) -> Result<Part, AllocError> {
    let words = line.trim_ascii();
    let is_boundary = words.starts_with(b"--") && !words.starts_with(b"-----BEGIN ");
    match part {
        Part::MessageHeaders if words.is_empty() => {
            text.extend_from_slice(b"-----BEGIN PKCS7-----\n")?;
            return Ok(Part::Message);
        }
        Part::Message if words.is_empty() || is_boundary => {
            text.extend_from_slice(b"-----END PKCS7-----\n")?;
            return Ok(if is_boundary {
                Part::Headers
            } else {
                Part::Body
            });
        }
        _ => {}
    }
    text.extend_from_slice(if words.starts_with(b"-----") {
        line.trim_ascii_start()
    } else {
        line
    })?;
    Ok(match part {
        Part::Headers if is_message(alloc, words)? => Part::MessageHeaders,
        Part::Headers if words.is_empty() => Part::Body,
        Part::Body if is_boundary => Part::Headers,
        _ => part,
    })
}

// Whether a header says that the body is a message.
fn is_message(alloc: Global, words: &[u8]) -> Result<bool, AllocError> {
    let lower = words.to_ascii_lowercase(alloc)?;
    Ok(match str::from_utf8(lower.as_slice()) {
        Ok(words) => words.starts_with("content-type: application/") && words.contains("pkcs7-"),
        Err(_) => false,
    })
}
