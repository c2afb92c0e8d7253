//! Prints the text of strings.

use crate::text::characters::put_escaped;
use crate::text::output::Output;
use crate::text::style::Style;
use crate::text::target::Target;
use der::Tag;
use std::str;

/// How the characters of a string are encoded.
#[derive(Clone, Copy, PartialEq, Eq)]
pub enum Characters {
    /// The characters are in UTF-8.
    Utf8,
    /// Each octet is a character of ISO 8859-1.
    Latin,
    /// Each pair of octets is a character, as in a BMPString. The first octet of a pair is the
    /// higher one.
    Wide,
}

/// The encoding of the characters of a string or a time with this tag. `None` for any other tag.
pub fn characters_of(tag: Tag) -> Option<Characters> {
    match tag {
        Tag::Utf8String
        | Tag::PrintableString
        | Tag::Ia5String
        | Tag::VisibleString
        | Tag::NumericString
        | Tag::UtcTime
        | Tag::GeneralizedTime => Some(Characters::Utf8),
        Tag::TeletexString | Tag::GeneralString | Tag::VideotexString => Some(Characters::Latin),
        Tag::BmpString => Some(Characters::Wide),
        _ => None,
    }
}

/// Whether the octets are text in the encoding `characters`. In ISO 8859-1, octets with a control
/// character do not count as text: the real character set is probably another one.
pub fn is_text(octets: &[u8], characters: Characters) -> bool {
    match characters {
        Characters::Utf8 => str::from_utf8(octets).is_ok(),
        Characters::Latin => octets.iter().all(|octet| !char::from(*octet).is_control()),
        Characters::Wide => is_wide(octets),
    }
}

// Whether the octets are pairs, none of which is a surrogate.
fn is_wide(octets: &[u8]) -> bool {
    let mut rest = octets;
    for _ in 0..octets.len() {
        match rest {
            [0xD8..=0xDF, ..] | [_] => return false,
            [_, _, after @ ..] => rest = after,
            [] => return true,
        }
    }
    rest.is_empty()
}

/// Prints the text of a string or a time with this tag, and returns true. If the tag is of another
/// type, or if the contents are not text, prints nothing and returns false.
pub fn put_value_text<T: Target>(
    out: &mut Output<T>,
    tag: Tag,
    contents: &[u8],
    style: Style,
) -> bool {
    match characters_of(tag) {
        Some(characters) if is_text(contents, characters) => {
            put_text(out, contents, characters, style);
            true
        }
        _ => false,
    }
}

/// Decodes `octets` from the encoding `characters`, and prints the text in the style `style`. If the
/// encoding is UTF-8 and `octets` are not valid UTF-8, prints nothing. If the encoding has two octets
/// for each character, skips each pair of octets that is not a character.
pub fn put_text<T: Target>(
    out: &mut Output<T>,
    octets: &[u8],
    characters: Characters,
    style: Style,
) {
    match characters {
        Characters::Utf8 => match str::from_utf8(octets) {
            Ok(text) => put_utf8(out, text, style),
            Err(_) => {}
        },
        Characters::Latin => put_latin(out, octets, style),
        Characters::Wide => put_wide(out, octets, style),
    }
}

/// The state of printing a text in a distinguished name. RFC 4514, 2.4, demands that some
/// characters are escaped at the start or at the end of a text.
#[derive(Clone, Copy)]
struct Ends {
    is_first: bool,
    has_space: bool,
}

// Prints the next character. A space waits until it is known whether it is the last character.
fn put_next<T: Target>(out: &mut Output<T>, c: char, style: Style, ends: &mut Ends) {
    if style == Style::Name {
        if ends.has_space {
            out.put(" ");
            ends.has_space = false;
        }
        if ends.is_first && matches!(c, ' ' | '#') {
            out.put("\\");
            out.put_char(c);
            ends.is_first = false;
            return;
        }
        ends.is_first = false;
        if c == ' ' {
            ends.has_space = true;
            return;
        }
    }
    put_escaped(out, c, style);
}

fn put_end<T: Target>(out: &mut Output<T>, ends: &Ends) {
    if ends.has_space {
        out.put("\\ ");
    }
}

fn start() -> Ends {
    Ends {
        is_first: true,
        has_space: false,
    }
}

fn put_utf8<T: Target>(out: &mut Output<T>, text: &str, style: Style) {
    let mut ends = start();
    for c in text.chars() {
        put_next(out, c, style, &mut ends);
    }
    put_end(out, &ends);
}

fn put_latin<T: Target>(out: &mut Output<T>, octets: &[u8], style: Style) {
    let mut ends = start();
    for octet in octets {
        put_next(out, char::from(*octet), style, &mut ends);
    }
    put_end(out, &ends);
}

fn put_wide<T: Target>(out: &mut Output<T>, octets: &[u8], style: Style) {
    let mut ends = start();
    let mut rest = octets;
    for _ in 0..octets.len() {
        let [high, low, after @ ..] = rest else {
            break;
        };
        let code = u32::from(u16::from_be_bytes([*high, *low]));
        if let Some(c) = char::from_u32(code) {
            put_next(out, c, style, &mut ends);
        }
        rest = after;
    }
    put_end(out, &ends);
}
