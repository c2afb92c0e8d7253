//! Characters of attribute values, escaped as in RFC 4514.

use hidden_characters::is_hidden;
use std::fmt;

// A text, which is printed as RFC 4514, 2.4 escapes it. A character that a reader would not see as
// it is, is escaped too.
#[derive(Drop)]
pub(crate) struct Escaped<'a>(pub(crate) &'a str);

impl<'a> fmt::Display for Escaped<'a> {
    fn fmt<W: fmt::Write>(&self, f: &mut fmt::Formatter<W>) -> fmt::Result {
        let count = self.0.chars().count();
        for (at, character) in self.0.chars().enumerate() {
            write_character(character, at == 0, at + 1 == count, f)?;
        }
        Ok(())
    }
}

// Writes a character of a text, of which it may be the first or the last.
pub(crate) fn write_character<W: fmt::Write>(
    character: char,
    is_first: bool,
    is_last: bool,
    f: &mut fmt::Formatter<W>,
) -> fmt::Result {
    match character {
        '"' | '+' | ',' | ';' | '<' | '>' | '\\' => write!(f, "\\{character}"),
        '#' if is_first => f.write_str("\\#"),
        ' ' if is_first || is_last => f.write_str("\\ "),
        _ if is_hidden(character) => write_pairs(character, f),
        _ => f.write_char(character),
    }
}

// Writes a backslash and two hexadecimal digits for each octet of the character in UTF-8.
fn write_pairs<W: fmt::Write>(character: char, f: &mut fmt::Formatter<W>) -> fmt::Result {
    let mut space = [0u8; 4];
    let text = character.encode_utf8(&mut space);
    for octet in text.as_bytes() {
        write!(f, "\\{octet:02X}")?;
    }
    Ok(())
}
