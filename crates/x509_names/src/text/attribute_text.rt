//! Attributes of names as text.

use crate::text::escaped::{Escaped, write_character};
use crate::text::keyword::keyword_of;
use crate::text::octets_text::OctetsText;
use der::{Encode, Header, Length};
use der_asn1::AnyRef;
use std::fmt;
use x509::{AttributeTypeAndValue, Text};

// An attribute, which is printed as its type, `=`, and its value (RFC 4514, 2.3): a string of a
// type with a short name as its characters, and any other value as `#` and the octets of its
// encoding.
#[derive(Drop)]
pub(crate) struct AttributeText<'a>(pub(crate) AttributeTypeAndValue<'a>);

impl<'a> fmt::Display for AttributeText<'a> {
    fn fmt<W: fmt::Write>(&self, f: &mut fmt::Formatter<W>) -> fmt::Result {
        let attribute = &self.0;
        match (keyword_of(attribute.oid.octets()), attribute.text()) {
            (Some(keyword), Some(text)) => {
                write!(f, "{keyword}=")?;
                write_text(&text, f)
            }
            (Some(keyword), None) => {
                write!(f, "{keyword}=#")?;
                write_octets(&attribute.value, f)
            }
            (None, _) => {
                write!(f, "{}=#", attribute.oid)?;
                write_octets(&attribute.value, f)
            }
        }
    }
}

// Writes the characters of a string, escaped.
fn write_text<W: fmt::Write>(text: &Text<'_>, f: &mut fmt::Formatter<W>) -> fmt::Result {
    match text {
        Text::Utf8(string) => write!(f, "{}", Escaped(string.as_str())),
        Text::Latin1(string) => write_latin1(string.octets, f),
        Text::Bmp(string) => write_bmp(string.octets(), f),
    }
}

// Writes characters of one octet each, escaped.
fn write_latin1<W: fmt::Write>(octets: &[u8], f: &mut fmt::Formatter<W>) -> fmt::Result {
    for (at, octet) in octets.iter().enumerate() {
        write_character(char::from(*octet), at == 0, at + 1 == octets.len(), f)?;
    }
    Ok(())
}

// Writes characters of two octets each, escaped.
fn write_bmp<W: fmt::Write>(octets: &[u8], f: &mut fmt::Formatter<W>) -> fmt::Result {
    let count = octets.len() / 2;
    for (at, pair) in octets.chunks_exact(2).enumerate() {
        if let [high, low] = pair {
            let code = u32::from(*high) * 256 + u32::from(*low);
            let character = char::from_u32(code).ok_or(fmt::Error)?;
            write_character(character, at == 0, at + 1 == count, f)?;
        }
    }
    Ok(())
}

// Writes the octets of the encoding of a value.
fn write_octets<W: fmt::Write>(value: &AnyRef<'_>, f: &mut fmt::Formatter<W>) -> fmt::Result {
    // the header has eleven octets at most: six of the tag, and five of the length
    let mut space = [0u8; 11];
    let length = Length::new_usize(value.contents.len()).map_err(|_| fmt::Error)?;
    let header = Header::new(value.tag, length)
        .encode_to_slice(&mut space)
        .map_err(|_| fmt::Error)?;
    let header = OctetsText {
        octets: header,
        separator: "",
    };
    let contents = OctetsText {
        octets: value.contents,
        separator: "",
    };
    write!(f, "{header}{contents}")
}
