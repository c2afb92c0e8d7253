//! Elements with their positions in the input.

use der::{EncodingRules, Error, Length, Reader, SliceReader, Tag, decode_header, read_eoc};

/// An element of the input with its positions. A position is an offset in octets from the start of
/// the input.
#[derive(Clone, Copy)]
pub struct Element<'a> {
    /// The tag of the element.
    pub tag: Tag,
    /// Whether the encoding is constructed. The contents of a constructed element are elements.
    pub is_constructed: bool,
    /// Whether the length has the indefinite form. End-of-contents octets then follow the contents.
    pub is_indefinite: bool,
    /// The position of the first octet of the header.
    pub start: u32,
    /// The position of the first octet of the contents.
    pub contents_start: u32,
    /// The contents octets, without end-of-contents octets.
    pub contents: &'a [u8],
    /// The octets of the whole element, with its header and its end-of-contents octets.
    pub octets: &'a [u8],
}

impl<'a> Element<'a> {
    /// Reads the element at the front of `octets`. `start` is the position of the first octet of
    /// `octets` in the input. Positions in errors are counted from the start of the input.
    pub fn read(octets: &'a [u8], start: u32, rules: EncodingRules) -> Result<Self, Error> {
        match read_front(octets, start, rules) {
            Ok(element) => Ok(element),
            Err(error) => Err(moved(error, start)),
        }
    }

    /// The position directly after the element.
    pub fn end(&self) -> u32 {
        self.start.saturating_add(length_of(self.octets))
    }

    /// The position directly after the contents.
    pub fn contents_end(&self) -> u32 {
        self.contents_start.saturating_add(length_of(self.contents))
    }

    /// The first octet of the element. It encodes the class, the form (primitive or constructed),
    /// and a tag number below 31.
    pub fn identifier(&self) -> u8 {
        match self.octets {
            [first, ..] => *first,
            [] => 0,
        }
    }
}

// How many octets these are, or the greatest `u32` if they are more.
fn length_of(octets: &[u8]) -> u32 {
    match u32::try_from(octets.len()) {
        Ok(length) => length,
        Err(_) => u32::MAX,
    }
}

fn read_front(octets: &[u8], start: u32, rules: EncodingRules) -> Result<Element<'_>, Error> {
    let mut reader = SliceReader::new_with_encoding_rules(octets, rules)?;
    let header = decode_header(&mut reader)?;
    let header_len = u32::from(reader.position());
    let contents = reader.read_slice(header.length().sans_eoc())?;
    let is_indefinite = header.length().is_indefinite();
    if is_indefinite {
        read_eoc(&mut reader)?;
    }
    let end = u32::from(reader.position()) as usize;
    Ok(Element {
        tag: header.tag(),
        is_constructed: header.is_constructed(),
        is_indefinite,
        start,
        contents_start: start.saturating_add(header_len),
        contents,
        octets: octets.get(..end).unwrap_or(octets),
    })
}

/// Returns `error` with `start` added to its position.
pub fn moved(error: Error, start: u32) -> Error {
    match error.position() {
        Some(position) => {
            let at = u32::from(position).saturating_add(start);
            error.kind().at(Length::new(at))
        }
        None => error,
    }
}
