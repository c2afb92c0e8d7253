//! Printing of octets as elements, one line for each element.

use crate::held::held_start;
use ber::{Header, Length, Universal, is_end_of_contents, read_header};
use der_print::{
    Characters, Output, Page, Style, is_text, long_name, put_header_tag, put_identifier,
    put_some_octets, put_text, put_value_text, tag_of_universal,
};
use schema_read::{Departure, Rule};
use schema_rules::broken_rule;
use std::alloc::{AllocError, Global};

/// The elements inside an element are printed only if fewer than this number of elements enclose
/// it.
const MAX_DEPTH: usize = 64;

/// A line shows at most this number of octets of a value.
const SHOWN_OCTETS: usize = 32;

/// A value of unknown type with fewer octets than this is not printed as text.
const TEXT: usize = 4;

/// An element whose contents are being printed.
#[derive(Clone, Copy)]
struct Part {
    // Where its contents end at the latest.
    contents_end: usize,
    // Where it ends, if its length is definite.
    end: usize,
    // Whether end-of-contents octets end it.
    is_indefinite: bool,
}

/// The state of printing octets as elements, one element after the other.
#[derive(Drop)]
struct Walk<'a> {
    octets: &'a [u8],
    // Where they begin, in the file or the block.
    base: usize,
    position: usize,
    // The elements around the next one, the innermost last.
    around: Vec<Part>,
    departures: Vec<Departure>,
    // Whether one of the departures is not allowed by BER.
    has_fault: bool,
    hides: bool,
}

/// Prints a line for each element of `octets`, and below it the lines of the elements inside.
/// Returns the departures: the places at which `octets` depart from the Distinguished Encoding
/// Rules.
///
/// - If an OCTET STRING or a BIT STRING contains an encoding, prints the elements of this encoding
///   too.
/// - If an element cannot be read, continues after the element that encloses it.
/// - If `hides` is true, values may be secret. Then no contents are printed but NULL, BOOLEAN and
///   OBJECT IDENTIFIERs that have a name. Strings are not looked into, and reading ends at a place
///   at which `octets` are not BER.
/// - `base` is added to each offset that is printed.
///
/// Fails if an allocation fails.
pub fn put_elements(
    page: &mut Page<'_>,
    octets: &[u8],
    base: usize,
    hides: bool,
) -> Result<Vec<Departure>, AllocError> {
    let mut walk = Walk {
        octets,
        base,
        position: 0,
        around: Vec::new(page.alloc),
        departures: Vec::new(page.alloc),
        has_fault: false,
        hides,
    };
    for _ in 0..=octets.len() {
        walk.climb()?;
        let end = walk.end();
        if walk.position >= end {
            break;
        }
        walk.step(page, end)?;
        if hides && walk.has_fault {
            break;
        }
    }
    if hides {
        page.line_beside("Values are not shown, as this may be a private key; --tree shows them");
    }
    Ok(walk.departures)
}

impl<'a> Walk<'a> {
    fn end(&self) -> usize {
        match self.around.last() {
            Some(part) => part.contents_end,
            None => self.octets.len(),
        }
    }

    fn depart(&mut self, rule: Rule, offset: usize) -> Result<(), AllocError> {
        self.has_fault = self.has_fault || !rule.verdict().is_ber();
        self.departures.push(Departure {
            rule,
            offset,
            node: 0,
        })?;
        Ok(())
    }

    // Leaves the elements whose contents end here.
    fn climb(&mut self) -> Result<(), AllocError> {
        for _ in 0..=MAX_DEPTH {
            let Some(part) = self.around.last() else {
                return Ok(());
            };
            let rest = self
                .octets
                .get(self.position..part.contents_end)
                .unwrap_or(&[]);
            let is_ended = part.is_indefinite && is_end_of_contents(rest);
            if self.position < part.contents_end && !is_ended {
                return Ok(());
            }
            let end = part.end;
            if is_ended {
                self.position = self.position.saturating_add(2);
            } else if part.is_indefinite {
                self.depart(Rule::Unended, self.position)?;
            } else {
                self.position = end;
            }
            let _left = self.around.pop();
        }
        Ok(())
    }

    // Passes the header of the next element, and its contents if they are no elements.
    fn step(&mut self, page: &mut Page<'_>, end: usize) -> Result<(), AllocError> {
        let start = self.position;
        let rest = self.octets.get(start..end).unwrap_or(&[]);
        let Ok(header) = read_header(rest) else {
            self.depart(Rule::Header, start)?;
            self.position = end;
            return Ok(());
        };
        let contents_start = start.saturating_add(header.header_len);
        if header.class == der_base::Class::Universal && header.number == 0 {
            self.depart(Rule::EndOfContents, start)?;
        }
        let part = self.part(header, contents_start, end)?;
        self.judge(header, start)?;
        let contents = self
            .octets
            .get(contents_start..part.contents_end)
            .unwrap_or(&[]);
        if !header.constructed {
            self.judge_contents(header, contents, start)?;
        }
        let held = if self.hides {
            None
        } else {
            held_start(header, contents)
        };
        self.put_line(page, header, start, contents, held.is_some());
        self.position = part.end;
        if header.constructed || held.is_some() {
            self.enter(part, contents_start.saturating_add(held.unwrap_or(0)))?;
        }
        Ok(())
    }

    // Where the contents of a header end.
    fn part(&mut self, header: Header, start: usize, end: usize) -> Result<Part, AllocError> {
        let contents_end = match header.length {
            Length::Definite(length) => start.saturating_add(length as usize),
            Length::Indefinite => end,
        };
        if contents_end > end {
            self.depart(Rule::Truncated, start.saturating_sub(header.header_len))?;
        }
        let contents_end = contents_end.min(end);
        Ok(Part {
            contents_end,
            end: contents_end,
            is_indefinite: header.is_indefinite(),
        })
    }

    fn enter(&mut self, part: Part, position: usize) -> Result<(), AllocError> {
        if self.around.len() >= MAX_DEPTH {
            return self.depart(Rule::Depth, position);
        }
        self.position = position;
        self.around.push(part)?;
        Ok(())
    }

    fn judge(&mut self, header: Header, start: usize) -> Result<(), AllocError> {
        if !header.minimal {
            self.depart(Rule::LongLength, start)?;
        }
        if header.is_indefinite() {
            self.depart(Rule::IndefiniteLength, start)?;
        }
        if header.has_wrong_form() {
            return self.depart(Rule::Form, start);
        }
        if header.is_constructed_string() {
            return self.depart(Rule::ConstructedString, start);
        }
        Ok(())
    }

    fn judge_contents(
        &mut self,
        header: Header,
        contents: &[u8],
        start: usize,
    ) -> Result<(), AllocError> {
        match header.universal() {
            Some(universal) => match broken_rule(universal, contents) {
                Some(rule) if !header.has_wrong_form() => self.depart(Rule::Contents(rule), start),
                _ => Ok(()),
            },
            None => Ok(()),
        }
    }

    // The line of an element in the words of `openssl asn1parse`.
    fn put_line(
        &self,
        page: &mut Page<'_>,
        header: Header,
        start: usize,
        contents: &[u8],
        is_holder: bool,
    ) {
        let depth = self.around.len();
        if page.has_offsets {
            page.out
                .put_padded(self.base.saturating_add(start) as u64, 5);
            page.put(":");
        }
        page.put("d=");
        page.number(depth as u64);
        page.put(if depth < 10 { "  hl=" } else { " hl=" });
        page.number(header.header_len as u64);
        page.put(" l=");
        if header.is_indefinite() {
            page.put(" inf");
        } else {
            page.out.put_padded(contents.len() as u64, 4);
        }
        page.put(if header.constructed {
            " cons: "
        } else {
            " prim: "
        });
        page.out.put_spaces(depth);
        put_header_tag(&mut page.out, header);
        if is_holder {
            page.put(", encapsulates");
        } else if !header.constructed && !contents.is_empty() {
            page.put(" :");
            put_contents(&mut page.out, header, contents, self.hides);
        }
        page.end();
    }
}

fn put_contents(out: &mut Output, header: Header, contents: &[u8], hides: bool) {
    let universal = header.universal();
    match universal {
        _ if hides && !is_harmless(universal, contents) => out.put("not shown"),
        Some(Universal::ObjectIdentifier) => put_identifier(out, contents),
        Some(universal) => {
            let is_put = match tag_of_universal(universal) {
                Some(tag) => put_value_text(out, tag, contents, Style::Line),
                None => false,
            };
            if !is_put {
                put_some_octets(out, contents, SHOWN_OCTETS);
            }
        }
        None if is_plain(contents) => put_text(out, contents, Characters::Utf8, Style::Line),
        None => put_some_octets(out, contents, SHOWN_OCTETS),
    }
}

// Whether contents are no octets of a key.
fn is_harmless(universal: Option<Universal>, contents: &[u8]) -> bool {
    match universal {
        Some(Universal::ObjectIdentifier) => long_name(contents).is_some(),
        Some(Universal::Boolean | Universal::Null) => contents.len() < 2,
        _ => false,
    }
}

// Whether contents of a type that is not known are text.
fn is_plain(contents: &[u8]) -> bool {
    contents.len() >= TEXT
        && is_text(contents, Characters::Utf8)
        && contents.iter().all(|octet| *octet >= 32 && *octet != 127)
}
