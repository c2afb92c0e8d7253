//! The output to which all printing functions print.

use crate::text::stream::{Sink, Stream};
use crate::text::target::Target;
use std::alloc::Global;
use std::fmt;

/// Of the last columns of a line, this number is searched for a space. The first space found breaks
/// the line, and is not printed.
const NEAR: usize = 16;

/// Of the last columns of a line, this number is searched for a colon. The first colon found breaks
/// the line, which ends with the colon.
const NEARER: usize = 4;

/// When a line is broken, its continuation is indented by this number of spaces more than its
/// beginning.
const FOLDED: usize = 4;

/// An output: functions print text to it, and it passes the text on to a target, such as a stream.
///
/// The functions that print return no errors. If the target fails, the output sets `has_failed`,
/// and drops all text that is printed later.
#[derive(Drop)]
pub struct Output<T: Target = Stream> {
    /// The target to which the output passes its text.
    pub target: T,
    /// Whether the target has failed, so that text is missing.
    pub has_failed: bool,
    /// The number of columns after which a long line is broken. If it is 0, lines are never broken.
    pub width: usize,
    // How many columns the line has so far.
    column: usize,
    // How many of these are spaces at its start.
    indent: usize,
}

impl Output<Stream> {
    /// Creates an output whose text goes to `sink`. A buffer, which is empty at first, collects the
    /// text before it is written.
    pub fn new(alloc: Global, sink: Sink) -> Self {
        Output::to(Stream::new(alloc, sink))
    }

    /// Writes the buffered text to the sink. Does nothing if the sink is [`Sink::Memory`].
    pub fn flush(&mut self) {
        if !self.target.flush() {
            self.has_failed = true;
        }
    }
}

impl<T: Target> Output<T> {
    /// Creates an output that passes its text to `target`, and that does not break long lines.
    pub fn to(target: T) -> Self {
        Output {
            target,
            has_failed: false,
            width: 0,
            column: 0,
            indent: 0,
        }
    }

    /// Prints the text as it is: no character is escaped.
    pub fn put(&mut self, text: &str) {
        self.put_bytes(text.as_bytes());
    }

    /// Prints the octets as they are, except that a line with more than `width` columns is broken.
    pub fn put_bytes(&mut self, octets: &[u8]) {
        if self.width == 0 || self.is_short(octets) {
            self.push(octets);
            self.column = self.column.saturating_add(octets.len());
            return;
        }
        for octet in octets {
            self.put_folded(*octet);
        }
    }

    // Whether the octets are a part of a line that is not folded in it. Only their last octet may be the end of a line.
    fn is_short(&self, octets: &[u8]) -> bool {
        let end = self
            .column
            .saturating_add(octets.len())
            .saturating_add(NEAR);
        let has_end = matches!(octets, [b'\n', ..] | [.., b'\n']);
        end < self.width && self.indent < self.column && !has_end
    }

    // Prints an octet, before which the line is folded if it is full. Octets inside a character have no column.
    fn put_folded(&mut self, octet: u8) {
        match octet {
            b'\n' => {
                self.column = 0;
                self.indent = 0;
            }
            0x80..=0xBF => {}
            b' ' if self.indent < self.column && self.column.saturating_add(NEAR) >= self.width => {
                self.fold();
                return;
            }
            _ => {
                if self.is_full() {
                    self.fold();
                }
                if octet == b' ' && self.indent == self.column {
                    self.indent = self.indent.saturating_add(1);
                }
                self.column = self.column.saturating_add(1);
            }
        }
        self.push(&[octet]);
    }

    // Whether the line has no column left, or few, and ends as a part of it does.
    fn is_full(&self) -> bool {
        let margin = match self.target.last() {
            Some(b':') => NEARER,
            _ => 0,
        };
        self.column.saturating_add(margin) >= self.width
    }

    // Begins another line, with more spaces than the line that is folded.
    fn fold(&mut self) {
        let indent = self.indent.saturating_add(FOLDED).min(self.width / 2);
        self.push(b"\n");
        for _ in 0..indent {
            self.push(b" ");
        }
        self.column = indent;
        self.indent = indent.saturating_sub(FOLDED);
    }

    fn push(&mut self, octets: &[u8]) {
        if !self.has_failed && !self.target.push(octets) {
            self.has_failed = true;
        }
    }

    /// Prints a character as it is: it is not escaped.
    pub fn put_char(&mut self, c: char) {
        let mut octets = [0u8; 4];
        let text = c.encode_utf8(&mut octets);
        self.put_bytes(text.as_bytes());
    }

    /// Prints a number in decimal.
    pub fn put_number(&mut self, number: u64) {
        self.put_padded(number, 1);
    }

    /// Prints a number in decimal. If the number has fewer than `width` digits, spaces in front of
    /// it fill `width` columns. `width` is from 1 to 20.
    pub fn put_padded(&mut self, number: u64, width: usize) {
        let mut digits = [b' '; 20];
        let mut rest = number;
        let mut count = 0usize;
        for place in digits.iter_mut().rev() {
            if rest == 0 && count > 0 {
                break;
            }
            *place = b'0'.wrapping_add((rest % 10) as u8);
            rest /= 10;
            count = count.saturating_add(1);
        }
        let start = 20usize.saturating_sub(count.max(width));
        self.put_bytes(digits.get(start..).unwrap_or(&[]));
    }

    /// Prints an octet as two hexadecimal digits. `is_upper` says whether the digits are in upper
    /// case.
    pub fn put_hex(&mut self, octet: u8, is_upper: bool) {
        let digits = [
            hex_digit(octet >> 4, is_upper),
            hex_digit(octet & 15, is_upper),
        ];
        self.put_bytes(&digits);
    }

    /// Prints `count` spaces, but at most 64.
    pub fn put_spaces(&mut self, count: usize) {
        let spaces = "                                                                ";
        self.put(spaces.get(..count).unwrap_or(spaces));
    }
}

impl<T: Target> fmt::Write for Output<T> {
    fn write_str(&mut self, text: &str) -> fmt::Result {
        self.put(text);
        Ok(())
    }
}

// The digit for a number below 16.
pub(crate) fn hex_digit(number: u8, is_upper: bool) -> u8 {
    let first = if is_upper { b'A' } else { b'a' };
    match number {
        0..=9 => b'0'.wrapping_add(number),
        _ => first.wrapping_add(number.wrapping_sub(10)),
    }
}
