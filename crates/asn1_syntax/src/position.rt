//! Positions in a file.
ghost use Rattle.std.specs.Prelude.{◌≡◌, ◌<◌, ◌≤◌, length, take, IfSome};
ghost use Rattle.asn1_syntax.specs.Position.{line_after, column_after, last_line_end, octets_after};

use std::fmt;

/// A position in a text. Lines and columns count from 1, and columns count octets.
#[derive(Clone, Copy, PartialEq, Eq)]
pub struct Position {
    /// One more than the number of line ends before the position.
    pub line: usize,
    /// One more than the number of octets between the last line end and the position.
    pub column: usize,
}

impl Position {
    /// The position of the octet at the index `offset` of `text`. If `offset` is past the end of
    /// the text, the position after the last octet.
    pub fn of(text: &[u8], offset: usize) -> Self
        ensures line { result.line ≡ line_after (take offset text.now) }
        ensures column { result.column ≡ column_after (take offset text.now) }
    {
        let before = if offset < text.len() {
            &text[..offset]
        } else {
            text
        };
        Position::at_end_of(before)
    }

    fn at_end_of(before: &[u8]) -> Self
        ensures line { result.line ≡ line_after before.now }
        ensures column { result.column ≡ column_after before.now }
    {
        let line_ends = before.iter().filter(|octet| **octet == b'\n').count();
        Position {
            line: line_ends + 1,
            column: octets_after(before) + 1,
        }
    }

    /// The position after `octets`, if `self` is the position of their first octet.
    pub fn after(self, octets: &[u8]) -> Self {
        let after = Position::at_end_of(octets);
        let column = if after.line == 1 {
            self.column.saturating_add(after.column - 1)
        } else {
            after.column
        };
        Position {
            line: self.line.saturating_add(after.line - 1),
            column,
        }
    }
}

// The number of octets after the last line end.
fn octets_after(before: &[u8]) -> usize
    ensures same { result ≡ octets_after (last_line_end before.now) (length before.now) }
    ensures short { result ≤ length before.now }
{
    match last_line_end(before) {
        Some(index) => index,
        None => before.len(),
    }
}

// The index of the last line end, from the back.
fn last_line_end(before: &[u8]) -> Option<usize>
    ensures same { result ≡ last_line_end before.now }
    ensures short { IfSome result (λ index. index < length before.now) }
{
    before.iter().rev().position(|octet| *octet == b'\n')
}

impl fmt::Display for Position {
    fn fmt<W: fmt::Write>(&self, f: &mut fmt::Formatter<W>) -> fmt::Result {
        let Position { line, column } = *self;
        write!(f, "{line}:{column}")
    }
}
