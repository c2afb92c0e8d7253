//! An output of lines, each of which may show the offset of an element.

use crate::text::Output;
use schema_cursor::Cursor;
use schema_types::Schema;
use std::alloc::Global;
use std::fmt::Write;

/// An output of lines, each of which may begin with the offset of an element.
#[derive(Drop)]
pub struct Page<'s> {
    /// The output to which the lines are written.
    pub out: Output,
    /// The allocator for reading values inside a BIT STRING or an OCTET STRING.
    pub alloc: Global,
    /// The table of types by which the values were read.
    pub schema: &'s Schema<'s>,
    /// Whether a line begins with the offset of the element that it shows.
    pub has_offsets: bool,
    /// The number of spaces by which lines are indented.
    pub indent: usize,
    /// The position at which the printed value begins in the file or in the PEM block. It is added
    /// to the offset of each element in the value.
    pub base: usize,
    /// Whether the printed value is damaged and may hold a private key. What could be an octet of
    /// the key is then not printed.
    pub hides: bool,
}

impl<'s> Page<'s> {
    /// Creates a page that prints to `out`. The page has no indentation, and its `base` is 0.
    pub fn new(alloc: Global, schema: &'s Schema<'s>, out: Output, has_offsets: bool) -> Self {
        Page {
            out,
            alloc,
            schema,
            has_offsets,
            indent: 0,
            base: 0,
            hides: false,
        }
    }

    /// Begins a line: prints the offset of `element` if the page has offsets, and then the
    /// indentation.
    pub fn at(&mut self, element: Cursor<'_>) {
        if self.has_offsets {
            let offset = self.base.saturating_add(element.entry().offset);
            self.out.put_padded(offset as u64, 5);
            self.out.put(": ");
        }
        self.out.put_spaces(self.indent);
    }

    /// Begins a line: prints the offset of the contents of `string` if the page has offsets, and
    /// then the indentation.
    pub fn at_inside(&mut self, string: Cursor<'_>) {
        let entry = string.entry();
        let inside = self.base.saturating_add(entry.header_len as usize);
        let kept = self.base;
        self.base = inside;
        self.at(string);
        self.base = kept;
    }

    /// Begins a line that shows no offset, since the line does not belong to a single element.
    pub fn beside(&mut self) {
        if self.has_offsets {
            self.out.put("       ");
        }
        self.out.put_spaces(self.indent);
    }

    /// Begins a line with the offset of `element`. If `element` is `None`, begins a line without an
    /// offset.
    pub fn at_or_beside(&mut self, element: Option<Cursor<'_>>) {
        match element {
            Some(element) => self.at(element),
            None => self.beside(),
        }
    }

    /// Prints `text` unchanged.
    pub fn put(&mut self, text: &str) {
        self.out.put(text);
    }

    /// Ends the current line.
    pub fn end(&mut self) {
        self.out.put("\n");
    }

    /// Prints a whole line with `text`. If the page has offsets, the line begins with the offset of
    /// `element`.
    pub fn line(&mut self, element: Cursor<'_>, text: &str) {
        self.at(element);
        self.out.put(text);
        self.end();
    }

    /// Prints a whole line with `text`. The line shows no offset.
    pub fn line_beside(&mut self, text: &str) {
        self.beside();
        self.out.put(text);
        self.end();
    }

    /// Prints a number in decimal.
    pub fn number(&mut self, number: u64) {
        self.out.put_number(number);
    }

    /// Increases the indentation by 4 spaces.
    pub fn deeper(&mut self) {
        self.indent = self.indent.saturating_add(4);
    }

    /// Decreases the indentation by 4 spaces.
    pub fn higher(&mut self) {
        self.indent = self.indent.saturating_sub(4);
    }

    /// Prints `Version: `, the version, and `number` in parentheses, and ends the line. `number` is
    /// the encoded number; the version is one more than `number`.
    pub fn version(&mut self, number: u64) {
        let version = number.saturating_add(1);
        let _ = write!(self.out, "Version: {version} ({number:#x})");
        self.end();
    }
}
