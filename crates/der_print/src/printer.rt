//! The layout of values that are printed with the names of their fields, as JSON or as lines.

use crate::form::Form;
use crate::text::{Output, Stream, Target};
use std::fmt::Write;

/// An output for values that are printed with the names of their fields. It knows the format, and
/// which objects and lists are open.
#[derive(Drop)]
pub struct Printer<T: Target = Stream> {
    /// The output to which text is written.
    pub out: Output<T>,
    /// The format: JSON or lines.
    pub form: Form,
    /// The number of open objects and lists. Each of them indents the lines further.
    pub depth: usize,
    /// Whether nothing was printed yet in the innermost object or list that is open.
    pub is_first: bool,
    /// Whether each line begins with the offset of the element that it shows. JSON has no offsets.
    pub has_offsets: bool,
}

impl<T: Target> Printer<T> {
    /// Creates a printer that prints to `out`. No object or list is open, and no offsets are
    /// printed.
    pub fn new(out: Output<T>, form: Form) -> Self {
        Printer {
            out,
            form,
            depth: 0,
            is_first: true,
            has_offsets: false,
        }
    }

    /// Prints `name`, the name of the field whose value is printed next. Two names are special:
    ///
    /// - `-` stands for an item of a list. In lines, `index` is printed instead of a name; in JSON,
    ///   nothing is.
    /// - An empty name stands for the whole value. Nothing is printed for it.
    ///
    /// If the printer has offsets, `start` is the offset that the line begins with.
    pub fn key(&mut self, name: &str, index: usize, start: usize) {
        match self.form {
            Form::Json => self.json_key(name),
            Form::Lines => self.line_key(name, index, start),
        }
        self.is_first = false;
    }

    fn json_key(&mut self, name: &str) {
        if name.is_empty() {
            return;
        }
        if !self.is_first {
            self.out.put(",");
        }
        self.new_line();
        if name != "-" {
            self.out.put("\"");
            self.out.put(name);
            self.out.put("\": ");
        }
    }

    fn line_key(&mut self, name: &str, index: usize, start: usize) {
        if name.is_empty() {
            return;
        }
        if self.has_offsets {
            let _ = write!(self.out, "{start:>5}: ");
        }
        self.out.put_spaces(self.depth.saturating_mul(4));
        if name == "-" {
            self.out.put("[");
            self.out.put_number(index as u64);
            self.out.put("]:");
        } else {
            self.out.put(name);
            self.out.put(":");
        }
    }

    fn new_line(&mut self) {
        self.out.put("\n");
        self.out.put_spaces(self.depth.saturating_mul(2));
    }

    /// Opens an object or a list. In JSON, prints `bracket`. In lines, starts a new line and
    /// indents the following lines; if `is_named` is false, does nothing in lines.
    pub fn open(&mut self, bracket: &str, is_named: bool) {
        match self.form {
            Form::Json => {
                self.out.put(bracket);
                self.depth = self.depth.saturating_add(1);
            }
            Form::Lines if is_named => {
                self.out.put("\n");
                self.depth = self.depth.saturating_add(1);
            }
            Form::Lines => {}
        }
        self.is_first = true;
    }

    /// Closes the innermost object or list. In JSON, prints `bracket`. In lines, ends the
    /// indentation; if `is_named` is false, does nothing in lines.
    pub fn close(&mut self, bracket: &str, is_named: bool) {
        match self.form {
            Form::Json => {
                self.depth = self.depth.saturating_sub(1);
                if !self.is_first {
                    self.new_line();
                }
                self.out.put(bracket);
            }
            Form::Lines if is_named => self.depth = self.depth.saturating_sub(1),
            Form::Lines => {}
        }
        self.is_first = false;
    }

    /// Prints a missing value: `null` in JSON, and nothing but the end of the line in lines.
    pub fn put_nothing(&mut self) {
        if self.form == Form::Json {
            self.out.put("null");
        }
        self.end_value();
    }

    /// In lines, ends the line of a value that has no inner elements. In JSON, prints nothing.
    pub fn end_value(&mut self) {
        if self.form == Form::Lines {
            self.out.put("\n");
        }
    }
}
