//! The state of the program while it shows files.

use crate::options::Options;
use crate::place::Place;
use der_print::{Characters, Output, Page, Style, put_text};

/// The outputs of the program, its options, and the results so far.
#[derive(Drop)]
pub struct Show<'s> {
    /// The page whose lines go to standard output.
    pub page: Page<'s>,
    /// The output for standard error.
    pub errors: Output,
    /// How to read the files, and what to print.
    pub options: Options,
    /// The index, in the table of types, of the type that the user gave for the files. `None` if
    /// the user gave no type.
    pub node: Option<u32>,
    /// The exit status so far.
    pub status: u8,
    /// Whether the label of the current PEM block is that of a private key, or the octets of the
    /// block or the file may be one.
    pub is_private: bool,
    /// The number of values of the current file that were printed as JSON.
    pub count: usize,
    /// The number of departures from DER in the current file.
    pub departures: usize,
    /// The number of places in the current file where the octets are not even valid BER.
    pub faults: usize,
    /// The departures of the current file that are in no value, as the items of a list in JSON.
    pub outside: Output,
    /// Whether `outside` has an item.
    pub has_outside: bool,
}

impl<'s> Show<'s> {
    /// Begins an error line on standard error: prints `error: ` and `place`. Sets the exit status
    /// to 1.
    pub fn begin_error(&mut self, place: &Place<'_>) {
        self.page.out.flush();
        self.status = 1;
        self.errors.put("error: ");
        put_place(&mut self.errors, place);
    }

    /// Prints an error line to standard error: `error: `, `place` and `reason`. Sets the exit
    /// status to 1.
    pub fn error(&mut self, place: &Place<'_>, reason: &str) {
        self.begin_error(place);
        self.errors.put(reason);
        self.errors.put("\n");
        self.errors.flush();
    }

    /// Prints an error line for `place`, which says that an allocation failed. Sets the exit status
    /// to 1.
    pub fn memory_error(&mut self, place: &Place<'_>) {
        self.error(place, "out of memory");
    }
}

/// Prints the name of the file and a colon. If the file is PEM, prints the label and the line of
/// the PEM block between them.
pub fn put_place(out: &mut Output, place: &Place<'_>) {
    put_plain(out, place.file);
    if let Some(label) = place.label {
        out.put(": ");
        put_plain(out, label);
        out.put(" at line ");
        out.put_number(place.line as u64);
    }
    out.put(": ");
}

/// Prints a text on a line. Hidden characters are escaped.
pub fn put_plain(out: &mut Output, text: &str) {
    put_text(out, text.as_bytes(), Characters::Utf8, Style::Line);
}
