//! Prints departures: the places at which a value breaks a rule of DER.

use crate::json::put_string;
use crate::options::Shown;
use crate::place::Place;
use crate::show::{Show, put_place};
use der_print::{
    FOUND, Output, Style, found_at, put_departure, put_departure_fields, put_octets_with, put_path,
    put_rule,
};
use schema_cursor::Cursor;
use schema_read::Departure;
use std::fmt::Write;

/// At most this number of departures of a value are printed. The others are only counted.
const PRINTED: usize = 100;

/// The departures of a value from the Distinguished Encoding Rules, and what is needed to print
/// them.
#[derive(Clone, Copy)]
pub struct Departures<'i, 'a> {
    /// The departures. The offset of a departure is counted from the start of `octets`.
    pub items: &'i [Departure],
    /// The octets of the value.
    pub octets: &'a [u8],
    /// Whether `octets` may be secret. Then none of them are printed.
    pub hides: bool,
    /// The outermost element of the value. `None` if the value was not read as a tree.
    pub root: Option<Cursor<'a>>,
    /// The position at which `octets` begin in the file, or in the contents of the PEM block. It is
    /// added to each offset that is printed.
    pub base: usize,
}

impl<'i, 'a> Departures<'i, 'a> {
    /// Adds the departures to the counts in `show`. If there is a departure, sets the exit status
    /// to 1. Then prints a line for each departure:
    ///
    /// - to standard output, if the output is text or only departures;
    /// - to standard error, if the output is DER or PEM;
    /// - not at all, if the output is short.
    ///
    /// If the output is JSON, an object is printed for each departure: into the list of the value,
    /// by [`put_json`](Departures::put_json), or into that of the file, if there is no value.
    pub fn put(self, show: &mut Show<'_>, place: &Place<'_>) {
        if self.items.is_empty() {
            return;
        }
        show.status = 1;
        show.departures = show.departures.saturating_add(self.items.len());
        for departure in self.items {
            if !departure.rule.verdict().is_ber() {
                show.faults = show.faults.saturating_add(1);
            }
        }
        match show.options.shown {
            Shown::Text => {
                show.page.out.put("Departures:\n");
                self.put_lines(&mut show.page.out, "    ");
            }
            Shown::Departures => {
                self.put_places(&mut show.page.out, place);
            }
            Shown::Json if self.root.is_none() => self.put_file_json(show, place),
            Shown::Json | Shown::Short => {}
            Shown::Der | Shown::Pem => {
                show.page.out.flush();
                self.put_places(&mut show.errors, place);
                show.errors.flush();
            }
        }
    }

    fn put_lines(self, out: &mut Output, indent: &str) {
        for departure in self.shown() {
            out.put(indent);
            self.put_line(out, departure);
        }
        self.put_more(out, indent);
    }

    // The same, with the place before each line.
    fn put_places(self, out: &mut Output, place: &Place<'_>) {
        for departure in self.shown() {
            put_place(out, place);
            self.put_line(out, departure);
        }
        self.put_more(out, "");
    }

    fn shown(self) -> &'i [Departure] {
        self.items.get(..PRINTED).unwrap_or(self.items)
    }

    fn put_more(self, out: &mut Output, indent: &str) {
        let more = self.items.len().saturating_sub(PRINTED);
        if more > 0 {
            out.put(indent);
            out.put("and ");
            out.put_number(more as u64);
            out.put(" more\n");
        }
    }

    // The path, the offset, the rule with its section, and the octets there.
    fn put_line(self, out: &mut Output, departure: &Departure) {
        if put_path(out, self.root, departure, Style::Line) {
            out.put(" ");
        }
        out.put("at offset ");
        out.put_number(self.base.saturating_add(departure.offset) as u64);
        out.put(": ");
        let _ = write!(out, "{}: ", departure.rule.section());
        put_rule(out, departure.rule);
        let found = found_at(self.octets, departure);
        if self.hides {
            out.put("; octets are not shown");
        } else if found.is_empty() {
            out.put("; found the end");
        } else {
            out.put("; found ");
            put_octets_with(out, found.get(..FOUND).unwrap_or(found), true);
            if found.len() > FOUND {
                out.put("..");
            }
        }
        out.put("\n");
    }

    /// Prints the JSON fields `departures`, the list of the first departures, and `departureCount`,
    /// the number of all departures.
    pub fn put_json(self, show: &mut Show<'_>) {
        let out = &mut show.page.out;
        out.put(",\n      \"departures\": [");
        let mut is_first = true;
        for departure in self.shown() {
            out.put(if is_first { "\n" } else { ",\n" });
            is_first = false;
            out.put("        ");
            put_departure(out, self.shown_octets(), self.root, self.base, departure);
        }
        out.put(if is_first { "]" } else { "\n      ]" });
        out.put(",\n      \"departureCount\": ");
        out.put_number(self.items.len() as u64);
    }

    // Adds the departures to the list at the end of the JSON object of the file.
    fn put_file_json(self, show: &mut Show<'_>, place: &Place<'_>) {
        for departure in self.shown() {
            let out = &mut show.outside;
            out.put(if show.has_outside {
                ",\n    {"
            } else {
                "\n    {"
            });
            show.has_outside = true;
            if let Some(label) = place.label {
                out.put("\"label\": ");
                put_string(out, label);
                out.put(", \"line\": ");
                out.put_number(place.line as u64);
                out.put(", ");
            }
            let octets = self.shown_octets();
            put_departure_fields(out, octets, self.root, self.base, departure);
            out.put("}");
        }
    }

    // The octets of the value, unless they may be secret.
    fn shown_octets(self) -> Option<&'a [u8]> {
        if self.hides { None } else { Some(self.octets) }
    }
}

/// Prints the number of departures from DER in a file, and how many of these depart from BER too.
/// Prints nothing if the file has no departures, or if the output is JSON, DER or PEM.
pub fn put_totals(show: &mut Show<'_>) {
    if show.departures == 0
        || !matches!(
            show.options.shown,
            Shown::Text | Shown::Departures | Shown::Short
        )
    {
        return;
    }
    show.page.number(show.departures as u64);
    show.page.put(if show.departures == 1 {
        " departure from DER, "
    } else {
        " departures from DER, "
    });
    show.page.number(show.faults as u64);
    show.page.put(" of them from BER too\n");
}
