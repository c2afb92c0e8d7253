//! Prints values as JSON.

use crate::departures::Departures;
use crate::lint::put_finding;
use crate::place::Place;
use crate::print::take_output;
use crate::rewritten::rewritten;
use crate::show::Show;
use crate::value::Target;
use der::DecodeBytes;
use der_print::{Characters, Form, Output, Printer, Sink, Style, print_json, put_text};
use schema_cursor::Cursor;
use schema_kinds::{Kind, read_as};
use std::fmt::Write;
use x509::{Certificate, CertificateList};
use x509_lint::{LIST_RULES, findings, list_keeps};

/// Begins the JSON object for a file. Prints the name of the file, and opens the list of its
/// values.
pub fn begin_file(show: &mut Show<'_>, file: &str) {
    show.count = 0;
    show.outside = Output::new(show.page.alloc, Sink::Memory);
    show.has_outside = false;
    show.page.put("{\n  \"file\": ");
    put_string(&mut show.page.out, file);
    show.page.put(",\n  \"values\": [");
}

/// Ends the JSON object for a file. Closes the list of its values. Then prints the list of the
/// departures that are in none of them, and the number of all departures of the file.
pub fn end_file(show: &mut Show<'_>) {
    if show.count > 0 {
        show.page.put("\n  ");
    }
    let out = &mut show.page.out;
    out.put("],\n  \"departures\": [");
    out.put_bytes(show.outside.target.buffer.as_slice());
    out.has_failed = out.has_failed || show.outside.has_failed;
    out.put(if show.has_outside { "\n  ]" } else { "]" });
    out.put(",\n  \"departureCount\": ");
    out.put_number(show.departures as u64);
    out.put("\n}\n");
}

/// Prints a text as a JSON string.
pub fn put_string(out: &mut Output, text: &str) {
    out.put("\"");
    put_text(out, text.as_bytes(), Characters::Utf8, Style::Json);
    out.put("\"");
}

// Begins the object of a value, up to what the value is.
fn begin_value(show: &mut Show<'_>, place: &Place<'_>, kind: &str, start: usize) {
    show.page.put(if show.count > 0 {
        ",\n    {"
    } else {
        "\n    {"
    });
    show.count = show.count.saturating_add(1);
    if let Some(label) = place.label {
        show.page.put("\n      \"label\": ");
        put_string(&mut show.page.out, label);
        show.page.put(",\n      \"line\": ");
        show.page.number(place.line as u64);
        show.page.put(",");
    }
    show.page.put("\n      \"kind\": \"");
    show.page.put(kind);
    show.page.put("\",\n      \"offset\": ");
    show.page.number(start as u64);
}

/// Prints `value` and its departures as a JSON object. The object is an item in the list of the
/// values of the file.
pub fn put_json_value(
    show: &mut Show<'_>,
    place: &Place<'_>,
    target: Target,
    value: Cursor<'_>,
    departures: Departures<'_, '_>,
) {
    begin_value(show, place, target.word(), departures.base);
    if matches!(target, Target::Kind(Kind::Certificate)) && show.options.is_lint {
        put_json_lint(show, value, departures.octets, departures.base);
    }
    if matches!(target, Target::Kind(Kind::RevocationList)) && show.options.is_lint {
        put_json_list_lint(show, value.octets());
    }
    show.page.put(",\n      \"value\": ");
    let mut printer = Printer::new(take_output(&mut show.page), Form::Json);
    printer.depth = 3;
    let printer = print_json(show.page.schema, printer, value);
    show.page.out = printer.out;
    departures.put_json(show);
    show.page.put("\n    }");
}

// The rules that a certificate breaks, as a list of texts.
fn put_json_lint(show: &mut Show<'_>, value: Cursor<'_>, octets: &[u8], base: usize) {
    match Certificate::from_der(show.page.alloc, value.octets()) {
        Ok(certificate) => put_json_findings(show, value, base, &certificate),
        Err(_) => put_json_lint_of_der(show, octets),
    }
}

// The rules that the DER encoding of a certificate in BER breaks. Offsets are those in the encoding.
fn put_json_lint_of_der(show: &mut Show<'_>, octets: &[u8]) {
    let (alloc, schema, node) = (show.page.alloc, show.page.schema, Kind::Certificate.node());
    let Ok(written) = rewritten(alloc, schema, node, octets) else {
        return;
    };
    let octets = written.octets.as_slice();
    let certificate = Certificate::from_der(alloc, octets);
    if let (Ok(certificate), Ok(tree)) = (certificate, read_as(alloc, schema, node, octets)) {
        if let Some(root) = Cursor::root(octets, schema, &tree) {
            show.page.put(",\n      \"lintOf\": \"DER\"");
            put_json_findings(show, root, 0, &certificate);
        }
    }
}

fn put_json_findings(
    show: &mut Show<'_>,
    root: Cursor<'_>,
    base: usize,
    certificate: &Certificate<'_>,
) {
    show.page.put(",\n      \"lint\": [");
    let mut is_first = true;
    for finding in findings(show.page.alloc, certificate) {
        show.page.put(if is_first { "\"" } else { ", \"" });
        is_first = false;
        put_finding(&mut show.page.out, root, base, &finding);
        show.page.put("\"");
        show.status = 1;
    }
    show.page.put("]");
}

// The rules that a revocation list breaks, as a list of texts; none if the list is not DER.
fn put_json_list_lint(show: &mut Show<'_>, octets: &[u8]) {
    let alloc = show.page.alloc;
    let Ok(list) = CertificateList::from_der(alloc, octets) else {
        return;
    };
    show.page.put(",\n      \"lint\": [");
    let mut is_first = true;
    for rule in LIST_RULES.iter() {
        if !list_keeps(alloc, &list, *rule) {
            show.page.put(if is_first { "\"" } else { ", \"" });
            is_first = false;
            let _ = write!(show.page.out, "list: {rule}\"");
            show.status = 1;
        }
    }
    show.page.put("]");
}

/// Prints a JSON object for a PEM block that is encrypted as RFC 1421 describes. The object is an
/// item in the list of the values of the file. `info` is the value of the header `DEK-Info` of the
/// block.
pub fn put_json_encrypted(show: &mut Show<'_>, place: &Place<'_>, info: &[u8]) {
    begin_value(show, place, "encrypted-pem", 0);
    show.page.put(",\n      \"dekInfo\": \"");
    put_text(&mut show.page.out, info, Characters::Utf8, Style::Json);
    show.page.put("\"\n    }");
}
