//! Prints any value with the names of its fields.

use crate::certificate::put_certificate;
use crate::form::Form;
use crate::page::Page;
use crate::printer::Printer;
use crate::revocation::put_revocation_list;
use crate::text::{Output, Sink, Target};
use crate::walk::{Left, Walk, inside};
use crate::words::put_words;
use schema_cursor::Cursor;
use schema_types::Schema;
use std::alloc::Global;
use std::mem;

/// Prints the value `root` and all values inside it on lines, with the names of their fields. If
/// the printer has offsets, a line begins with `base` plus the offset of its element. A certificate
/// or a revocation list inside `root` is printed in the words of openssl. Returns the printer.
pub fn print_fields(
    alloc: Global,
    schema: &Schema<'_>,
    printer: Printer,
    root: Cursor<'_>,
    base: usize,
) -> Printer {
    let mut walk = Walk::new(schema, printer, base);
    for index in root.index()..usize::MAX {
        let Some(element) = inside(root, index) else {
            break;
        };
        if let Left::Words(wrappers) = walk.pass(element, index == root.index()) {
            if is_whole(element) {
                put_whole(&mut walk, alloc, element);
                walk.skip(element, wrappers);
            } else {
                put_in_words(&mut walk, alloc, element, wrappers);
            }
        }
    }
    walk.end()
}

/// Prints the value `root` and all values inside it as JSON, with the names of their fields.
/// Returns the printer.
pub fn print_json<T: Target>(
    schema: &Schema<'_>,
    printer: Printer<T>,
    root: Cursor<'_>,
) -> Printer<T> {
    let mut walk = Walk::new(schema, printer, 0);
    for index in root.index()..usize::MAX {
        let Some(element) = inside(root, index) else {
            break;
        };
        let _ = walk.pass(element, index == root.index());
    }
    walk.end()
}

/// Prints `element` and all values inside it on lines of `page`, with the names of their fields.
pub fn put_field_lines(page: &mut Page<'_>, element: Cursor<'_>) {
    let alloc = page.alloc;
    let out = mem::replace(&mut page.out, Output::new(alloc, Sink::Memory));
    let mut printer = Printer::new(out, Form::Lines);
    printer.has_offsets = page.has_offsets;
    printer.depth = page.indent / 4;
    let mut walk = Walk::new(page.schema, printer, page.base);
    for index in element.index()..usize::MAX {
        let Some(found) = inside(element, index) else {
            break;
        };
        if let Left::Words(wrappers) = walk.pass(found, index == element.index()) {
            put_in_words(&mut walk, alloc, found, wrappers);
        }
    }
    page.out = walk.end().out;
}

// Prints a certificate or a revocation list below its name.
fn put_whole(walk: &mut Walk<'_>, alloc: Global, element: Cursor<'_>) {
    let out = mem::replace(&mut walk.printer.out, Output::new(alloc, Sink::Memory));
    let mut page = Page::new(alloc, walk.schema, out, walk.printer.has_offsets);
    page.indent = walk.printer.depth.saturating_add(1).saturating_mul(4);
    page.base = walk.base;
    page.end();
    match element.type_name() {
        Some("Certificate") => put_certificate(&mut page, element),
        _ => put_revocation_list(&mut page, element),
    }
    walk.printer.out = page.out;
}

// Prints a value of a type that has words of its own, or begins another.
fn put_in_words(walk: &mut Walk<'_>, alloc: Global, element: Cursor<'_>, wrappers: u32) {
    let out = mem::replace(&mut walk.printer.out, Output::new(alloc, Sink::Memory));
    let mut page = Page::new(alloc, walk.schema, out, walk.printer.has_offsets);
    page.indent = walk.printer.depth.saturating_mul(4);
    page.base = walk.base;
    let is_put = put_words(&mut page, element);
    walk.printer.out = page.out;
    if is_put {
        walk.skip(element, wrappers);
    } else {
        walk.put(element, wrappers, true);
    }
}

// Whether a value is a certificate or a revocation list.
fn is_whole(element: Cursor<'_>) -> bool {
    element.is_constructed()
        && matches!(element.type_name(), Some("Certificate" | "CertificateList"))
}
