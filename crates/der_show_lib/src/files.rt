//! Shows a whole file, which is PEM, another text, DER or BER.

use crate::blocks::{show_blocks, show_decoded};
use crate::departures::put_totals;
use crate::json::{begin_file, end_file};
use crate::options::Shown;
use crate::place::Place;
use crate::show::Show;
use crate::texts::pem_text;
use pem::Blocks;
use schema_kinds::{ANY, is_encoding};
use std::str;

/// Shows a file with the name `file` and the contents `octets`. For an empty file, prints an error.
pub fn show_octets(show: &mut Show<'_>, file: &str, octets: &[u8]) {
    let place = Place {
        file,
        label: None,
        line: 0,
    };
    if octets.is_empty() {
        show.error(&place, "the file is empty");
        return;
    }
    show.departures = 0;
    show.faults = 0;
    if show.options.shown == Shown::Json {
        begin_file(show, file);
    }
    if is_pem(octets) {
        show_blocks(show, &place, octets);
    } else if !show_other_text(show, &place, octets) {
        if is_other_text(show, octets) {
            show.error(&place, "the file is a text without a PEM block");
        } else {
            show_decoded(show, &place, octets);
        }
    }
    if show.options.shown == Shown::Json {
        end_file(show);
    }
    put_totals(show);
}

// Shows the blocks of a text that is PEM but for its form, and returns true if it has one.
fn show_other_text(show: &mut Show<'_>, place: &Place<'_>, octets: &[u8]) -> bool {
    let has_mark = matches!(octets, [0xFF, 0xFE, ..] | [0xFE, 0xFF, ..]);
    if !has_mark && !is_plain(octets) {
        return false;
    }
    match pem_text(show.page.alloc, octets) {
        Ok(text) if is_pem(text.as_slice()) => {
            show_blocks(show, place, text.as_slice());
            true
        }
        Ok(_) => false,
        Err(_) => {
            show.memory_error(place);
            true
        }
    }
}

// Whether the octets are text, and no element. If the user gave their type, they are not judged.
fn is_other_text(show: &Show<'_>, octets: &[u8]) -> bool {
    is_plain(octets)
        && show.node.is_none()
        && show.options.kind.is_none()
        && !matches!(
            is_encoding(show.page.alloc, show.page.schema, ANY, octets),
            Ok(true)
        )
}

/// Whether `octets` are PEM. A line must begin a PEM block, and the text before this line must have
/// no control characters except white space.
fn is_pem(octets: &[u8]) -> bool {
    match Blocks::new(octets).next_block() {
        Some(Ok(block)) => is_plain(octets.get(..block.begin().offset).unwrap_or(&[])),
        Some(Err(error)) => is_plain(octets.get(..error.position.offset).unwrap_or(&[])),
        None => false,
    }
}

// Whether the octets are text, without control characters except white space.
fn is_plain(octets: &[u8]) -> bool {
    match str::from_utf8(octets) {
        Ok(text) => text.chars().all(|c| !c.is_control()
            || matches!(c, '\t' | '\n' | '\r' | '\u{c}')),
        Err(_) => octets
            .iter()
            .all(|octet| *octet >= 32 || matches!(*octet, 9 | 10 | 12 | 13)),
    }
}
