//! Tables of ASN.1 types, and the kinds of values that the library knows.

use crate::answer::{FULL, NONE};
use crate::ended::ended;
use crate::output::printed;
use der_print::{Output, Space};
use schema_kinds::{ANY, KINDS, Kind, Room, TABLE_ROOM, find_kind_in, put_table};
use schema_read::{Departure, Entry};
use schema_types::Schema;

/// A size of memory that is enough for the table that [`der_known_types`] writes.
pub fn der_known_types_room() -> usize {
    TABLE_ROOM
}

/// Writes the table of the ASN.1 types that the library knows to the start of `table`. Returns the
/// number of octets written. `der_known_types_room` octets are always enough. If `table` is too
/// short, writes only the first part of the table, which cannot be used.
pub fn der_known_types(table: &mut [u8]) -> usize {
    put_table(table)
}

/// Returns the index of the type with the name `name` in `table`. `table` is a table of types, such
/// as `asn1_compile --schema` writes. Returns [`NONE`] if the table has no type with this name, or
/// if `table` is not a table of types.
pub fn der_type_find(table: &[u8], name: &[u8]) -> u32 {
    let Ok(schema) = Schema::new(table) else {
        return NONE;
    };
    match std::str::from_utf8(name) {
        Ok(name) => schema.find_node(name).unwrap_or(NONE),
        Err(_) => NONE,
    }
}

/// Returns the number of the kind of the value in `octets`, such as a certificate or a private key.
/// `table` must be the table that `der_known_types` writes. `entries`, `marks` and `text` are
/// working memory. Returns [`NONE`] if the value is of no known kind, and [`FULL`] if there is too
/// little working memory.
pub fn der_kind_find(
    table: &[u8],
    octets: &[u8],
    entries: &mut [Entry],
    marks: &mut [u32],
    text: &mut [u8],
) -> u32 {
    let Ok(schema) = Schema::new(table) else {
        return NONE;
    };
    let mut departures: [Departure; 0] = [];
    let mut room = Room {
        entries,
        departures: &mut departures,
        marks,
        text,
    };
    match find_kind_in(&mut room, &schema, octets) {
        Ok(Some(kind)) => number_of(kind),
        Ok(None) => NONE,
        Err(_) => FULL,
    }
}

// The number of a kind: its place in the list of them.
fn number_of(kind: Kind) -> u32 {
    let mut number = 0u32;
    for each in KINDS {
        if each == kind {
            return number;
        }
        number = number.saturating_add(1);
    }
    NONE
}

/// Returns the number of the kind of value that a PEM block with the label `label` should contain.
/// Returns [`NONE`] if the label stands for no known kind.
pub fn der_kind_of_label(label: &[u8]) -> u32 {
    match std::str::from_utf8(label) {
        Ok(label) => match Kind::of_label(label) {
            Some(kind) => number_of(kind),
            None => NONE,
        },
        Err(_) => NONE,
    }
}

/// Returns the index of a type in the table that `der_known_types` writes. It is the type of the
/// kind with the number `kind`. If no kind has this number, it is the type of any element.
pub fn der_kind_type(kind: u32) -> u32 {
    match KINDS.get(kind as usize) {
        Some(kind) => kind.node(),
        None => ANY,
    }
}

/// Writes the word for the kind with the number `kind`, and a zero octet. It is the word that the
/// option `--as` of `der_show` takes, or `elements` if no kind has this number. Returns the number
/// of octets of the word, without the zero octet. Returns `SIZE_MAX` if `text` is too short.
pub fn der_kind_word(kind: u32, text: &mut [u8]) -> usize {
    let count = put_kind_word(kind, text);
    ended(text, count)
}

/// Writes the word for the kind with the number `kind`, as [`der_kind_word`] does, but without a
/// zero octet. Returns the number of octets of the word, or `usize::MAX` if `text` is too short.
pub fn put_kind_word(kind: u32, text: &mut [u8]) -> usize {
    let mut out = Output::to(Space::new(text));
    out.put(match KINDS.get(kind as usize) {
        Some(kind) => kind.word(),
        None => "elements",
    });
    printed(&out)
}
