//! Tables of ASN.1 types, and the kinds of values that the library knows.

use der_c_tree::{
    der_kind_find, der_kind_of_label, der_kind_type, der_known_types, der_known_types_room,
    der_type_find, put_kind_word,
};
use schema_read::Entry;
use schema_types::Schema;

/// A size of memory that is enough for the table that [`page_table`] writes.
#[unsafe(no_mangle)]
pub extern "C" fn page_table_room() -> usize {
    der_known_types_room()
}

/// Writes the table of the ASN.1 types that `der_show` knows to the start of `table`. Returns the
/// number of octets written.
#[unsafe(no_mangle)]
pub extern "C" fn page_table(table: &mut [u8]) -> usize {
    der_known_types(table)
}

/// The number of types in `table`, a table of types such as `asn1_compile --schema` writes. 0 if
/// `table` is not a table of types.
#[unsafe(no_mangle)]
pub extern "C" fn page_types(table: &[u8]) -> u32 {
    match Schema::new(table) {
        Ok(schema) => schema.counts().nodes,
        Err(_) => 0,
    }
}

/// Returns the index of the type with the name `name` in `table`, a table of types. Returns
/// [`NONE`](der_c_tree::NONE) if the table has no type with this name, or if `table` is not a table
/// of types.
#[unsafe(no_mangle)]
pub extern "C" fn page_type(table: &[u8], name: &[u8]) -> u32 {
    der_type_find(table, name)
}

/// Returns the number of the kind of the value in `octets`, such as a certificate or a private key.
/// `table` must be the table that [`page_table`] writes. `entries`, `marks` and `text` are working
/// memory. Returns [`NONE`](der_c_tree::NONE) if the value is of no known kind, and
/// [`FULL`](der_c_tree::FULL) if there is too little working memory.
#[unsafe(no_mangle)]
pub extern "C" fn page_find(
    table: &[u8],
    octets: &[u8],
    entries: &mut [Entry],
    marks: &mut [u32],
    text: &mut [u8],
) -> u32 {
    der_kind_find(table, octets, entries, marks, text)
}

/// Returns the number of the kind of value that a PEM block with the label `label` should contain.
/// Returns [`NONE`](der_c_tree::NONE) if the label stands for no known kind.
#[unsafe(no_mangle)]
pub extern "C" fn page_kind_of_label(label: &[u8]) -> u32 {
    der_kind_of_label(label)
}

/// Returns the index of a type in the table that [`page_table`] writes. It is the type of the kind
/// with the number `kind`. If no kind has this number, it is the type of any element.
#[unsafe(no_mangle)]
pub extern "C" fn page_node(kind: u32) -> u32 {
    der_kind_type(kind)
}

/// Writes the word for the kind with the number `kind` to the start of `text`. It is the word that
/// the option `--as` of `der_show` takes, or `elements` if no kind has this number. Returns the
/// number of octets of the word, or `usize::MAX` if `text` is too short.
#[unsafe(no_mangle)]
pub extern "C" fn page_kind_word(kind: u32, text: &mut [u8]) -> usize {
    put_kind_word(kind, text)
}
