//! Values of any known type as trees, for C.
//!
//! Written by tools/c_interface: change the crates that der_c uses instead.
ghost use Rattle.der_c_tree.specs.Part.{IsPartOf};
ghost use Rattle.schema_read.specs.Encoding.{IsBer, IsDer};
ghost use Rattle.schema_read.specs.Entries.{are_placed};
ghost use Rattle.schema_types.specs.Table.{table_in};
ghost use Rattle.std.specs.Prelude.{false, length, take, true, ◌-◌, ◌<◌, ◌^◌, ◌↔◌, ◌≡◌, ◌≤◌, ◌⊎◌};

use der_c_core::DerSpan;
use der_c_tree::DerTreeFound;
use schema_read::Entry;

/// A size of memory that is enough for the table that `der_known_types` writes.
#[unsafe(no_mangle)]
pub extern "C" fn der_known_types_room() -> usize {
    der_c_tree::der_known_types_room()
}

/// Writes the table of the ASN.1 types that the library knows to the start of `table`. Returns the
/// number of octets written. `der_known_types_room` octets are always enough. If `table` is too
/// short, writes only the first part of the table, which cannot be used.
#[unsafe(no_mangle)]
pub extern "C" fn der_known_types(table: &mut [u8]) -> usize {
    der_c_tree::der_known_types(table)
}

/// Returns the index of the type with the name `name` in `table`. `table` is a table of types, such
/// as `asn1_compile --schema` writes. Returns `NONE` if the table has no type with this name, or
/// if `table` is not a table of types.
#[unsafe(no_mangle)]
pub extern "C" fn der_type_find(table: &[u8], name: &[u8]) -> u32 {
    der_c_tree::der_type_find(table, name)
}

/// Returns the number of the kind of the value in `octets`, such as a certificate or a private key.
/// `table` must be the table that `der_known_types` writes. `entries`, `marks` and `text` are
/// working memory. Returns `NONE` if the value is of no known kind, and `FULL` if there is too
/// little working memory.
#[unsafe(no_mangle)]
pub extern "C" fn der_kind_find(
    table: &[u8],
    octets: &[u8],
    entries: &mut [Entry],
    marks: &mut [u32],
    text: &mut [u8],
) -> u32 {
    der_c_tree::der_kind_find(table, octets, entries, marks, text)
}

/// Returns the number of the kind of value that a PEM block with the label `label` should contain.
/// Returns `NONE` if the label stands for no known kind.
#[unsafe(no_mangle)]
pub extern "C" fn der_kind_of_label(label: &[u8]) -> u32 {
    der_c_tree::der_kind_of_label(label)
}

/// Returns the index of a type in the table that `der_known_types` writes. It is the type of the
/// kind with the number `kind`. If no kind has this number, it is the type of any element.
#[unsafe(no_mangle)]
pub extern "C" fn der_kind_type(kind: u32) -> u32 {
    der_c_tree::der_kind_type(kind)
}

/// Writes the word for the kind with the number `kind`, and a zero octet. It is the word that the
/// option `--as` of `der_show` takes, or `elements` if no kind has this number. Returns the number
/// of octets of the word, without the zero octet. Returns `SIZE_MAX` if `text` is too short.
#[unsafe(no_mangle)]
pub extern "C" fn der_kind_word(kind: u32, text: &mut [u8]) -> usize {
    der_c_tree::der_kind_word(kind, text)
}

/// Reads `octets` as a value of a type. `node` is the index of the type in `table`, a table of
/// types. Stores the elements in `entries`, and sets `found`. `marks` and `text` are working
/// memory.
///
/// A departure is a place at which the octets break a rule of DER. Reading continues after a
/// departure. The departures are printed into `list` as JSON, in the form of `der_show --json`.
/// Each has the index of its element. If the departures do not fit, the octets of `list` are
/// unspecified.
///
/// Returns false, and leaves `found` unchanged, if `entries`, `marks` or `text` is too short, if
/// `table` is not a table of types, or if it has no type with this index.
#[unsafe(no_mangle)]
pub extern "C" fn der_tree_read(
    table: &[u8],
    node: u32,
    octets: &[u8],
    entries: &mut [Entry],
    marks: &mut [u32],
    text: &mut [u8],
    list: &mut [u8],
    found: &mut DerTreeFound,
) -> bool
    ensures der { result ≡ true
        → (found.new.verdict ≡ 0) ↔ IsDer (table_in table.now) node octets.now }
    ensures ber { result ≡ true
        → (found.new.verdict ≤ 1) ↔ IsBer (table_in table.now) node octets.now }
    ensures placed { result ≡ true
        → are_placed (length octets.now) (take found.new.entries entries.new) ≡ true }
    ensures fits { result ≡ true → found.new.entries ≤ length entries.new }
    ensures same { result ≡ false → found.new ≡ found.old }
{
    der_c_tree::der_tree_read(table, node, octets, entries, marks, text, list, found)
}

/// Follows `path` from the element with the index `from`, and returns the index of the element at
/// its end. A path consists of names of fields, with full stops between them. A number in brackets
/// selects an item of a list, counted from 0. An example is
/// `tbsCertificate.extensions[2].extnValue.cA`.
///
/// `entries` is the tree that `der_tree_read` has read from `octets` with `table`. Returns
/// `SIZE_MAX` if there is no such element, or if `table` is not a table of types.
#[unsafe(no_mangle)]
pub extern "C" fn der_tree_find<'a>(
    table: &'a [u8],
    octets: &'a [u8],
    entries: &'a [Entry],
    from: usize,
    path: &'a [u8],
) -> usize
    ensures { (result ≡ 2 ^ 64 - 1) ⊎ (result < length entries.now) }
{
    der_c_tree::der_tree_find(table, octets, entries, from, path)
}

/// Returns the index of an element directly inside the element with the index `parent`. `number` is
/// the position of the element among all elements directly inside, counted from 0. `entries` is the
/// tree that `der_tree_read` has read from `octets` with `table`. Returns `SIZE_MAX` if there is no
/// such element, or if `table` is not a table of types.
#[unsafe(no_mangle)]
pub extern "C" fn der_tree_child<'a>(
    table: &'a [u8],
    octets: &'a [u8],
    entries: &'a [Entry],
    parent: usize,
    number: usize,
) -> usize
    ensures { (result ≡ 2 ^ 64 - 1) ⊎ (result < length entries.now) }
{
    der_c_tree::der_tree_child(table, octets, entries, parent, number)
}

/// Sets `part` to all octets of the element with the index `index`: its header and its contents.
/// Returns false, and leaves `part` unchanged, if there is no element with this index.
#[unsafe(no_mangle)]
pub extern "C" fn der_tree_octets<'a>(
    octets: &'a [u8],
    entries: &[Entry],
    index: usize,
    part: &mut DerSpan<'a>,
) -> bool
    ensures given { result ≡ true → IsPartOf octets.now part.new.octets.now }
    ensures same { result ≡ false → part.new ≡ part.old }
{
    der_c_tree::der_tree_octets(octets, entries, index, part)
}

/// Sets `part` to the contents octets of the element with the index `index`. Returns false, and
/// leaves `part` unchanged, if there is no element with this index.
#[unsafe(no_mangle)]
pub extern "C" fn der_tree_contents<'a>(
    octets: &'a [u8],
    entries: &[Entry],
    index: usize,
    part: &mut DerSpan<'a>,
) -> bool
    ensures given { result ≡ true → IsPartOf octets.now part.new.octets.now }
    ensures same { result ≡ false → part.new ≡ part.old }
{
    der_c_tree::der_tree_contents(octets, entries, index, part)
}

/// Writes the name of the element with the index `index`, and a zero octet. It is the name of the
/// field or of the CHOICE alternative; the name is empty if there is none. Returns the number of
/// octets of the name, without the zero octet. Returns `SIZE_MAX` if `text` is too short, if
/// `table` is not a table of types, or if there is no element with this index.
#[unsafe(no_mangle)]
pub extern "C" fn der_tree_name<'a>(
    table: &'a [u8],
    octets: &'a [u8],
    entries: &'a [Entry],
    index: usize,
    text: &mut [u8],
) -> usize {
    der_c_tree::der_tree_name(table, octets, entries, index, text)
}

/// Writes the name of the type of the element with the index `index`, and a zero octet. The name is
/// empty if the type has no name. Returns the number of octets of the name, without the zero octet.
/// Returns `SIZE_MAX` if `text` is too short, if `table` is not a table of types, or if there is no
/// element with this index.
#[unsafe(no_mangle)]
pub extern "C" fn der_tree_type<'a>(
    table: &'a [u8],
    octets: &'a [u8],
    entries: &'a [Entry],
    index: usize,
    text: &mut [u8],
) -> usize {
    der_c_tree::der_tree_type(table, octets, entries, index, text)
}

/// Writes a text for the element with the index `index`, and a zero octet. The text is:
///
/// - for a primitive element, its value;
/// - for a distinguished name, the name;
/// - for any other element that begins with an OBJECT IDENTIFIER, this OBJECT IDENTIFIER;
/// - for any other element, empty.
///
/// Returns the number of octets of the text, without the zero octet. Returns `SIZE_MAX` if `text`
/// is too short, if `table` is not a table of types, or if there is no element with this index.
#[unsafe(no_mangle)]
pub extern "C" fn der_tree_text<'a>(
    table: &'a [u8],
    octets: &'a [u8],
    entries: &'a [Entry],
    index: usize,
    text: &mut [u8],
) -> usize {
    der_c_tree::der_tree_text(table, octets, entries, index, text)
}
