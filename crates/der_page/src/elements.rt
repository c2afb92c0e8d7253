//! Reading the elements of a value, and the departures of its encoding from DER.
ghost use Rattle.std.specs.Prelude.{◌≡◌, ◌↔◌, ◌≤◌, true, false, length, take};
ghost use Rattle.schema_types.specs.Table.{table_in};
ghost use Rattle.schema_read.specs.Encoding.{IsDer, IsBer};
ghost use Rattle.schema_read.specs.Entries.{are_placed};

use der_c_tree::{DerTreeFound, der_tree_read};
use schema_read::Entry;

/// Reads `octets` as a value of a type. `node` is the index of the type in `table`, a table of
/// types. Stores the elements in `entries`, and sets `found`. `marks` and `text` are working
/// memory.
///
/// A departure is a place at which the octets break a rule of DER. The departures are printed into
/// `list` as JSON, in the form of `der_show --json`. Each has the index of its element. If the
/// departures do not fit, the octets of `list` are unspecified.
///
/// Returns false, and leaves `found` unchanged, if `entries`, `marks` or `text` is too short, if
/// `table` is not a table of types, or if it has no type with this index.
#[unsafe(no_mangle)]
pub extern "C" fn page_read(
    table: &[u8],
    node: u32,
    octets: &[u8],
    entries: &mut [Entry],
    marks: &mut [u32],
    text: &mut [u8],
    list: &mut [u8],
    found: &mut DerTreeFound,
) -> bool
    ensures der { result ≡ true
        → (found.new.verdict ≡ 0) ↔ IsDer (table_in table.now) node octets.now }
    ensures ber { result ≡ true
        → (found.new.verdict ≤ 1) ↔ IsBer (table_in table.now) node octets.now }
    ensures placed { result ≡ true
        → are_placed (length octets.now) (take found.new.entries entries.new) ≡ true }
    ensures fits { result ≡ true → found.new.entries ≤ length entries.new }
    ensures same { result ≡ false → found.new ≡ found.old }
{
    der_tree_read(table, node, octets, entries, marks, text, list, found)
}
