//! Finding elements of a tree, by a path or by their position.
ghost use Rattle.std.specs.Prelude.{◌≡◌, ◌<◌, ◌-◌, ◌^◌, ◌⊎◌, IfSome, length};
ghost use Rattle.schema_cursor.specs.Cursor.{IsOf};

use crate::answer::NO_ROOM;
use schema_cursor::Cursor;
use schema_read::Entry;
use schema_types::Schema;

/// Follows `path` from the element with the index `from`, and returns the index of the element at
/// its end. A path consists of names of fields, with full stops between them. A number in brackets
/// selects an item of a list, counted from 0. An example is
/// `tbsCertificate.extensions[2].extnValue.cA`.
///
/// `entries` is the tree that `der_tree_read` has read from `octets` with `table`. Returns
/// `SIZE_MAX` if there is no such element, or if `table` is not a table of types.
pub fn der_tree_find<'a>(
    table: &'a [u8],
    octets: &'a [u8],
    entries: &'a [Entry],
    from: usize,
    path: &'a [u8],
) -> usize
    ensures { (result ≡ 2 ^ 64 - 1) ⊎ (result < length entries.now) }
{
    let Ok(schema) = Schema::new(table) else {
        return NO_ROOM;
    };
    let Some(element) = element_at(octets, &schema, entries, from) else {
        return NO_ROOM;
    };
    let Ok(path) = std::str::from_utf8(path) else {
        return NO_ROOM;
    };
    match element.at(path) {
        Some(found) => found.index(),
        None => NO_ROOM,
    }
}

/// Returns the index of an element directly inside the element with the index `parent`. `number` is
/// the position of the element among all elements directly inside, counted from 0. `entries` is the
/// tree that `der_tree_read` has read from `octets` with `table`. Returns `SIZE_MAX` if there is no
/// such element, or if `table` is not a table of types.
pub fn der_tree_child<'a>(
    table: &'a [u8],
    octets: &'a [u8],
    entries: &'a [Entry],
    parent: usize,
    number: usize,
) -> usize
    ensures { (result ≡ 2 ^ 64 - 1) ⊎ (result < length entries.now) }
{
    let Ok(schema) = Schema::new(table) else {
        return NO_ROOM;
    };
    let Some(element) = element_at(octets, &schema, entries, parent) else {
        return NO_ROOM;
    };
    match element.item(number) {
        Some(found) => found.index(),
        None => NO_ROOM,
    }
}

/// The element with the index `index` in the tree `entries`, which was read from `octets` with
/// `schema`. `None` if the tree has no element with this index.
pub(crate) fn element_at<'a>(
    octets: &'a [u8],
    schema: &'a Schema<'a>,
    entries: &'a [Entry],
    index: usize,
) -> Option<Cursor<'a>>
    ensures { IfSome result (λ c. IsOf octets.now schema.now entries.now c × (c.index ≡ index)) }
{
    Cursor::over(octets, schema, entries)?.element(index)
}
