//! Counts the octets of a damaged value whose type is still known.

use schema_read::Entry;
use schema_types::Schema;

/// Counts the octets that belong to elements whose type is in the table of types. `entries` are the
/// elements of a tree, of which only the first `elements` are counted. The header of an element is
/// always counted. Its contents are counted only if no elements are inside.
pub fn typed_len(schema: &Schema<'_>, entries: &[Entry], elements: usize) -> usize {
    let mut rest = entries.get(..elements).unwrap_or(entries);
    let mut count = 0usize;
    for _ in 0..elements {
        let [entry, after @ ..] = rest else {
            break;
        };
        if entry.kind < schema.counts().nodes {
            count = count.saturating_add(own_len(entry, after));
        }
        rest = after;
    }
    count
}

// The octets of an element that are of no element inside it.
fn own_len(entry: &Entry, after: &[Entry]) -> usize {
    let header = entry.header_len as usize;
    match after {
        [next, ..] if next.depth > entry.depth => header,
        _ => header.saturating_add(entry.contents_len),
    }
}
