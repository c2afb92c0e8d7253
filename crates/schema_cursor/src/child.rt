//! Finds the elements directly inside an element.
ghost use Rattle.std.specs.Prelude.{◌<◌, ℕ, length, IfSome, IfNone};
ghost use Rattle.schema_cursor.specs.Children.{IsChild, IsFirstChild};

use schema_read::Entry;

/// The index of the first entry that is directly inside the entry with the index `parent`. Entries
/// before the index `from` are not searched. `None` if there is no such entry.
pub(crate) fn next_child(entries: &[Entry], parent: usize, from: usize) -> Option<usize>
    requires { parent < length entries.now }
    ensures some { IfSome result (IsFirstChild entries.now parent from) }
    ensures none { IfNone result ((k : ℕ) → IsChild entries.now parent from k → ⊥) }
{
    let depth = entries[parent].depth;
    for k in from..entries.len() {
        let entry = entries[k];
        if entry.depth <= depth {
            return None;
        }
        if entry.parent == parent {
            return Some(k);
        }
    }
    None
}
