//! Cursors, which are elements of a tree.
ghost use Rattle.std.specs.Prelude.{◌<◌, length};

use crate::part::part_of;
use schema_read::{Entry, Tree};
use schema_types::Schema;

/// An element of a tree that `schema_read` has read, with the octets and the table of types of the
/// tree.
#[derive(Clone, Copy)]
pub struct Cursor<'a> {
    pub(crate) octets: &'a [u8],
    pub(crate) schema: &'a Schema<'a>,
    pub(crate) entries: &'a [Entry],
    pub(crate) index: usize,
    ghost there: { index < length entries.now },
}

impl<'a> Cursor<'a> {
    ghost use Rattle.std.specs.Prelude.{◌≡◌, ◌+◌, ◌≤◌, ◌<◌, length, Some, IfSome, IfNone, slice_get};
    ghost use Rattle.schema_cursor.specs.Cursor.{IsAt, IsOf, part_of};

    /// The outermost element of a tree. The tree must come from `read` of `schema_read`, with these
    /// octets and this table of types. `None` if the tree is empty.
    pub fn root(octets: &'a [u8], schema: &'a Schema<'a>, tree: &'a Tree) -> Option<Self>
        ensures some { IfSome result (λ c. IsOf octets.now schema.now tree.now.entries.items c × (c.index ≡ 0)) }
        ensures none { IfNone result (length tree.now.entries.items ≡ 0) }
    {
        Cursor::over(octets, schema, tree.entries.as_slice())
    }

    /// The outermost element of a tree in memory of the caller. `entries` must come from
    /// `read_into` of `schema_read`, with these octets and this table of types. `None` if there are
    /// no entries.
    pub fn over(octets: &'a [u8], schema: &'a Schema<'a>, entries: &'a [Entry]) -> Option<Self>
        ensures some { IfSome result (λ c. IsOf octets.now schema.now entries.now c × (c.index ≡ 0)) }
        ensures none { IfNone result (length entries.now ≡ 0) }
    {
        if entries.is_empty() {
            return None;
        }
        Some(Cursor {
            octets,
            schema,
            entries,
            index: 0,
        })
    }

    /// The element with this index among the entries of the tree. The `node` of a departure is one
    /// of these indices. `None` if there is no such element.
    pub fn element(self, index: usize) -> Option<Self>
        ensures some { IfSome result (IsAt self.entry index) }
        ensures none { IfNone result (length self.entry.entries.now ≤ index) }
    {
        if index < self.entries.len() {
            Some(self.moved(index))
        } else {
            None
        }
    }

    // The element with an index in the tree.
    #[inline(always)]
    pub(crate) fn moved(self, index: usize) -> Self
        requires { index < length self.entries.now }
        ensures { IsAt self.entry index result }
    {
        Cursor {
            octets: self.octets,
            schema: self.schema,
            entries: self.entries,
            index,
        }
    }

    /// The index of the element among the entries of the tree.
    pub fn index(self) -> usize
        ensures { result ≡ self.entry.index }
    {
        self.index
    }

    /// The entry of the tree that describes the element.
    pub fn entry(self) -> Entry
        ensures { slice_get self.entry.entries.now self.entry.index ≡ Some result }
    {
        self.entries[self.index]
    }

    /// The octets of the header and of the contents of the element, without end-of-contents octets.
    /// Empty if the element does not lie inside the given octets.
    pub fn octets(self) -> &'a [u8]
        ensures { IfSome (slice_get self.entry.entries.now self.entry.index) (λ e.
            result.now ≡ part_of self.entry.octets.now e.offset (e.header_len + e.contents_len)) }
    {
        let entry = self.entry();
        let len = entry.contents_len.saturating_add(entry.header_len as usize);
        part_of(self.octets, entry.offset, len)
    }

    /// The contents octets of the element. Empty if the element does not lie inside the given
    /// octets.
    pub fn contents(self) -> &'a [u8]
        ensures { IfSome (slice_get self.entry.entries.now self.entry.index) (λ e.
            result.now ≡ part_of self.entry.octets.now (e.offset + e.header_len) e.contents_len) }
    {
        let entry = self.entry();
        let start = entry.offset.saturating_add(entry.header_len as usize);
        part_of(self.octets, start, entry.contents_len)
    }

    /// The element directly around this element. `None` for the outermost element.
    pub fn parent(self) -> Option<Self>
        ensures { IfSome result (λ c. IfSome (slice_get self.entry.entries.now self.entry.index)
            (λ e. IsAt self.entry e.parent c)) }
    {
        let parent = self.entry().parent;
        if parent == self.index {
            return None;
        }
        self.element(parent)
    }
}
