//! The elements directly inside an element.
ghost use Rattle.std.specs.Prelude.{◌≡◌, ◌+◌, ◌-◌, ◌<◌, ℕ, length, MatchOption};
ghost use Rattle.std.specs.Iterator.{at_most};
ghost use Rattle.schema_cursor.specs.Children.{IsChild, IsFirstChild};
ghost use Rattle.schema_cursor.specs.Cursor.{IsAt};

use crate::child::next_child;
use crate::cursor::Cursor;
use schema_read::Entry;

/// An iterator over the elements directly inside an element, in the order of the input. The time
/// for all of them is linear in the number of elements inside the element, at any depth.
#[derive(Clone, Copy)]
pub struct Children<'a> {
    parent: Cursor<'a>,
    from: usize,
}

impl<'a> Cursor<'a> {
    /// The elements directly inside this element. If a string contains an encoded value, the value
    /// is the element inside the string.
    pub fn children(self) -> Children<'a>
        ensures parent { result.parent ≡ self.entry }
        ensures from { result.from ≡ self.entry.index + 1 }
    {
        Children {
            parent: self,
            from: self.index + 1,
        }
    }
}

impl<'a> Iterator for Children<'a> {
    type Item = Cursor<'a>;

    ghost next_gives = { λ s r t. MatchOption r
        ((k : ℕ) → IsChild s.parent.entries.now s.parent.index s.from k → ⊥)
        (λ c. IsAt s.parent c.index c
        × IsFirstChild s.parent.entries.now s.parent.index s.from c.index
        × (t.parent ≡ s.parent) × (t.from ≡ c.index + 1)) };

    ghost remaining = { λ s. at_most (length s.parent.entries.now - s.from) };

    fn next(&mut self) -> Option<Cursor<'a>> {
        let parent = self.parent;
        match next_child(parent.entries, parent.index, self.from) {
            Some(index) => {
                self.from = after(parent.entries, index);
                parent.element(index)
            }
            None => None,
        }
    }
}

// The index after that of an element.
fn after(entries: &[Entry], index: usize) -> usize
    requires { index < length entries.now }
    ensures { result ≡ index + 1 }
{
    index + 1
}
