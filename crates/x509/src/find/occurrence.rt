//! The result of a search for the only item of a list that has a given type.
ghost use Rattle.std.specs.Prelude.{◌≡◌};
ghost use Rattle.der.specs.Prelude.{rest_of, slice_state};
ghost use Rattle.x509.specs.Find.{HasOccurrence, occurrence_and, occurrence_with};

use super::typed::Typed;
use der::SliceReader;
use der_asn1::{BorrowedItem, DecodeItem, Iter};

/// The result of a search for the item of a list that has a given type: no item, one, or more than
/// one.
#[derive(Clone, Copy, Drop)]
pub enum Occurrence<T> {
    /// No item has the type.
    Absent,
    /// This item is the only one that has the type.
    Once(T),
    /// More than one item has the type.
    Several,
}

impl<T: Drop> Occurrence<T> {
    // The same with one more item.
    fn with(self, item: T) -> Self
        ensures { result ≡ occurrence_with self item }
    {
        match self {
            Occurrence::Absent => Occurrence::Once(item),
            Occurrence::Once(_) => Occurrence::Several,
            Occurrence::Several => Occurrence::Several,
        }
    }

    // What two lists have together, one after the other.
    pub(crate) fn and(self, others: Occurrence<T>) -> Self
        ensures { result ≡ occurrence_and self others }
    {
        match others {
            Occurrence::Absent => self,
            Occurrence::Once(item) => self.with(item),
            Occurrence::Several => Occurrence::Several,
        }
    }
}

// What the items have with the object identifier of these contents octets. All items are decoded.
pub(crate) fn occurrence_of<'a, T: Typed + DecodeItem<SliceReader<'a>> + BorrowedItem>(
    items: Iter<'a, T>,
    oid: &[u8],
) -> Occurrence<T>
    ensures { HasOccurrence T.item.valid T.item.octets T.type_octets oid.now
        (rest_of (slice_state items.entry.items.reader)) result }
{
    let mut found = Occurrence::Absent;
    'items: for item in items {
        if item.type_octets() == oid {
            found = found.with(item);
        }
    }
    found
}
