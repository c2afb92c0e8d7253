//! Iterators over the items of a list.
ghost use Rattle.std.specs.Prelude.{◌≡◌, false};
ghost use Rattle.std.specs.Iterator.{item_count};
ghost use Rattle.der.specs.Prelude.{rest_of, slice_state};
ghost use Rattle.der_asn1.specs.Items.{GivesItem};

use crate::lists::item::{DecodeItem, Item};
use crate::lists::items::Items;
use der::SliceReader;
use std::alloc::{AllocError, Global};

/// Types of list items that are decoded without allocating.
///
/// Ghost member (for proofs only): `borrowed` proves that decoding an item does not allocate.
pub trait BorrowedItem: Item {
    // Decoding an item does not allocate.
    ghost borrowed: { Self.item.allocates ≡ false };
}

/// An iterator over the items of a SEQUENCE OF or a SET OF. `next` returns `None` only after the
/// last item.
#[derive(Drop)]
pub struct Iter<'a, T: Item> {
    items: Items<'a, T>,
    alloc: Global,
}

/// A clone has the same items left; cloning does not allocate.
impl<'a, T: Item> Clone for Iter<'a, T> {
    ghost use Rattle.std.specs.Prelude.{⊤};

    ghost is_clone = { λ p q. slice_state q.items.reader ≡ slice_state p.items.reader };

    ghost is_infallible = { λ _. ⊤ };

    fn clone(&self) -> Result<Self, AllocError> {
        Ok(Iter {
            items: self.items.clone()?,
            alloc: self.alloc,
        })
    }
}

impl<'a, T: Item> Iter<'a, T> {
    // An iterator over the items that are left.
    pub(crate) fn new(items: Items<'a, T>, alloc: Global) -> Self
        ensures { rest_of (slice_state result.items.reader) ≡ rest_of (slice_state items.entry.reader) }
    {
        Iter { items, alloc }
    }
}

impl<'a, T: DecodeItem<SliceReader<'a>> + BorrowedItem> Iterator for Iter<'a, T> {
    type Item = T;

    ghost next_gives = { λ before result after. GivesItem T.item.valid T.item.octets
        (slice_state before.items.reader) result (slice_state after.items.reader) };

    ghost remaining = { item_count (λ i. rest_of (slice_state i.items.reader)) };

    fn next(&mut self) -> Option<T> {
        match self.items.next(self.alloc) {
            Ok(item) => item,
            Err(_) => unreachable!(),
        }
    }
}
