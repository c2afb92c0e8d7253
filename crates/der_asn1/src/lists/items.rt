//! Decoding of the items of a list, one after the other.
ghost use Rattle.std.specs.Prelude.{◌≡◌, ◌^◌, ◌<◌, false, true, length, IfOk, IfErr, OnErr};
ghost use Rattle.der.specs.Prelude.{rest_of, slice_state};
ghost use Rattle.der_asn1.specs.Items.{GivesItem};
ghost use Rattle.der_asn1.specs.SequenceOf.{IsAtItem, IsListOf};

use crate::lists::item::{DecodeItem, Item};
use crate::lists::item_walk::next_item;
use der::{Decode, Reader, ReaderExt, SliceReader};
use std::alloc::{AllocError, Global};
use std::marker::PhantomData;

/// The items of a SEQUENCE OF or a SET OF that are still to be decoded. [`Items::next`] decodes the
/// next item, for which it may allocate. For items that do not allocate, there is the iterator
/// [`Iter`](crate::Iter).
#[derive(Drop)]
pub struct Items<'a, T: Item> {
    reader: SliceReader<'a>,
    of: PhantomData<T>,
    ghost at: { IsAtItem (slice_state reader) },
    ghost left: { ∥ IsListOf T.item.valid T.item.octets (rest_of (slice_state reader)) ∥₁ },
}

/// A clone has the same items left; cloning does not allocate.
impl<'a, T: Item> Clone for Items<'a, T> {
    ghost use Rattle.std.specs.Prelude.{⊤};

    ghost is_clone = { λ p q. slice_state q.reader ≡ slice_state p.reader };

    ghost is_infallible = { λ _. ⊤ };

    fn clone(&self) -> Result<Self, AllocError> {
        Ok(Items {
            reader: self.reader.fork(),
            of: PhantomData,
        })
    }
}

impl<'a, T: Item> Items<'a, T> {
    // A walk over these items.
    pub(crate) fn new(octets: &'a [u8]) -> Self
        requires short { length octets.now < 2 ^ 32 }
        requires checked { ∥ IsListOf T.item.valid T.item.octets octets.now ∥₁ }
        ensures { rest_of (slice_state result.reader) ≡ octets.now }
    {
        match SliceReader::new(octets) {
            Ok(reader) => Items {
                reader,
                of: PhantomData,
            },
            Err(_) => unreachable!(),
        }
    }
}

impl<'a, T: DecodeItem<SliceReader<'a>>> Items<'a, T> {
    /// Returns the next item, or `None` after the last one.
    ///
    /// # Errors
    ///
    /// An error that reports a failed allocation, if decoding a `T` allocates. The next call then
    /// tries to decode the same item again. There are no other errors.
    pub fn next(
        &mut self,
        alloc: Global,
    ) -> Result<Option<T>, <T as Decode<SliceReader<'a>>>::Error>
        ensures ok { IfOk result (λ r. GivesItem T.item.valid T.item.octets
            (slice_state self.old.reader) r (slice_state self.new.reader)) }
        ensures lacks { IfErr result (λ e. (T.item.allocates ≡ true)
            × (T.Error.out_of_memory e ≡ true)) }
        ensures kept { OnErr result (slice_state self.new.reader ≡ slice_state self.old.reader) }
    {
        if self.reader.is_finished() {
            return Ok(None);
        }
        let mut reader = self.reader.fork();
        let item = next_item::<SliceReader<'a>, T>(alloc, &mut reader)?;
        self.reader = reader;
        Ok(Some(item))
    }
}
