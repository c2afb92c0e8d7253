//! Owned byte strings.
ghost use Rattle.std.specs.Prelude.{◌≡◌, ◌↔◌, ◌^◌, ◌<◌, [], length as count, IsTrue, Ok};
ghost use Rattle.std.specs.Box.{boxed_slice_items};
ghost use Rattle.der_base.specs.Length.{definite_length};
ghost use Rattle.der_core.specs.Outcome.{map_ok};
ghost use Rattle.der.specs.Octets.{checked_octets, AnswersOrLacks};

use crate::bytes::BytesRef;
use crate::referenced::slice_to_owned;
use der_base::{Error, Length};
use std::alloc::Global;
use std::boxed::BoxedSlice;

mod der;
mod parts;

/// An owned byte string of at most 4294967295 octets.
///
/// In the derived order, a shorter byte string is smaller; byte strings of equal length are
/// compared octet by octet. The order of [`DerOrd`](der_core::DerOrd) differs from the derived
/// order: it is lexicographic.
#[derive(Debug, Drop, PartialEq, Eq, PartialOrd, Ord, Hash)]
pub struct BytesOwned {
    length: Length,
    inner: BoxedSlice<u8>,
    ghost counts: { length ≡ definite_length (count (boxed_slice_items inner)) },
    ghost counted: { count (boxed_slice_items inner) < 2 ^ 32 },
}

impl BytesOwned {
    /// Wraps the octets in the box `inner`, without allocating.
    ///
    /// # Errors
    ///
    /// - `Overflow` without a position, if `inner` has more than 4294967295 octets.
    pub fn new(inner: BoxedSlice<u8>) -> Result<Self, Error>
        ensures exact { map_ok (λ b. boxed_slice_items b.inner) result
            ≡ checked_octets (boxed_slice_items inner) }
    {
        match Length::new_usize(inner.as_slice().len()) {
            Ok(length) => Ok(BytesOwned { length, inner }),
            Err(error) => Err(error),
        }
    }

    /// Copies `bytes` into an owned byte string, in memory of `alloc`.
    ///
    /// # Errors
    ///
    /// - `Overflow` without a position, if `bytes` has more than 4294967295 octets.
    /// - `OutOfMemory` without a position, if allocation fails.
    pub fn from_slice(alloc: Global, bytes: &[u8]) -> Result<Self, Error>
        ensures exact { AnswersOrLacks (checked_octets bytes.now)
            (map_ok (λ b. boxed_slice_items b.inner) result) }
    {
        let length = Length::new_usize(bytes.len())?;
        let inner = slice_to_owned(alloc, bytes)?;
        Ok(BytesOwned { length, inner })
    }

    /// Wraps the octets in the vector `bytes`, without allocating.
    ///
    /// # Errors
    ///
    /// - `Overflow` without a position, if `bytes` has more than 4294967295 octets.
    pub fn from_vec(bytes: Vec<u8>) -> Result<Self, Error>
        ensures exact { map_ok (λ b. boxed_slice_items b.inner) result
            ≡ checked_octets bytes.items }
    {
        BytesOwned::new(bytes.into_boxed_slice())
    }

    /// Copies the borrowed byte string `bytes` into an owned byte string, in memory of `alloc`.
    ///
    /// # Errors
    ///
    /// - `OutOfMemory` without a position, if allocation fails.
    pub fn from_ref(alloc: Global, bytes: BytesRef<'_>) -> Result<Self, Error>
        ensures exact { AnswersOrLacks (Ok bytes.entry.bytes.now)
            (map_ok (λ b. boxed_slice_items b.inner) result) }
    {
        BytesOwned::from_slice(alloc, bytes.as_slice())
    }

    /// The byte string of zero octets; allocates nothing.
    pub fn empty(alloc: Global) -> Self
        ensures { boxed_slice_items result.inner ≡ [] }
    {
        BytesOwned {
            length: Length::ZERO,
            inner: Vec::new(alloc).into_boxed_slice(),
        }
    }

    /// The octets of the byte string, as a slice.
    pub fn as_slice(&self) -> &[u8]
        ensures { result.now ≡ boxed_slice_items self.now.inner }
    {
        self.inner.as_slice()
    }

    /// The octets, borrowed as a [`BytesRef`].
    pub fn as_bytes_ref(&self) -> BytesRef<'_>
        ensures { result.bytes.now ≡ boxed_slice_items self.now.inner }
    {
        BytesRef::counted(self.as_slice())
    }

    /// The octets, borrowed as a [`BytesRef`]. Returns what [`BytesOwned::as_bytes_ref`] returns.
    pub fn owned_to_ref(&self) -> BytesRef<'_>
        ensures { result.bytes.now ≡ boxed_slice_items self.now.inner }
    {
        self.as_bytes_ref()
    }

    /// The number of octets of the byte string.
    pub fn len(&self) -> Length
        ensures { result ≡ definite_length (count (boxed_slice_items self.now.inner)) }
    {
        self.length
    }

    /// Whether the byte string has no octets.
    pub fn is_empty(&self) -> bool
        ensures { IsTrue result ↔ (boxed_slice_items self.now.inner ≡ []) }
    {
        self.length.is_zero()
    }

    /// Returns the box that holds the octets, without copying them.
    pub fn into_box(self) -> BoxedSlice<u8>
        ensures { result ≡ self.inner }
    {
        self.inner
    }

    /// An owned copy of the byte string, in memory of `alloc`.
    ///
    /// # Errors
    ///
    /// - `OutOfMemory` without a position, if allocation fails.
    pub fn clone_in(&self, alloc: Global) -> Result<Self, Error>
        ensures exact { AnswersOrLacks (Ok (boxed_slice_items self.now.inner))
            (map_ok (λ b. boxed_slice_items b.inner) result) }
    {
        BytesOwned::from_slice(alloc, self.as_slice())
    }
}

impl<'a> BytesRef<'a> {
    /// An owned copy of the byte string, in memory of `alloc`.
    ///
    /// # Errors
    ///
    /// - `OutOfMemory` without a position, if allocation fails.
    pub fn ref_to_owned(&self, alloc: Global) -> Result<BytesOwned, Error>
        ensures exact { AnswersOrLacks (Ok self.now.bytes.now)
            (map_ok (λ b. boxed_slice_items b.inner) result) }
    {
        BytesOwned::from_slice(alloc, self.as_slice())
    }
}
