//! Conversions between octets that are borrowed as a slice and octets that are owned in a box.
ghost use Rattle.std.specs.Prelude.{◌≡◌, Ok};
ghost use Rattle.std.specs.Box.{boxed_slice_items};
ghost use Rattle.der_core.specs.Outcome.{map_ok};
ghost use Rattle.der.specs.Octets.{AnswersOrLacks};

use der_base::{Error, ErrorKind};
use std::alloc::Global;
use std::boxed::BoxedSlice;

/// Copies `bytes` into a new box in memory of `alloc`.
///
/// # Errors
///
/// - `OutOfMemory` without a position, if allocation fails.
pub fn slice_to_owned(alloc: Global, bytes: &[u8]) -> Result<BoxedSlice<u8>, Error>
    ensures exact { AnswersOrLacks (Ok bytes.now) (map_ok boxed_slice_items result) }
{
    match BoxedSlice::from_slice(alloc, bytes) {
        Ok(copy) => Ok(copy),
        Err(_) => Err(ErrorKind::OutOfMemory.to_error()),
    }
}

/// The octets in the box `bytes`, borrowed as a slice.
pub fn box_to_ref(bytes: &BoxedSlice<u8>) -> &[u8]
    ensures { result.now ≡ boxed_slice_items bytes.now }
{
    bytes.as_slice()
}
