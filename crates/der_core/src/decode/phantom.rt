//! Decoding of `PhantomData`.
ghost use Rattle.std.specs.Prelude.{◌≡◌, false, IsOk};

use crate::decode::Decode;
use crate::reader::{Lends, Reader};
use der_base::Error;
use std::alloc::Global;
use std::marker::PhantomData;

/// Decodes a `PhantomData` from zero octets, without a tag. Never fails.
impl<R: Lends, T> Decode<R> for PhantomData<T> {
    type Error = Error;

    ghost is_next = { λ _ _ _ m. m ≡ 0 };

    ghost decode_levels = { λ _. 0 };

    ghost allocates = { false };

    ghost decode_answers = { λ s result t. IsOk result × (t ≡ s) };

    fn decode(_alloc: Global, _reader: &mut R) -> Result<Self, Error>
    where
        R: Reader,
    {
        Ok(PhantomData)
    }
}
