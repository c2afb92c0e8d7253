//! Encoding of `PhantomData`.
ghost use Rattle.std.specs.Prelude.{◌≡◌, [], Ok};
ghost use Rattle.der_base.specs.Length.{definite_length};

use crate::encode::Encode;
use crate::writer::Writer;
use der_base::{Error, Length};
use std::marker::PhantomData;

/// Writes a `PhantomData` as zero octets. Never fails.
impl<T> Encode for PhantomData<T> {
    ghost encoding = { λ _. [] };

    ghost encodable = { λ _. Unit {0} };

    ghost size = { λ _. Ok (definite_length 0) };

    ghost encode_answers = { λ _ s result t. (result ≡ Ok tt) × (t ≡ s) };

    fn encoded_len(&self) -> Result<Length, Error> {
        Ok(Length::ZERO)
    }

    fn encode<W: Writer>(&self, _writer: &mut W) -> Result<(), Error> {
        Ok(())
    }

    fn len_before(&self) -> Option<u32> {
        Some(0)
    }

    fn encode_before(&self, _buf: &mut [u8], end: u32) -> u32 {
        end
    }
}
