//! The first contents octet of a BIT STRING without unused bits.
ghost use Rattle.std.specs.Prelude.{◌≡◌, ◌∷◌, [], false, Ok as AnOk, ⊤};
ghost use Rattle.der.specs.Prelude.{Gives, Writes, definite_length, map_ok, write_outcome};
ghost use Rattle.der_asn1.specs.ZeroOctet.{ZeroNext, zero_octet_outcome};

use der::{Decode, Encode, Error, Lends, Length, Reader, ReaderExt, Tag, Writer, place_before};
use std::alloc::Global;

/// The first contents octet of a BIT STRING without unused bits, which is zero (X.690 8.6.2.2).
#[derive(Clone, Copy, Drop)]
pub enum NoUnusedBits {
    Zero,
}

/// Reads one octet.
///
/// # Errors
///
/// - The errors of [`ReaderExt::read_byte`].
/// - `Value` with the tag BIT STRING, at the position after the octet, if the octet is not zero.
///   The reader has failed then.
impl<R: Lends> Decode<R> for NoUnusedBits {
    type Error = Error;

    ghost is_next = { λ _. ZeroNext };

    ghost decode_levels = { λ _. 0 };

    ghost allocates = { false };

    ghost decode_answers = { λ s result t. Gives zero_octet_outcome s
        (map_ok (λ _. tt) result) t };

    #[inline(always)]
    fn decode(_alloc: Global, reader: &mut R) -> Result<Self, Error>
    where
        R: Reader,
    {
        if reader.read_byte()? != 0 {
            return Err(reader.error(Tag::BitString.value_error()));
        }
        Ok(NoUnusedBits::Zero)
    }
}

/// Writes a zero octet.
///
/// # Errors
///
/// `encoded_len` never fails. `encode` returns the errors of [`Writer::write`].
impl Encode for NoUnusedBits {
    ghost encoding = { λ _. 0 ∷ [] };

    ghost encodable = { λ _. ⊤ };

    ghost size = { λ _. AnOk (definite_length 1) };

    ghost encode_answers = { λ _ s result t. Writes (write_outcome (0 ∷ []) s) result t };

    #[inline(always)]
    fn encoded_len(&self) -> Result<Length, Error> {
        Ok(Length::ONE)
    }

    #[inline(always)]
    fn encode<W: Writer>(&self, writer: &mut W) -> Result<(), Error> {
        writer.write_byte(0)
    }

    #[inline(always)]
    fn len_before(&self) -> Option<u32> {
        Some(1)
    }

    #[inline(always)]
    fn encode_before(&self, buf: &mut [u8], end: u32) -> u32 {
        place_before(&[0], buf, end)
    }
}
