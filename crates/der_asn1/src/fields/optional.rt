//! OPTIONAL fields.
ghost use Rattle.std.specs.Prelude.{false};
ghost use Rattle.der.specs.Prelude.{map_ok};
ghost use Rattle.der_asn1.specs.Optional.{OptionNext, OptionRead, IsOptional, option_encoding};
ghost use Rattle.der_asn1.specs.Optional.{option_size, OptionWritten};

use crate::fields::choice::DecodeChoice;
use der::{Decode, Encode, Error, Lends, Length, Reader, ReaderExt, Writer};
use std::alloc::Global;

/// An OPTIONAL field (X.690 8.9.3): a value, or `None` if the field is absent. When decoding, the
/// field is absent if no octets are left, or if no value of `T` may begin with the next tag.
#[derive(Clone, Copy, Drop, PartialEq, Eq)]
pub struct Optional<T>(pub Option<T>);

/// Decodes a value of `T`, or returns `None` without moving the reader if the field is absent.
///
/// # Errors
///
/// - The errors of [`ReaderExt::peek_tag`], if octets are left but the next tag cannot be read. The
///   reader is unchanged then.
/// - The errors of decoding the value, if a value of `T` may begin with the next tag.
impl<R: Lends, T: DecodeChoice<R>> Decode<R> for Optional<T> {
    type Error = <T as Decode<R>>::Error;

    ghost is_next = { λ v. OptionNext T.chooses T.is_next v.0 };

    ghost decode_levels = { T.decode_levels };

    ghost allocates = { T.allocates };

    ghost decode_answers = { λ s result t. OptionRead T.chooses T.Error.from_gives
        T.decode_answers s (map_ok (λ v. v.0) result) t };

    #[inline(always)]
    fn decode(alloc: Global, reader: &mut R) -> Result<Self, <T as Decode<R>>::Error>
    where
        R: Reader,
    {
        if reader.is_finished() {
            return Ok(Optional(None));
        }
        let tag = reader.peek_tag()?;
        if !T::can_decode(tag) {
            return Ok(Optional(None));
        }
        let value = T::decode(alloc, reader)?;
        Ok(Optional(Some(value)))
    }
}

/// Writes the value, or no octets for `None`.
///
/// # Errors
///
/// The errors of encoding the value.
impl<T: Encode> Encode for Optional<T> {
    ghost encoding = { λ v. option_encoding T.encoding v.0 };

    ghost encodable = { λ v. IsOptional T.encodable v.0 };

    ghost size = { λ v. option_size T.size v.0 };

    ghost encode_answers = { λ v. OptionWritten T.encode_answers v.0 };

    #[inline(always)]
    fn encoded_len(&self) -> Result<Length, Error> {
        match &self.0 {
            Some(value) => value.encoded_len(),
            None => Ok(Length::ZERO),
        }
    }

    #[inline(always)]
    fn encode<W: Writer>(&self, writer: &mut W) -> Result<(), Error> {
        match &self.0 {
            Some(value) => value.encode(writer),
            None => Ok(()),
        }
    }

    #[inline(always)]
    fn len_before(&self) -> Option<u32> {
        match &self.0 {
            Some(value) => value.len_before(),
            None => Some(0),
        }
    }

    #[inline(always)]
    fn encode_before(&self, buf: &mut [u8], end: u32) -> u32 {
        match &self.0 {
            Some(value) => value.encode_before(buf, end),
            None => end,
        }
    }
}
