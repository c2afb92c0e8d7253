//! CHOICE of two types.
ghost use Rattle.std.specs.Prelude.{◌||◌};
ghost use Rattle.der.specs.Prelude.{fields_levels, map_ok};
ghost use Rattle.der_asn1.specs.Either.{EitherNext, EitherRead, IsEither, either_encoding};
ghost use Rattle.der_asn1.specs.Either.{either_size, EitherWritten};
ghost use Rattle.der_asn1.specs.EitherLaws.{either_begins};
ghost use Rattle.der_asn1.specs.Follow.{either_tags};

use crate::fields::choice::{Choice, DecodeChoice};
use der::{Decode, Encode, Error, ErrorKind, Lends, Length, Reader, ReaderExt, Tag, Writer};
use std::alloc::Global;

/// A CHOICE of two types, decided by the next tag (X.690 8.13). For more than two alternatives, use
/// an `Either` as `A` or `B`.
#[derive(Clone, Copy, Drop, PartialEq, Eq)]
pub enum Either<A, B> {
    /// A value of type `A`. Decoding tries the tags of `A` first.
    First(A),
    /// A value of type `B`.
    Second(B),
}

/// Decodes a value of the first type, `A`, if a value of `A` may begin with the next tag. Otherwise
/// decodes a value of the second type, `B`.
///
/// # Errors
///
/// - The errors of [`ReaderExt::peek_tag`], if the next tag cannot be read. The reader is unchanged
///   then.
/// - `TagUnexpected` without an expected tag, at the reader's position, if no value of either type
///   begins with the next tag. The reader has failed then.
/// - The errors of decoding the value.
impl<
    R: Lends,
    A: DecodeChoice<R>,
    B: DecodeChoice<R> + Decode<R, Error = <A as Decode<R>>::Error>,
> Decode<R> for Either<A, B> {
    type Error = <A as Decode<R>>::Error;

    ghost is_next = { EitherNext A.chooses A.is_next B.is_next };

    ghost decode_levels = { fields_levels A.decode_levels B.decode_levels };

    ghost allocates = { A.allocates || B.allocates };

    ghost decode_answers = { EitherRead A.chooses B.chooses A.Error.from_gives A.decode_answers
        B.decode_answers };

    #[inline(always)]
    fn decode(alloc: Global, reader: &mut R) -> Result<Self, <A as Decode<R>>::Error>
    where
        R: Reader,
    {
        let tag = reader.peek_tag()?;
        if A::can_decode(tag) {
            let first = A::decode(alloc, reader)?;
            return Ok(Either::First(first));
        }
        if !B::can_decode(tag) {
            let kind = ErrorKind::TagUnexpected {
                expected: None,
                actual: tag,
            };
            return Err(reader.error(kind).into());
        }
        let second = B::decode(alloc, reader)?;
        Ok(Either::Second(second))
    }
}

/// Writes the value of type `A` or `B`.
///
/// # Errors
///
/// The errors of encoding the value.
impl<A: Encode, B: Encode> Encode for Either<A, B> {
    ghost encoding = { either_encoding A.encoding B.encoding };

    ghost encodable = { IsEither A.encodable B.encodable };

    ghost size = { either_size A.size B.size };

    ghost encode_answers = { EitherWritten A.encode_answers B.encode_answers };

    #[inline(always)]
    fn encoded_len(&self) -> Result<Length, Error> {
        match self {
            Either::First(value) => value.encoded_len(),
            Either::Second(value) => value.encoded_len(),
        }
    }

    #[inline(always)]
    fn encode<W: Writer>(&self, writer: &mut W) -> Result<(), Error> {
        match self {
            Either::First(value) => value.encode(writer),
            Either::Second(value) => value.encode(writer),
        }
    }

    #[inline(always)]
    fn len_before(&self) -> Option<u32> {
        match self {
            Either::First(value) => value.len_before(),
            Either::Second(value) => value.len_before(),
        }
    }

    #[inline(always)]
    fn encode_before(&self, buf: &mut [u8], end: u32) -> u32 {
        match self {
            Either::First(value) => value.encode_before(buf, end),
            Either::Second(value) => value.encode_before(buf, end),
        }
    }
}

impl<A: Choice, B: Choice> Choice for Either<A, B> {
    ghost chooses = { either_tags A.chooses B.chooses };

    #[inline(always)]
    fn can_decode(tag: Tag) -> bool {
        A::can_decode(tag) || B::can_decode(tag)
    }
}

impl<
    R: Lends,
    A: DecodeChoice<R>,
    B: DecodeChoice<R> + Decode<R, Error = <A as Decode<R>>::Error>,
> DecodeChoice<R> for Either<A, B> {
    ghost begins = { either_begins A.begins B.begins };
}
