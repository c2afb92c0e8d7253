//! Decoding of pairs of fields, the first member before the second.
ghost use Rattle.std.specs.Prelude.{◌≡◌, ◌||◌, ℕ, ◌+◌, ◌≤◌, ◌⊎◌, true, false, IfOk, IsOk, IsErrAnd};
ghost use Rattle.der_core.specs.ReaderState.{Same, rest_of};
ghost use Rattle.der_core.specs.Decode.{Passes, ReadsOrLacks};
ghost use Rattle.der_core.specs.DecodeValue.{ContentsNext, EndsOrLacks, TakesContents};
ghost use Rattle.der_core.specs.Fields.{FieldsNext, FieldsRead, TakesWhole, fields_levels};
ghost use Rattle.der_core.specs.Header.{head_of};

use crate::decode::Decode;
use crate::header::Header;
use crate::reader::{Lends, Reader};
use std::alloc::Global;

/// Decodes the first member of the pair, and then the second. To decode three fields, nest the
/// pairs, as in `(A, (B, C))`.
///
/// # Errors
///
/// Those of decoding the first member. If the first member is decoded, those of decoding the
/// second.
impl<R: Lends, A: Decode<R>, B: Decode<R, Error = <A as Decode<R>>::Error>> Decode<R> for (A, B) {
    type Error = <A as Decode<R>>::Error;

    ghost is_next = { FieldsNext A.is_next B.is_next };

    ghost decode_levels = { fields_levels A.decode_levels B.decode_levels };

    ghost allocates = { A.allocates || B.allocates };

    ghost decode_answers = { FieldsRead A.decode_answers B.decode_answers };

    #[inline(always)]
    fn decode(alloc: Global, reader: &mut R) -> Result<(A, B), <A as Decode<R>>::Error>
    where
        R: Reader,
    {
        let first = A::decode(alloc, reader)?;
        let second = B::decode(alloc, reader)?;
        Ok((first, second))
    }
}

/// Decodes a value from the start of the contents that the reader is inside, by [`Decode::decode`].
/// Ignores `header`. If octets are left after the value, the function leaves them unread and
/// returns `Ok`; the caller must report them, as [`decode_tlv`](crate::decode_tlv) does. A pair is
/// decoded as its first member and then its second.
///
/// This function has the contract of
/// [`DecodeValue::decode_value`](crate::DecodeValue::decode_value), so an implementation of that
/// function can call it.
///
/// # Errors
///
/// Those of the type, as by [`Decode::decode`].
#[inline(always)]
pub fn decode_contents<R: Reader, T: Decode<R>>(
    alloc: Global,
    reader: &mut R,
    header: Header,
) -> Result<T, <T as Decode<R>>::Error>
    ensures same { Same (R.state reader.old) (R.state reader.new) }
    ensures sound { TakesContents (TakesWhole T.is_next) (head_of header) (R.state reader.old)
        result (R.state reader.new) }
    ensures complete { (v : T) → R.reliable ≡ true
        → ContentsNext (TakesWhole T.is_next v) (head_of header) (R.state reader.old)
        → (R.state reader.old).depth + T.decode_levels (R.state reader.old).rules ≤ 64
        → EndsOrLacks T.Error.out_of_memory T.allocates result (R.state reader.new) }
    ensures exact { R.reliable ≡ true → T.decode_answers (R.state reader.old) result
        (R.state reader.new) }
{
    T::decode(alloc, reader)
}
