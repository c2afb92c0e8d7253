//! Types whose values are built from fields that are decoded one after the other.
ghost use Rattle.std.specs.Prelude.{◌≡◌, ℕ, ◌+◌, ◌≤◌, true, false, IfOk};
ghost use Rattle.der_core.specs.Decode.{Passes, ReadsOrLacks};
ghost use Rattle.der_core.specs.DecodeValue.{ContentsNext, EndsOrLacks, TakesContents};
ghost use Rattle.der_core.specs.Fields.{TakesWhole};
ghost use Rattle.der_core.specs.Header.{head_of};
ghost use Rattle.der_core.specs.Outcome.{map_ok};
ghost use Rattle.der_core.specs.ReaderState.{Same, rest_of};

use crate::decode::{Decode, DecodeValue, decode_contents};
use crate::header::Header;
use crate::reader::Reader;
use std::alloc::Global;

/// Types whose values can be built from their fields. One value of the type `F` holds all the
/// fields, for example the nested pair `(A, (B, C))` for three fields.
///
/// Ghost member (for proofs only): `fields` returns the fields of a value.
pub trait FromFields<F>: Sized + Drop {
    ghost fields: { Self → F };

    /// Builds the value whose fields are `members`.
    fn from_fields(members: F) -> Self
        ensures { Self.fields result ≡ members };
}

/// Decodes the fields `F` from the start of the contents that the reader is inside, one field after
/// the other, and builds the value from them. Ignores `header`. If octets are left after the
/// fields, the function leaves them unread and returns `Ok`; the caller must report them, as
/// [`decode_tlv`](crate::decode_tlv) does.
///
/// This function has the contract of
/// [`DecodeValue::decode_value`](crate::DecodeValue::decode_value), so an implementation of that
/// function can call it.
///
/// # Errors
///
/// Those of the first field that fails to decode, as by [`Decode::decode`].
#[inline(always)]
pub fn decode_sequence<R: Reader, F: Decode<R>, T: FromFields<F>>(
    alloc: Global,
    reader: &mut R,
    header: Header,
) -> Result<T, <F as Decode<R>>::Error>
    ensures same { Same (R.state reader.old) (R.state reader.new) }
    ensures sound { TakesContents (λ v. TakesWhole F.is_next (T.fields v)) (head_of header)
        (R.state reader.old) result (R.state reader.new) }
    ensures complete { (v : T) → R.reliable ≡ true
        → ContentsNext (TakesWhole F.is_next (T.fields v)) (head_of header) (R.state reader.old)
        → (R.state reader.old).depth + F.decode_levels (R.state reader.old).rules ≤ 64
        → EndsOrLacks F.Error.out_of_memory F.allocates result (R.state reader.new) }
    ensures exact { R.reliable ≡ true → F.decode_answers (R.state reader.old)
        (map_ok T.fields result) (R.state reader.new) }
{
    match decode_contents::<R, F>(alloc, reader, header) {
        Ok(fields) => Ok(T::from_fields(fields)),
        Err(error) => Err(error),
    }
}

/// Decodes the fields `F` from the next octets of the reader, one field after the other, and builds
/// the value from them.
///
/// This function has the contract of [`Decode::decode`], so an implementation of that function can
/// call it.
///
/// # Errors
///
/// Those of the first field that fails to decode, as by [`Decode::decode`].
#[inline(always)]
pub fn decode_fields<R: Reader, F: Decode<R>, T: FromFields<F>>(
    alloc: Global,
    reader: &mut R,
) -> Result<T, <F as Decode<R>>::Error>
    ensures same { Same (R.state reader.old) (R.state reader.new) }
    ensures ok { IfOk result (λ v. (R.state reader.old).failed ≡ false
        → (R.state reader.new).failed ≡ false
        → Passes (F.is_next (T.fields v)) (R.state reader.old) (R.state reader.new)) }
    ensures complete { (v : T) (m : ℕ) → R.reliable ≡ true → (R.state reader.old).failed ≡ false
        → F.is_next (T.fields v) (R.state reader.old).rules (rest_of (R.state reader.old)) m
        → (R.state reader.old).depth + F.decode_levels (R.state reader.old).rules ≤ 64
        → ReadsOrLacks F.Error.out_of_memory F.allocates (R.state reader.old) m result
        (R.state reader.new) }
    ensures exact { R.reliable ≡ true → F.decode_answers (R.state reader.old)
        (map_ok T.fields result) (R.state reader.new) }
{
    match F::decode(alloc, reader) {
        Ok(fields) => Ok(T::from_fields(fields)),
        Err(error) => Err(error),
    }
}

/// Decodes the contents that the reader is inside as a value of the type `F`, and builds the value
/// of which it is the only field.
///
/// This function has the contract of
/// [`DecodeValue::decode_value`](crate::DecodeValue::decode_value), so an implementation of that
/// function can call it.
///
/// # Errors
///
/// Those of `F`, as by [`DecodeValue::decode_value`](crate::DecodeValue::decode_value).
#[inline(always)]
pub fn decode_wrapped<R: Reader, F: DecodeValue<R>, T: FromFields<F>>(
    alloc: Global,
    reader: &mut R,
    header: Header,
) -> Result<T, <F as DecodeValue<R>>::Error>
    ensures same { Same (R.state reader.old) (R.state reader.new) }
    ensures sound { TakesContents (λ v. F.takes (T.fields v)) (head_of header)
        (R.state reader.old) result (R.state reader.new) }
    ensures complete { (v : T) → R.reliable ≡ true
        → ContentsNext (F.takes (T.fields v)) (head_of header) (R.state reader.old)
        → (R.state reader.old).depth + F.value_levels (R.state reader.old).rules ≤ 64
        → EndsOrLacks F.Error.out_of_memory F.allocates result (R.state reader.new) }
    ensures exact { R.reliable ≡ true → F.decode_value_answers (head_of header)
        (R.state reader.old) (map_ok T.fields result) (R.state reader.new) }
{
    match F::decode_value(alloc, reader, header) {
        Ok(field) => Ok(T::from_fields(field)),
        Err(error) => Err(error),
    }
}
