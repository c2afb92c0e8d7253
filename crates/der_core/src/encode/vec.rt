//! Encoding into a vector whose memory comes from any allocator. [`Encode::to_der`] and
//! [`Encode::encode_to_vec`] do the same with the global allocator.
ghost use Rattle.std.specs.Prelude.{◌≡◌, ◌^◌, ◌<◌, ◌++◌, true, length, Err, OnOk, OnErr, IfOk, IfErr};
ghost use Rattle.der_base.specs.Length.{definite_length};
ghost use Rattle.der_core.specs.Before.{Certain, HasCount};
ghost use Rattle.der_core.specs.Encode.{Begins, FitsInto, FreshAnswer, GrowsBy, HasSize, VecAnswer};
ghost use Rattle.der_core.specs.Outcome.{map_ok};

use crate::encode::Encode;
use crate::writer::SliceWriter;
use der_base::{Error, ErrorKind, Length};
use std::alloc::Allocator;

/// Returns the value's encoding in a new vector, whose memory is that of the allocator `alloc`.
/// [`Encode::to_der`] calls this function with the global allocator.
///
/// # Errors
///
/// If several apply, the first is returned.
///
/// - Those of [`Encode::encoded_len`], including `Overflow` without a position for more than
///   4294967295 octets.
/// - `OutOfMemory` without a position, if an allocation fails.
/// - Those of [`Encode::encode`].
#[inline(always)]
pub fn to_der_in<T: Encode, A: Allocator>(alloc: A, value: &T) -> Result<Vec<u8, A>, Error>
    ensures ok { IfOk result (λ v. v.items ≡ T.encoding value.now) }
    ensures succeeds { T.encodable value.now → GrowsBy (T.encoding value.now) 0 result }
    ensures exact { VecAnswer (T.size value.now) (T.encode_answers value.now) 0
        (map_ok (λ v. definite_length (length v.items)) result) }
{
    let mut out = Vec::new(alloc);
    encode_to_vec_in(value, &mut out)?;
    Ok(out)
}

/// Appends the value's encoding to a vector of any allocator, and returns the number of octets
/// appended. [`Encode::encode_to_vec`] calls this function for a vector of the global allocator.
///
/// # Errors
///
/// A call that fails leaves the contents of the vector as they were before the call. If several
/// errors apply, the first in this list is returned.
///
/// - Those of [`Encode::encoded_len`], including `Overflow` without a position for more than
///   4294967295 octets.
/// - `Overflow` without a position, if the length of the vector would exceed the greatest `usize`.
/// - `OutOfMemory` without a position, if an allocation fails.
/// - Those of [`Encode::encode`], with positions counted from the start of the encoding.
#[inline(always)]
pub fn encode_to_vec_in<T: Encode, A: Allocator>(
    value: &T,
    out: &mut Vec<u8, A>,
) -> Result<Length, Error>
    ensures ok { OnOk result (out.new.items ≡ out.old.items ++ T.encoding value.now) }
    ensures count { IfOk result (λ l. l ≡ definite_length (length (T.encoding value.now))) }
    ensures refused { OnErr result (out.new.items ≡ out.old.items) }
    ensures succeeds { T.encodable value.now
        → GrowsBy (T.encoding value.now) (length out.old.items) result }
    ensures exact { VecAnswer (T.size value.now) (T.encode_answers value.now) (length out.old.items)
        result }
{
    let before = out.len();
    let (count, is_certain) = count_octets(value)?;
    let Some(end) = before.checked_add(count as usize) else {
        return Err(ErrorKind::Overflow.to_error());
    };
    match out.resize(end, 0) {
        Ok(()) => {}
        Err(_) => return Err(ErrorKind::OutOfMemory.to_error()),
    }
    match fill(value, is_certain, &mut out[before..]) {
        Ok(()) => Ok(Length::new(count)),
        Err(error) => {
            out.truncate(before);
            Err(error)
        }
    }
}

// The number of octets of the encoding, and whether it is certain that the value can be written.
#[inline(always)]
fn count_octets<T: Encode>(value: &T) -> Result<(u32, bool), Error>
    ensures ok { IfOk result (λ p. HasCount (T.size value.now) (T.encoding value.now) p.0) }
    ensures certain { IfOk result (λ p. p.1 ≡ true → Certain (T.encodable value.now)
        (T.size value.now) (T.encode_answers value.now) (T.encoding value.now) p.0) }
    ensures refused { IfErr result (λ e. T.size value.now ≡ Err e) }
    ensures succeeds { T.encodable value.now → HasSize (T.encoding value.now) result }
{
    if let Some(count) = value.len_before() {
        return Ok((count, true));
    }
    match value.encoded_len() {
        Ok(len) => Ok((u32::from(len), false)),
        Err(error) => Err(error),
    }
}

// Writes the encoding into a buffer of the same length, from the end if it is certain that the
// value can be written.
#[inline(always)]
fn fill<T: Encode>(value: &T, is_certain: bool, buf: &mut [u8]) -> Result<(), Error>
    requires certain { is_certain ≡ true → Certain (T.encodable value.now) (T.size value.now)
        (T.encode_answers value.now) (T.encoding value.now) (length buf.now) }
    requires countable { length buf.now < 2 ^ 32 }
    ensures ok { Begins (T.encoding value.now) result buf.new }
    ensures succeeds { T.encodable value.now
        → FitsInto (T.encoding value.now) (length buf.old) result }
    ensures exact { FreshAnswer (T.encode_answers value.now) buf.old result }
{
    if is_certain {
        let _ = value.encode_before(buf, buf.len() as u32);
        return Ok(());
    }
    let mut writer = SliceWriter::new(buf);
    value.encode(&mut writer)
}
