//! Encoding.
ghost use Rattle.std.specs.Prelude.{◌≡◌, ◌++◌, ℕ, true, List, length, OnOk, OnErr, IfOk, Result as AResult};
ghost use Rattle.der_base.specs.Length.{definite_length};
ghost use Rattle.der_base.specs.declared.error.Error.{Error as AnError};
ghost use Rattle.der_base.specs.declared.length.Length.{Length as ALength};
ghost use Rattle.der_core.specs.Before.{CertainIfSome, PlacedIfSpace};
ghost use Rattle.der_core.specs.Outcome.{map_ok};
ghost use Rattle.der_core.specs.Writer.{WriterState, Keeps, Appends};
ghost use Rattle.der_core.specs.Encode.{Counts, HasSize, FitsCounted, FitsInto, GrowsBy, element_octets, element_size, ElementWritten, SliceAnswer, VecAnswer};

mod before;
mod boxed;
mod fields;
mod has_fields;
mod long_tuples;
mod phantom;
mod tuples;
mod value;
mod vec;

use crate::encode::before::{element_len, header_before, len_within};
use crate::header::encode_header;
use crate::tag::fixed::Tagged;
use crate::writer::{SliceWriter, Writer};
pub use before::{octets_len, place_before};
use der_base::{Error, Length};
pub use has_fields::{FieldsCall, HasFields};
use std::alloc::Global;
pub use value::{EncodeValue, WrittenValue, encode_value_to_slice};
pub use vec::{encode_to_vec_in, to_der_in};

/// Types whose values are written as octets.
///
/// Ghost members (for proofs only):
///
/// - `encoding` is the octets of a value.
/// - `encodable` says whether a value can be written at all.
/// - `size` is the exact result of [`Encode::encoded_len`], errors included.
/// - `encode_answers` is the exact outcome of [`Encode::encode`] on a reliable writer (see
///   [`Writer`]), including each error and the state in which it leaves the writer.
pub trait Encode {
    ghost encoding: { Self → List ℕ };

    ghost encodable: { Self → Type 0 };

    ghost size: { Self → AResult ALength AnError };

    ghost encode_answers: { Self → WriterState → AResult (Unit {0}) AnError → WriterState
        → Type 0 };

    /// The number of octets of the value's encoding.
    ///
    /// # Errors
    ///
    /// - `Overflow` without a position, if the encoding has more than 4294967295 octets.
    /// - The errors of the type, which the ghost member `size` specifies.
    fn encoded_len(&self) -> Result<Length, Error>
        ensures ok { Counts (encoding self.now) result }
        ensures succeeds { encodable self.now → HasSize (encoding self.now) result }
        ensures exact { result ≡ size self.now };

    /// Writes the value's encoding.
    ///
    /// # Errors
    ///
    /// Whatever the error, the octets that were written before the call remain. The ghost member
    /// `encode_answers` specifies the state in which the call leaves the writer.
    ///
    /// - The errors of the type, which `encode_answers` also specifies.
    /// - `Failed`, `Overflow` and `Overlength` of the writer, as by [`Writer::write`].
    fn encode<W: Writer>(&self, writer: &mut W) -> Result<(), Error>
        ensures kept { Keeps (W.state writer.old) (W.state writer.new) }
        ensures ok { Appends (W.state writer.old) (encoding self.now) result (W.state writer.new) }
        ensures succeeds { encodable self.now
            → FitsCounted (W.state writer.old) (encoding self.now) result }
        ensures exact { W.reliable ≡ true
            → encode_answers self.now (W.state writer.old) result (W.state writer.new) };

    /// The number of octets of the value's encoding, if it is certain that the value can be written.
    /// Then [`Encode::encode_to_slice`], [`Encode::to_der`], [`Encode::encode_to_vec`] and
    /// [`SliceWriter::encode`] write the value by [`Encode::encode_before`]. The result `None`
    /// states nothing: the value may still be written by [`Encode::encode`]. The default
    /// implementation always returns `None`.
    fn len_before(&self) -> Option<u32>
        ensures { CertainIfSome (encodable self.now) (size self.now) (encode_answers self.now)
            (encoding self.now) result }
    {
        None
    }

    /// Writes the value's encoding so that it ends before index `end` of the buffer, and returns
    /// the index at which it starts. All other octets of the buffer are unchanged. A header is
    /// written after the contents that follow it, when their number is known, so no length is
    /// computed. The default implementation computes the length and writes by [`Encode::encode`].
    ///
    /// If the value cannot be written, or does not fit before `end`, the result and the contents of
    /// the buffer are unspecified.
    fn encode_before(&self, buf: &mut [u8], end: u32) -> u32
        ensures { encodable self.now
            → PlacedIfSpace (encoding self.now) result end buf.old buf.new }
    {
        let Ok(len) = self.encoded_len() else {
            return end;
        };
        let count = u32::from(len);
        if count > end || end as usize > buf.len() {
            return end;
        }
        let start = end - count;
        let mut writer = SliceWriter::within(buf, start as usize, count as usize);
        let _ = self.encode(&mut writer);
        start
    }

    /// Writes the value's encoding to the start of the buffer, and returns the octets written.
    /// Allocates nothing.
    ///
    /// # Errors
    ///
    /// After an error the contents of the buffer are unspecified.
    ///
    /// - Those of the type, as by [`Encode::encode`].
    /// - `Overflow` at the position after the octets written, if the next write would end after
    ///   position 4294967295.
    /// - `Overlength` at the position where the first write that does not fit into the buffer would
    ///   end.
    #[inline(always)]
    final fn encode_to_slice<'b>(&self, buf: &'b mut [u8]) -> Result<&'b [u8], Error>
        ensures ok { IfOk result (λ r. r.now ≡ Self.encoding self.now) }
        ensures succeeds { Self.encodable self.now
            → FitsInto (Self.encoding self.now) (length buf.old) result }
        ensures exact { SliceAnswer (Self.encode_answers self.now) buf.old
            (map_ok (λ r. r.now) result) }
    {
        if let Some(count) = len_within(self, buf.len()) {
            let _ = self.encode_before(buf, count);
            return Ok(&buf[..count as usize]);
        }
        let mut writer = SliceWriter::new(buf);
        self.encode(&mut writer)?;
        writer.finish()
    }

    /// Appends the value's encoding to `out`, and returns the number of octets appended.
    ///
    /// # Errors
    ///
    /// A call that fails leaves the contents of the vector as they were before the call. If several
    /// errors apply, the first in this list is returned.
    ///
    /// - Those of [`Encode::encoded_len`], including `Overflow` without a position for more than
    ///   4294967295 octets.
    /// - `Overflow` without a position, if the length of the vector would exceed the greatest
    ///   `usize`.
    /// - `OutOfMemory` without a position, if an allocation fails.
    /// - Those of [`Encode::encode`], with positions counted from the start of the encoding.
    #[inline(always)]
    final fn encode_to_vec(&self, out: &mut Vec<u8>) -> Result<Length, Error>
        ensures ok { OnOk result (out.new.items ≡ out.old.items ++ Self.encoding self.now) }
        ensures count { IfOk result (λ l. l ≡ definite_length (length (Self.encoding self.now))) }
        ensures refused { OnErr result (out.new.items ≡ out.old.items) }
        ensures succeeds { Self.encodable self.now
            → GrowsBy (Self.encoding self.now) (length out.old.items) result }
        ensures exact { VecAnswer (Self.size self.now) (Self.encode_answers self.now)
            (length out.old.items) result }
    {
        encode_to_vec_in(self, out)
    }

    /// Returns the value's encoding in a new vector.
    ///
    /// # Errors
    ///
    /// If several apply, the first is returned.
    ///
    /// - Those of [`Encode::encoded_len`], including `Overflow` without a position for more than
    ///   4294967295 octets.
    /// - `OutOfMemory` without a position, if an allocation fails.
    /// - Those of [`Encode::encode`].
    #[inline(always)]
    final fn to_der(&self, alloc: Global) -> Result<Vec<u8>, Error>
        ensures ok { IfOk result (λ v. v.items ≡ Self.encoding self.now) }
        ensures succeeds { Self.encodable self.now → GrowsBy (Self.encoding self.now) 0 result }
        ensures exact { VecAnswer (Self.size self.now) (Self.encode_answers self.now) 0
            (map_ok (λ v. definite_length (length v.items)) result) }
    {
        to_der_in(alloc, self)
    }
}

/// Encodes a value that has a tag as an element: its header, then its contents (X.690 8.1.1).
///
/// # Errors
///
/// [`Encode::encoded_len`] has the errors of [`encoded_len_tlv`], and [`Encode::encode`] those of
/// [`encode_tlv`].
impl<T: EncodeValue + Tagged> Encode for T {
    ghost encoding = { λ v. element_octets (T.tag_of v) (T.contents v) };

    ghost encodable = { T.writable };

    ghost size = { λ v. element_size (T.tag_of v) (T.value_size v) };

    ghost encode_answers = { λ v. ElementWritten (T.tag_of v) (T.value_size v)
        (T.encode_value_answers v) };

    #[inline(always)]
    fn encoded_len(&self) -> Result<Length, Error> {
        encoded_len_tlv(self)
    }

    #[inline(always)]
    fn encode<W: Writer>(&self, writer: &mut W) -> Result<(), Error> {
        // Each result is matched immediately: `?` and a tail call would first copy the whole
        // `Result`.
        let len = self.value_len()?;
        if let Err(error) = encode_header(self.tag(), len, writer) {
            return Err(error);
        }
        if let Err(error) = self.encode_value(writer) {
            return Err(error);
        }
        Ok(())
    }

    #[inline(always)]
    fn len_before(&self) -> Option<u32> {
        match self.value_len_before() {
            Some(count) => element_len(self.tag(), count),
            None => None,
        }
    }

    #[inline(always)]
    fn encode_before(&self, buf: &mut [u8], end: u32) -> u32 {
        let start = self.encode_value_before(buf, end);
        // the start is after the end only if the result is unspecified
        header_before(self.tag(), end.wrapping_sub(start), buf, start)
    }
}

/// The number of octets of the element of a value: its identifier, its length octets and its
/// contents.
///
/// # Errors
///
/// - Those of [`EncodeValue::value_len`].
/// - `Overflow` without a position, if the element has more than 4294967295 octets.
#[inline(always)]
pub fn encoded_len_tlv<T: EncodeValue + Tagged>(value: &T) -> Result<Length, Error>
    ensures ok { Counts (element_octets (T.tag_of value.now) (T.contents value.now)) result }
    ensures succeeds { T.writable value.now
        → HasSize (element_octets (T.tag_of value.now) (T.contents value.now)) result }
    ensures exact { result ≡ element_size (T.tag_of value.now) (T.value_size value.now) }
{
    value.value_len()?.for_tlv(value.tag())
}

/// Writes the element of a value: its header, then its contents (X.690 8.1.1).
///
/// # Errors
///
/// - Those of [`EncodeValue::value_len`]; the writer is unchanged.
/// - `Failed`, `Overflow` and `Overlength` of the writer at the header, as by [`Writer::write`];
///   the octets of the header that were written before the error remain.
/// - Those of [`EncodeValue::encode_value`]; the header and the contents octets that were written
///   before the error remain.
#[inline(always)]
pub fn encode_tlv<T: EncodeValue + Tagged, W: Writer>(
    value: &T,
    writer: &mut W,
) -> Result<(), Error>
    ensures kept { Keeps (W.state writer.old) (W.state writer.new) }
    ensures ok { Appends (W.state writer.old)
        (element_octets (T.tag_of value.now) (T.contents value.now)) result (W.state writer.new) }
    ensures succeeds { T.writable value.now → FitsCounted (W.state writer.old)
        (element_octets (T.tag_of value.now) (T.contents value.now)) result }
    ensures exact { W.reliable ≡ true → ElementWritten (T.tag_of value.now) (T.value_size value.now)
        (T.encode_value_answers value.now) (W.state writer.old) result (W.state writer.new) }
{
    value.encode(writer)
}
