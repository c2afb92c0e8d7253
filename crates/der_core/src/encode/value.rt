//! Encoding of contents.
ghost use Rattle.std.specs.Prelude.{◌≡◌, ℕ, true, List, length, IfOk, Result as AResult};
ghost use Rattle.der_base.specs.declared.error.Error.{Error as AnError};
ghost use Rattle.der_base.specs.declared.length.Length.{Length as ALength};
ghost use Rattle.der_core.specs.Before.{CertainIfSome, PlacedIfSpace};
ghost use Rattle.der_core.specs.Outcome.{map_ok};
ghost use Rattle.der_core.specs.Writer.{WriterState, Keeps, Appends};
ghost use Rattle.der_core.specs.Encode.{Counts, HasSize, FitsCounted, FitsInto, HeaderOf, HeaderAnswer, SliceAnswer};

use crate::header::Header;
use crate::tag::fixed::Tagged;
use crate::writer::{SliceWriter, Writer};
use der_base::{Error, Length};

/// Types whose values are written as contents octets. The trait has no functions: it only specifies
/// these octets.
///
/// Ghost members (for proofs only):
///
/// - `contents` is the contents octets of a value.
/// - `writable` says whether a value can be written at all.
pub trait WrittenValue {
    ghost contents: { Self → List ℕ };

    ghost writable: { Self → Type 0 };
}

/// Types whose values have contents, which are written after a header. A type that also implements
/// [`Tagged`] is encoded by [`crate::Encode`]: its header, then its contents.
///
/// Ghost members (for proofs only):
///
/// - `value_size` is the exact result of [`EncodeValue::value_len`], errors included.
/// - `encode_value_answers` is the exact outcome of [`EncodeValue::encode_value`] on a reliable
///   writer (see [`Writer`]), including each error and the state in which it leaves the writer.
///
/// A month as an `OCTET STRING` of one octet:
///
/// ````
/// ghost use Rattle.std.specs.Prelude.{◌≡◌, [], ◌∷◌, Ok, IfOk};
/// ghost use Rattle.der_base.specs.Length.{definite_length};
/// ghost use Rattle.der_base.specs.declared.tag.Tag.TheVariants.{OctetString};
/// ghost use Rattle.der_core.specs.Writer.{Writes, write_outcome};
///
/// use der_base::{Error, Length, Tag};
/// use der_core::{Encode, EncodeValue, FixedTag, Writer, WrittenValue};
///
/// pub struct Month {
///     pub number: u8,
/// }
///
/// impl FixedTag for Month {
///     ghost tag_is = { OctetString };
///
///     const TAG: Tag = Tag::OctetString;
///
///     fn fixed_tag() -> Tag {
///         Self::TAG
///     }
/// }
///
/// impl WrittenValue for Month {
///     ghost contents = { λ month. month.number ∷ [] };
///
///     ghost writable = { λ _. Unit {0} };
/// }
///
/// impl EncodeValue for Month {
///     ghost value_size = { λ _. Ok (definite_length 1) };
///
///     ghost encode_value_answers = { λ month s r t.
///         Writes (write_outcome (month.number ∷ []) s) r t };
///
///     fn value_len(&self) -> Result<Length, Error> {
///         Ok(Length::ONE)
///     }
///
///     fn encode_value<W: Writer>(&self, writer: &mut W) -> Result<(), Error> {
///         writer.write_byte(self.number)
///     }
/// }
///
/// /// The octets `04 01` and the month's number, such as `04 01 09` for September.
/// pub fn month_der<'b>(month: &Month, buf: &'b mut [u8]) -> Result<&'b [u8], Error>
///     ensures { IfOk result (λ r. r.now ≡ 4 ∷ 1 ∷ month.now.number ∷ []) }
/// {
///     month.encode_to_slice(buf)
/// }
/// ````
pub trait EncodeValue: WrittenValue {
    ghost value_size: { Self → AResult ALength AnError };

    ghost encode_value_answers: { Self → WriterState → AResult (Unit {0}) AnError → WriterState
        → Type 0 };

    /// The header of the value's element: its tag, and the number of its contents octets.
    ///
    /// # Errors
    ///
    /// - Those of [`EncodeValue::value_len`].
    #[inline(always)]
    fn header(&self) -> Result<Header, Error>
    where
        Self: Tagged,
        ensures ok { HeaderOf (Self.tag_of self.now) (Self.contents self.now) result }
        ensures succeeds { Self.writable self.now → HasSize (Self.contents self.now) result }
        ensures exact { HeaderAnswer (Self.tag_of self.now) (value_size self.now) result }
    {
        let len = self.value_len()?;
        Ok(Header::new(self.tag(), len))
    }

    /// The number of the value's contents octets.
    ///
    /// # Errors
    ///
    /// - The errors of the type, which the ghost member `value_size` specifies.
    fn value_len(&self) -> Result<Length, Error>
        ensures ok { Counts (Self.contents self.now) result }
        ensures succeeds { Self.writable self.now → HasSize (Self.contents self.now) result }
        ensures exact { result ≡ value_size self.now };

    /// Writes the value's contents octets.
    ///
    /// # Errors
    ///
    /// Whatever the error, the octets that were written before the call remain. The ghost member
    /// `encode_value_answers` specifies the state in which the call leaves the writer.
    ///
    /// - The errors of the type, which `encode_value_answers` also specifies.
    /// - `Failed`, `Overflow` and `Overlength` of the writer, as by [`Writer::write`].
    fn encode_value<W: Writer>(&self, writer: &mut W) -> Result<(), Error>
        ensures kept { Keeps (W.state writer.old) (W.state writer.new) }
        ensures ok { Appends (W.state writer.old) (Self.contents self.now) result
            (W.state writer.new) }
        ensures succeeds { Self.writable self.now
            → FitsCounted (W.state writer.old) (Self.contents self.now) result }
        ensures exact { W.reliable ≡ true
            → encode_value_answers self.now (W.state writer.old) result (W.state writer.new) };

    /// The number of the value's contents octets, if it is certain that they can be written. Then
    /// they are written by [`EncodeValue::encode_value_before`], as
    /// [`Encode::len_before`](crate::Encode::len_before) describes. The result `None` states
    /// nothing. The default implementation always returns `None`.
    fn value_len_before(&self) -> Option<u32>
        ensures { CertainIfSome (Self.writable self.now) (value_size self.now)
            (encode_value_answers self.now) (Self.contents self.now) result }
    {
        None
    }

    /// Writes the value's contents octets so that they end before index `end` of the buffer, and
    /// returns the index at which they start. All other octets of the buffer are unchanged. The
    /// default implementation computes the length and writes by [`EncodeValue::encode_value`].
    ///
    /// If the value cannot be written, or does not fit before `end`, the result and the contents of
    /// the buffer are unspecified.
    fn encode_value_before(&self, buf: &mut [u8], end: u32) -> u32
        ensures { Self.writable self.now
            → PlacedIfSpace (Self.contents self.now) result end buf.old buf.new }
    {
        let Ok(len) = self.value_len() else {
            return end;
        };
        let count = u32::from(len);
        if count > end || end as usize > buf.len() {
            return end;
        }
        let start = end - count;
        let mut writer = SliceWriter::within(buf, start as usize, count as usize);
        let _ = self.encode_value(&mut writer);
        start
    }
}

/// Writes the value's contents octets to the start of the buffer, and returns them. Allocates
/// nothing.
///
/// # Errors
///
/// After an error the contents of the buffer are unspecified.
///
/// - Those of the type, as by [`EncodeValue::encode_value`].
/// - `Overflow` at the position after the octets written, if the next write would end after
///   position 4294967295.
/// - `Overlength` at the position where the first write that does not fit into the buffer would
///   end.
pub fn encode_value_to_slice<'a, T: EncodeValue>(
    buf: &'a mut [u8],
    value: &T,
) -> Result<&'a [u8], Error>
    ensures ok { IfOk result (λ r. r.now ≡ T.contents value.now) }
    ensures succeeds { T.writable value.now
        → FitsInto (T.contents value.now) (length buf.old) result }
    ensures exact { SliceAnswer (T.encode_value_answers value.now) buf.old
        (map_ok (λ r. r.now) result) }
{
    let mut writer = SliceWriter::new(buf);
    value.encode_value(&mut writer)?;
    writer.finish()
}
