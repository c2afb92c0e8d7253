//! Writing of types whose contents are fields. Such a type implements one function, which passes
//! all fields of a value to an operation; the lengths and the octets follow from it.
ghost use Rattle.std.specs.Prelude.{◌≡◌, ℕ, true, List, Result as AResult};
ghost use Rattle.der_base.specs.declared.error.Error.{Error as AnError};
ghost use Rattle.der_base.specs.declared.length.Length.{Length as ALength};
ghost use Rattle.der_core.specs.Before.{CertainIfSome, PlacedIfSpace};
ghost use Rattle.der_core.specs.Encode.{Counts, HasSize, FitsCounted, WriterAnswer};
ghost use Rattle.der_core.specs.Writer.{Keeps, Appends};

use crate::encode::{Encode, EncodeValue, WrittenValue};
use crate::writer::Writer;
use der_base::{Error, Length};

/// An operation on all fields of a value, such as writing them. The fields are passed together, as
/// one value of a type that implements [`Encode`]. `S` is the type of a state that the operation
/// may change.
///
/// Ghost member (for proofs only): `gives` relates the state and the buffer before a call to the
/// result, the state and the buffer after it. Of the fields it gets their encoding, whether they
/// can be written, the result of [`Encode::encoded_len`], and the outcome of [`Encode::encode`].
pub trait FieldsCall<S> {
    /// The type of the result of [`FieldsCall::call`].
    type Output: Drop;

    ghost gives: { Self → List ℕ → Type 0 → AResult ALength AnError → WriterAnswer → S → S
        → List ℕ → List ℕ → Self.Output → Type 0 };

    /// Performs the operation that this value describes on `fields`: for example, it writes them.
    /// The operation may change `state` and the octets of `buf`.
    fn call<F: Encode>(&self, fields: &F, state: &mut S, buf: &mut [u8]) -> Self::Output
        ensures { gives self.now (F.encoding fields.now) (F.encodable fields.now)
            (F.size fields.now) (F.encode_answers fields.now) state.old state.new buf.old buf.new
            result };
}

/// Types whose contents are fields, which are written one after the other. A type that implements
/// this trait implements [`EncodeValue`].
///
/// Ghost members (for proofs only):
///
/// - `fields_size` is the exact result of [`EncodeValue::value_len`], errors included.
/// - `fields_answers` is the exact outcome of [`EncodeValue::encode_value`] on a reliable writer.
pub trait HasFields: WrittenValue {
    ghost fields_size: { Self → AResult ALength AnError };

    ghost fields_answers: { Self → WriterAnswer };

    /// Calls [`FieldsCall::call`] of `call` with all fields of this value, with `state` and with
    /// `buf`, and returns its result. [`field_refs!`](crate::field_refs) makes one value of all
    /// fields.
    fn call_fields<S, C: FieldsCall<S>>(&self, call: &C, state: &mut S, buf: &mut [u8]) -> C::Output
        ensures { C.gives call.now (Self.contents self.now) (Self.writable self.now)
            (fields_size self.now) (fields_answers self.now) state.old state.new buf.old buf.new
            result };
}

// The number of octets of the fields.
#[derive(Drop)]
struct FieldsLen;

impl FieldsCall<()> for FieldsLen {
    type Output = Result<Length, Error>;

    ghost gives = { λ call octets can size answers s t old new result.
        Counts octets result × (can → HasSize octets result) × (result ≡ size) };

    #[inline(always)]
    fn call<F: Encode>(&self, fields: &F, _: &mut (), _: &mut [u8]) -> Result<Length, Error> {
        fields.encoded_len()
    }
}

// Writes the fields.
#[derive(Drop)]
struct FieldsWrite;

impl<W: Writer> FieldsCall<W> for FieldsWrite {
    type Output = Result<(), Error>;

    ghost gives = { λ call octets can size answers s t old new result.
        Keeps (W.state s) (W.state t) × Appends (W.state s) octets result (W.state t)
        × (can → FitsCounted (W.state s) octets result)
        × (W.reliable ≡ true → answers (W.state s) result (W.state t)) };

    #[inline(always)]
    fn call<F: Encode>(&self, fields: &F, writer: &mut W, _: &mut [u8]) -> Result<(), Error> {
        fields.encode(writer)
    }
}

// The number of octets of the fields, if it is certain that they can be written.
#[derive(Drop)]
struct FieldsLenBefore;

impl FieldsCall<()> for FieldsLenBefore {
    type Output = Option<u32>;

    ghost gives = { λ call octets can size answers s t old new result.
        CertainIfSome can size answers octets result };

    #[inline(always)]
    fn call<F: Encode>(&self, fields: &F, _: &mut (), _: &mut [u8]) -> Option<u32> {
        fields.len_before()
    }
}

// Writes the fields so that they end before an index of the buffer.
#[derive(Drop)]
struct FieldsBefore {
    end: u32,
}

impl FieldsCall<()> for FieldsBefore {
    type Output = u32;

    ghost gives = { λ call octets can size answers s t old new result.
        can → PlacedIfSpace octets result call.end old new };

    #[inline(always)]
    fn call<F: Encode>(&self, fields: &F, _: &mut (), buf: &mut [u8]) -> u32 {
        fields.encode_before(buf, self.end)
    }
}

/// Writes the fields one after the other.
///
/// # Errors
///
/// Those of the first field whose length cannot be computed, or that cannot be written.
/// [`EncodeValue::value_len`] also fails with `Overflow` without a position, if the fields together
/// have more than 4294967295 octets.
impl<T: HasFields> EncodeValue for T {
    ghost value_size = { T.fields_size };

    ghost encode_value_answers = { T.fields_answers };

    #[inline(always)]
    fn value_len(&self) -> Result<Length, Error> {
        self.call_fields(&FieldsLen, &mut (), &mut [])
    }

    #[inline(always)]
    fn encode_value<W: Writer>(&self, writer: &mut W) -> Result<(), Error> {
        self.call_fields(&FieldsWrite, writer, &mut [])
    }

    #[inline(always)]
    fn value_len_before(&self) -> Option<u32> {
        self.call_fields(&FieldsLenBefore, &mut (), &mut [])
    }

    #[inline(always)]
    fn encode_value_before(&self, buf: &mut [u8], end: u32) -> u32 {
        self.call_fields(&FieldsBefore { end }, &mut (), buf)
    }
}
