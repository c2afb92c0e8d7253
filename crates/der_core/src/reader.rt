//! Readers of octets.
ghost use Rattle.std.specs.Prelude.{◌≡◌, ℕ, Bool, true, false, List, length, Ok, Err, IfOk, OnOk, OnErr};
ghost use Rattle.der_base.specs.Error.{error_at};
ghost use Rattle.der_base.specs.Length.{number, definite_length};
ghost use Rattle.der_base.specs.declared.error.ErrorKind.TheVariants.{Reader as CannotRead};
ghost use Rattle.der_core.specs.ReaderState.{ReaderState, reader_position, stopped_state, resumed_state, Same, IsSound};
ghost use Rattle.der_core.specs.Outcome.{Meets, map_ok};
ghost use Rattle.der_core.specs.Reader.{read_slice_outcome, read_into_outcome, remaining_answer, drain_outcome, finish_answer, enter_nested_outcome, VecMeets};
ghost use Rattle.der_core.specs.Resumption.{outer_place, outer_end, outer_depth};
ghost use Rattle.der_core.specs.Nested.{CanLeave};

mod extension;
pub mod position;
pub mod slice;
pub mod value;

use der_base::{EncodingRules, Error, ErrorKind, Length};
pub use extension::ReaderExt;
pub use position::{Position, Resumption};
pub use slice::SliceReader;
use std::alloc::{Allocator, Global};
pub use value::{close_value, read_eoc, read_value};

/// Octets that a reader returns.
///
/// Ghost member (for proofs only): `octets` is the list of these octets.
pub trait Octets: Drop {
    ghost octets: { Self → List ℕ };

    /// The octets that the reader returned, as a slice.
    fn as_slice(&self) -> &[u8]
        ensures { result.now ≡ octets self.now };
}

impl<'a> Octets for &'a [u8] {
    ghost octets = { λ s. s.now };

    fn as_slice(&self) -> &[u8] {
        self
    }
}

/// Names the type of the octets that a reader returns without copying them. An implementation of
/// [`Decode`](crate::Decode) for `R: Lends` can name what it borrows, and does not require the
/// functions of [`Reader`].
pub trait Lends {
    /// The type of the octets that [`Reader::read_slice`] and [`Reader::remaining`] return. For a
    /// [`SliceReader`] this type is a slice of the input.
    type Borrowed: Octets;
}

/// A reader of octets: an input, the end up to which it may be read, a position, and whether the
/// reader has failed.
///
/// A reader is reliable if its functions fail exactly in the cases that their contracts specify,
/// with the specified errors and positions. If several errors in the list of a function apply, a
/// reliable reader returns the first of them. A reader that is not reliable may fail at any call;
/// only its `Ok` results are specified.
///
/// Some readers keep no failed state: they do not remember that they have failed. A reader that
/// keeps no failed state counts as not failed at all times, even where the list of errors of a
/// function says that the reader is then failed.
///
/// Ghost members (for proofs only):
///
/// - `state` is the meaning of the reader: input, rules, end, position, depth, whether the reader
///   has failed, and whether the reader remembers that it has failed (keeps a failed state); see
///   `specs/ReaderState.antt`.
/// - `reliable` says whether the reader is reliable, as described above.
/// - `reads_slices` says whether the reader can return slices.
/// - `sound_state` is a property of every state, which implementors prove: the position is not
///   after the end, and the end is not after the end of the input, which has at most 4294967295
///   octets; the depth is at most 64; and only a reader that keeps a failed state is ever failed.
/// - `reading_slices` is a property that implementors prove: every reliable reader can return
///   slices.
pub trait Reader: Lends + Sized + Drop {
    ghost state: { Self → ReaderState };

    ghost reliable: { Bool };

    ghost reads_slices: { Bool };

    /// Whether the reader can return slices.
    const CAN_READ_SLICE: bool;

    /// Whether the reader can return slices: `Self::CAN_READ_SLICE`. Generic code calls this
    /// function, because it cannot name the constant in a contract.
    ///
    /// The implementor must ensure that the result is `Self::CAN_READ_SLICE`.
    fn can_return_slices() -> bool
        ensures { result ≡ reads_slices };

    /// The encoding rules by which tags, lengths and values are read.
    fn encoding_rules(&self) -> EncodingRules
        ensures { result ≡ (state self.now).rules };

    /// The end up to which the input may be read, in octets from the start of the input. Inside a
    /// nested part (see [`Reader::enter_nested`]) this is the end of that part. Outside all nested
    /// parts it is the length of the input.
    fn input_len(&self) -> Length
        ensures { result ≡ definite_length (state self.now).end };

    /// The number of octets read since the start of the input.
    fn position(&self) -> Length
        ensures { result ≡ definite_length (state self.now).position };

    /// Whether the reader has failed. The result is always `false` for a reader that keeps no
    /// failed state (see [`Reader`]).
    fn is_failed(&self) -> bool
        ensures { result ≡ (state self.now).failed };

    /// Returns the next `len` octets without copying them.
    ///
    /// # Errors
    ///
    /// - `Reader` at the reader's position, if the reader cannot return slices; the reader is
    ///   unchanged.
    /// - `Failed` at the reader's position, if the reader had already failed; the reader is
    ///   unchanged.
    /// - `Overflow` without a position, if fewer octets are left than requested and the sum of
    ///   position and requested number exceeds 4294967295; the reader is unchanged.
    /// - `Incomplete` at the reader's position, if fewer octets are left and that sum does not
    ///   exceed 4294967295; the reader is then failed.
    fn read_slice(&mut self, len: Length) -> Result<Self::Borrowed, Error>
        ensures same { Same (state self.old) (state self.new) }
        ensures exact { Meets reliable (read_slice_outcome (number len)) (state self.old)
            (map_ok Self.Borrowed.octets result) (state self.new) }
        ensures not_borrowed { reads_slices ≡ false
            → map_ok Self.Borrowed.octets result ≡ Err
            (error_at CannotRead (reader_position (state self.old))) }
        ensures unmoved { reads_slices ≡ false → state self.new ≡ state self.old };

    /// Fills the buffer with the next octets.
    ///
    /// # Errors
    ///
    /// A call that fails leaves the buffer unchanged.
    ///
    /// - `Overflow` without a position, if the buffer is longer than 4294967295 octets; the reader
    ///   is unchanged.
    /// - `Failed` at the reader's position, if the reader had already failed; the reader is
    ///   unchanged.
    /// - `Overflow` without a position, if fewer octets are left than requested and the sum of
    ///   position and requested number exceeds 4294967295; the reader is unchanged.
    /// - `Incomplete` at the reader's position, if fewer octets are left and that sum does not
    ///   exceed 4294967295; the reader is then failed.
    fn read_into(&mut self, buf: &mut [u8]) -> Result<(), Error>
        ensures same { Same (state self.old) (state self.new) }
        ensures exact { Meets reliable (read_into_outcome (length buf.old)) (state self.old)
            (map_ok (λ _. buf.new) result) (state self.new) }
        ensures kept { OnErr result (buf.new ≡ buf.old) };

    /// Returns an error of the kind `kind` at the reader's position. The reader is then failed,
    /// unless it keeps no failed state (see [`Reader`]).
    fn error(&mut self, kind: ErrorKind) -> Error
        ensures same { Same (state self.old) (state self.new) }
        ensures at_position { result ≡ error_at kind (reader_position (state self.old)) }
        ensures failed { state self.new ≡ stopped_state (state self.old)
            (state self.old).position };

    /// Returns the octets from the reader's position up to its end, without copying them. Inside a
    /// nested part, this is the end of that part. The reader does not move.
    ///
    /// # Errors
    ///
    /// - `Reader` at the reader's position, if the reader cannot return slices.
    /// - `Failed` at the reader's position, if the reader had already failed.
    fn remaining(&self) -> Result<Self::Borrowed, Error>
        ensures ok { IfOk result (λ r. Ok (Self.Borrowed.octets r) ≡ remaining_answer
            (state self.now)) }
        ensures exact { reliable ≡ true
            → map_ok Self.Borrowed.octets result ≡ remaining_answer (state self.now) }
        ensures not_borrowed { reads_slices ≡ false
            → map_ok Self.Borrowed.octets result ≡ Err
            (error_at CannotRead (reader_position (state self.now))) };

    /// Returns another reader in the same state as this one. Reading from the other reader leaves
    /// this one unchanged. Allocates nothing.
    fn fork(&self) -> Self
        ensures { state result ≡ state self.now };

    /// Returns the next `len` octets in memory of the allocator `alloc`. A reliable reader (see
    /// [`Reader`]) allocates only once the octets are known to be available.
    ///
    /// # Errors
    ///
    /// - `Failed` at the reader's position, if the reader had already failed; the reader is
    ///   unchanged.
    /// - `Overflow` without a position, if fewer octets are left than requested and the sum of
    ///   position and requested number exceeds 4294967295; the reader is unchanged.
    /// - `Incomplete` at the reader's position, if fewer octets are left and that sum does not
    ///   exceed 4294967295; the reader is then failed.
    /// - `OutOfMemory` without a position, if the allocation fails; the reader is unchanged.
    fn read_vec_in<A: Allocator>(&mut self, alloc: A, len: Length) -> Result<Vec<u8, A>, Error>
        ensures same { Same (state self.old) (state self.new) }
        ensures exact { VecMeets reliable (number len) (state self.old)
            (map_ok (λ v. v.items) result)
            (state self.new) };

    /// Returns the next `len` octets in memory of the global allocator. A reliable reader (see
    /// [`Reader`]) allocates only once the octets are known to be available.
    ///
    /// # Errors
    ///
    /// - `Failed` at the reader's position, if the reader had already failed; the reader is
    ///   unchanged.
    /// - `Overflow` without a position, if fewer octets are left than requested and the sum of
    ///   position and requested number exceeds 4294967295; the reader is unchanged.
    /// - `Incomplete` at the reader's position, if fewer octets are left and that sum does not
    ///   exceed 4294967295; the reader is then failed.
    /// - `OutOfMemory` without a position, if the allocation fails; the reader is unchanged.
    final fn read_vec(&mut self, alloc: Global, len: Length) -> Result<Vec<u8>, Error>
        ensures same { Same (Self.state self.old) (Self.state self.new) }
        ensures exact { VecMeets Self.reliable (number len) (Self.state self.old)
            (map_ok (λ v. v.items) result) (Self.state self.new) }
    {
        self.read_vec_in(alloc, len)
    }

    /// Skips `amount` octets. If `amount` is [`Length::ZERO`], the call does nothing and returns
    /// `Ok`, even if the reader has failed.
    ///
    /// If the reader has not failed, but fewer than `amount` octets are left, the call returns an
    /// error, but first moves the reader past as many whole blocks of sixteen octets as are left.
    /// After these blocks it asks for the rest of `amount`, or for sixteen octets if the rest is
    /// longer. Below, the requested end is where the octets that it asks for would end.
    ///
    /// # Errors
    ///
    /// - `Failed` at the reader's position, if the reader had already failed; the reader is
    ///   unchanged.
    /// - `Overflow` without a position, if fewer than `amount` octets are left and the requested
    ///   end exceeds 4294967295; the reader is then after the whole blocks, and has not failed.
    /// - `Incomplete` at the position after the whole blocks, if fewer than `amount` octets are
    ///   left and the requested end does not exceed 4294967295; the reader is then at this
    ///   position, and has failed.
    fn drain(&mut self, amount: Length) -> Result<(), Error>
        ensures same { Same (state self.old) (state self.new) }
        ensures exact { Meets reliable (drain_outcome amount) (state self.old) result
            (state self.new) };

    /// Ends reading: checks that the reader has not failed and that no octets are left. Consumes
    /// the reader.
    ///
    /// # Errors
    ///
    /// - `Failed` at the reader's position, if the reader had already failed.
    /// - `TrailingData` at the reader's position, if octets are left.
    fn finish(self) -> Result<(), Error>
        ensures ok { OnOk result (finish_answer (state self) ≡ Ok tt) }
        ensures exact { reliable ≡ true → result ≡ finish_answer (state self) };

    /// Enters a nested part that consists of the next `len` octets. Returns the reader's end and
    /// depth from before the call, for [`Reader::leave_nested`]. Until the part is left, only its
    /// octets may be read, and the depth is one greater than before. That the reader has failed is
    /// no error here: a failed reader enters the part too.
    ///
    /// # Errors
    ///
    /// - `Overflow` without a position, if the end of the part would exceed 4294967295; the reader
    ///   is unchanged.
    /// - `Incomplete` at the reader's end, if the part would go beyond this end, but not beyond
    ///   4294967295; the reader is unchanged.
    /// - `NestingDepth` at the reader's position, if the part would be nested in 64 others; the
    ///   reader is then failed.
    fn enter_nested(&mut self, len: Length) -> Result<Resumption, Error>
        ensures exact { Meets reliable (enter_nested_outcome (number len)) (state self.old)
            (map_ok outer_place result) (state self.new) }
        ensures err { OnErr result (Same (state self.old) (state self.new)) };

    /// Leaves a nested part: restores the reader's end and depth to those in `resumption`.
    ///
    /// The caller must ensure that the end in `resumption` is neither before the position nor after
    /// the end of the input, and that the depth in `resumption` is at most 64. What
    /// [`Reader::enter_nested`] returned for this part satisfies both conditions.
    fn leave_nested(&mut self, resumption: Resumption)
        requires { CanLeave (state self.old) (outer_end resumption) (outer_depth resumption) }
        ensures { state self.new ≡ resumed_state (state self.old) (outer_end resumption)
            (outer_depth resumption) };

    // a law of every reader
    ghost sound_state: { (s : Self) → IsSound (state s) };

    // a reliable reader returns slices
    ghost reading_slices: { reliable ≡ true → reads_slices ≡ true };
}
