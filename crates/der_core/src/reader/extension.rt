//! Functions that every reader has.
ghost use Rattle.std.specs.Prelude.{◌≡◌, ◌↔◌, ℕ, ◌+◌, ◌-◌, ◌≤◌, true, false, IsTrue, length, IfOk, OnErr};
ghost use Rattle.der_base.specs.ScanGrammar.{BodyFault};
ghost use Rattle.der_base.specs.HeaderGrammar.{TagNext, HeaderFault};
ghost use Rattle.der_base.specs.Tag.{IdentifierFault};
ghost use Rattle.der_base.specs.Length.{number, definite_length};
ghost use Rattle.der_core.specs.ReaderState.{ReaderState, rest_of, Same, resumed_state};
ghost use Rattle.der_core.specs.Outcome.{Meets, AnswersAs, PeeksAs, IsBinding, map_ok};
ghost use Rattle.der_core.specs.Reader.{read_byte_outcome, read_into_outcome};
ghost use Rattle.der_core.specs.Resumption.{outer_end, outer_depth};
ghost use Rattle.der_core.specs.Decode.{Passes, Peeks, TlvAnswer, ReaderDecodes, ReadsOrLacks};
ghost use Rattle.der_core.specs.Header.{head_of, HeaderNext};
ghost use Rattle.der_core.specs.declared.header.Header.{Header as AHeader};
ghost use Rattle.der_base.specs.Arithmetic.{sans_eoc};
ghost use Rattle.der_base.specs.declared.tag.Tag.TheVariants.{Sequence};
ghost use Rattle.der_base.specs.declared.encoding_rules.EncodingRules.TheVariants.{Ber};
ghost use Rattle.der_core.specs.Scan.{ScansNext, IsTurned};
ghost use Rattle.der_core.specs.Nested.{CanLeave, Closes, RestoresReader, NestedAnswer};
ghost use Rattle.der_core.specs.Element.{ElementReadBy};

use crate::decode::Decode;
use crate::header::{Header, decode_guessed_header, decode_header};
use crate::identifier::guess;
use crate::length::indefinite::scan_next_body;
use crate::length::turns::Turns;
use crate::reader::value::read_contents;
use crate::reader::{Reader, Resumption};
use crate::tag::decode_tag;
use der_base::{Error, ErrorKind, Length, Tag};
use std::alloc::Global;
use std::sync::ledger::Ledger;

/// Functions that every reader has. They only use the functions of [`Reader`].
pub trait ReaderExt: Reader {
    /// Reads the next octet.
    ///
    /// # Errors
    ///
    /// - `Failed` at the reader's position, if the reader had already failed; the reader is
    ///   unchanged.
    /// - `Overflow` without a position, if no octet is left at position 4294967295; the reader is
    ///   unchanged.
    /// - `Incomplete` at the reader's position, if no octet is left at any other position; the
    ///   reader is then failed.
    #[inline(always)]
    final fn read_byte(&mut self) -> Result<u8, Error>
        ensures same { Same (Self.state self.old) (Self.state self.new) }
        ensures exact { Meets Self.reliable read_byte_outcome (Self.state self.old) result
            (Self.state self.new) }
    {
        let mut octet = [0u8];
        self.read_into(&mut octet)?;
        Ok(octet[0])
    }

    /// The number of octets read since the start of the input. The result is that of
    /// [`Reader::position`].
    final fn offset(&self) -> Length
        ensures { result ≡ definite_length (Self.state self.now).position }
    {
        self.position()
    }

    /// The number of octets left, up to the end in [`Reader::input_len`].
    final fn remaining_len(&self) -> Length
        ensures { result ≡ definite_length
            ((Self.state self.now).end - (Self.state self.now).position) }
    {
        self.input_len().saturating_sub(self.position())
    }

    /// Whether no octets are left.
    final fn is_finished(&self) -> bool
        ensures { IsTrue result ↔ ((Self.state self.now).end ≡ (Self.state self.now).position) }
    {
        self.remaining_len().is_zero()
    }

    /// Leaves a nested part: restores the reader's end and depth to those in `outer`. Returns
    /// `answer`, the result of reading the part. If `answer` is `Ok`, octets left unread in the
    /// part are an error.
    ///
    /// The caller must ensure that the end in `outer` is neither before the position nor after the
    /// end of the input, and that the depth in `outer` is at most 64. What [`Reader::enter_nested`]
    /// returned for this part satisfies both conditions.
    ///
    /// # Errors
    ///
    /// After each of these errors the reader has the end and the depth in `outer`.
    ///
    /// - The error in `answer`, unchanged; the reader does not move.
    /// - `TrailingData` at the reader's position, if octets are left in the part; the reader is
    ///   then failed.
    #[inline(always)]
    final fn close_nested<T: Drop, E: From<Error> + Drop>(
        &mut self,
        outer: Resumption,
        answer: Result<T, E>,
    ) -> Result<T, E>
        requires { CanLeave (Self.state self.old) (outer_end outer) (outer_depth outer) }
        ensures same { Same
            (resumed_state (Self.state self.old) (outer_end outer) (outer_depth outer))
            (Self.state self.new) }
        ensures exact { Closes E.from_gives answer (Self.state self.old) (outer_end outer)
            (outer_depth outer) result (Self.state self.new) }
    {
        // errors are matched first, so that their payload is not moved when there is none
        let value = match answer {
            Ok(value) => value,
            Err(error) => {
                self.leave_nested(outer);
                return Err(error);
            }
        };
        let left = self.remaining_len();
        self.leave_nested(outer);
        if !left.is_zero() {
            let kind = ErrorKind::TrailingData {
                decoded: self.position(),
                remaining: left,
            };
            return Err(E::from(self.error(kind)));
        }
        Ok(value)
    }

    /// Reads a nested part that consists of the next `len` octets: calls `f` with this reader
    /// inside the part, and returns the result of `f`. While `f` runs, the end of this reader is
    /// the end of the part, and the depth of this reader is one greater than before. Octets of the
    /// part that `f` leaves unread are an error.
    ///
    /// The caller must ensure two things:
    ///
    /// - The requirements of `f` hold for this reader inside the part. The caller may assume that
    ///   the part does not exceed the end and is nested in fewer than 64 others.
    /// - `f` leaves the reader's input, rules, end and depth unchanged. It does not move the reader
    ///   backwards, and a failed reader stays failed.
    ///
    /// # Errors
    ///
    /// - `Overflow`, `Incomplete` and `NestingDepth`, if the part cannot be entered, as by
    ///   [`Reader::enter_nested`].
    /// - The error of `f`; the reader is where `f` left it, with its previous end and depth.
    /// - `TrailingData` at the reader's position, if `f` leaves octets unread; the reader is then
    ///   failed.
    #[inline(always)]
    final fn read_nested<T: Drop, E: From<Error> + Drop, F: FnOnce(&mut Self) -> Result<T, E>>(
        &mut self,
        len: Length,
        f: F,
    ) -> Result<T, E>
        requires { RestoresReader (F.pre f) (F.post f) (λ p. Self.state p.now)
            (λ q. Self.state q.now)
            (Self.state self.old) (number len) }
        ensures same { Same (Self.state self.old) (Self.state self.new) }
        ensures exact { IsBinding Self.reliable result
            → NestedAnswer E.from_gives (F.post f) (λ p. Self.state p.now) (λ q. Self.state q.now)
            (number len) (Self.state self.old) result (Self.state self.new) }
    {
        let outer = self.enter_nested(len)?;
        let answer = f(self);
        self.close_nested(outer, answer)
    }

    /// The next octet, or `None` if reading it would fail; the reader does not move.
    final fn peek_byte(&self) -> Option<u8>
        ensures { PeeksAs Self.reliable (read_byte_outcome (Self.state self.now)).answer result }
    {
        let mut fork = self.fork();
        fork.read_byte().ok()
    }

    /// Fills the buffer with the next octets; the reader does not move.
    ///
    /// # Errors
    ///
    /// `Overflow`, `Failed` and `Incomplete`, as by [`Reader::read_into`] and with the same
    /// positions; buffer and reader are unchanged.
    final fn peek_into(&self, buf: &mut [u8]) -> Result<(), Error>
        ensures exact { AnswersAs Self.reliable (read_into_outcome (length buf.old))
            (Self.state self.now) (map_ok (λ _. buf.new) result) }
        ensures kept { OnErr result (buf.new ≡ buf.old) }
    {
        let mut fork = self.fork();
        fork.read_into(buf)
    }

    /// The next header, decoded without moving the reader.
    ///
    /// # Errors
    ///
    /// `Failed`, `Overflow`, `Incomplete`, `TagUnknown`, `TagNumberInvalid`, `IndefiniteLength`,
    /// `NestingDepth` and `Length`, as by [`Header::decode`] and with the same positions; the
    /// reader is unchanged.
    final fn peek_header(&self) -> Result<Header, Error>
        ensures { Peeks HeaderNext (HeaderFault BodyFault) Self.reliable (Self.state self.now)
            result }
    {
        let mut fork = self.fork();
        decode_header(&mut fork)
    }

    /// The next tag, decoded without moving the reader.
    ///
    /// # Errors
    ///
    /// `Failed`, `Overflow`, `Incomplete`, `TagUnknown` and `TagNumberInvalid`, as by
    /// [`Tag::decode`] and with the same positions; the reader is unchanged.
    #[inline(always)]
    final fn peek_tag(&self) -> Result<Tag, Error>
        ensures { Peeks TagNext IdentifierFault Self.reliable (Self.state self.now) result }
    {
        let mut fork = self.fork();
        decode_tag(&mut fork)
    }

    /// Scans the next indefinite-length body and returns its number of octets, including its
    /// end-of-contents octets (X.690 8.1.3.6). The reader does not move. `turns`, which exists only
    /// for proofs, counts each identifier and each end-of-contents (two zero octets) in the scan.
    /// If [`Reader::remaining`] succeeds, the function scans the octets that [`Reader::remaining`]
    /// returns. If [`Reader::remaining`] fails, the function scans a fork of the reader (see
    /// [`Reader::fork`]).
    ///
    /// The caller must ensure that the reader uses the Basic Encoding Rules.
    ///
    /// # Errors
    ///
    /// `Failed`, `Overflow`, `Incomplete`, `IndefiniteLength`, `TagUnknown`, `TagNumberInvalid`,
    /// `NestingDepth` and `Length`, as by
    /// [`decode_indefinite_length`](crate::decode_indefinite_length) and with the same positions;
    /// the reader is unchanged.
    final fn scan_indefinite<L: Ledger>(&self, turns: &mut Turns<L>) -> Result<Length, Error>
        requires ber { (Self.state self.now).rules ≡ Ber }
        ensures scans { ScansNext Self.reliable (Self.state self.now) result }
        ensures turned { IsTurned (rest_of (Self.state self.now)) result turns.old turns.new }
    {
        scan_next_body(self, turns)
    }

    /// Returns the octets of the next whole element, without copying them: header, contents and any
    /// end-of-contents octets.
    ///
    /// # Errors
    ///
    /// If several errors apply, the first in this list is returned. The size of the element is the
    /// number of its octets: header, contents and any end-of-contents octets together.
    ///
    /// - Those of the header, as by [`ReaderExt::peek_header`]; the reader is unchanged.
    /// - `Overflow` without a position, if the size of the element exceeds 4294967295; the reader
    ///   is unchanged.
    /// - Those of [`Reader::read_slice`], called with the size of the element.
    final fn tlv_bytes(&mut self) -> Result<Self::Borrowed, Error>
        ensures same { Same (Self.state self.old) (Self.state self.new) }
        ensures exact { IsBinding Self.reliable result
            → TlvAnswer (Self.state self.old) (map_ok Self.Borrowed.octets result)
            (Self.state self.new) }
    {
        let mut fork = self.fork();
        let header = decode_header(&mut fork)?;
        let header_len = fork.position().saturating_sub(self.position());
        let len = (header_len + header.length())?;
        self.read_slice(len)
    }

    /// Decodes a value of the type `T` by [`Decode::decode`]. After every error the reader is
    /// failed.
    ///
    /// # Errors
    ///
    /// - `Failed` at the reader's position, if the reader had already failed; the reader is
    ///   unchanged.
    /// - Those of the type, as by [`Decode::decode`]; the reader is where decoding leaves it and
    ///   failed, whatever the error.
    #[inline(always)]
    final fn decode<T: Decode<Self>>(
        &mut self,
        alloc: Global,
    ) -> Result<T, <T as Decode<Self>>::Error>
        ensures same { Same (Self.state self.old) (Self.state self.new) }
        ensures ok { IfOk result (λ v. (Self.state self.new).failed ≡ false
            → Passes (T.is_next v) (Self.state self.old) (Self.state self.new)) }
        ensures complete { (v : T) (m : ℕ) → Self.reliable ≡ true
            → (Self.state self.old).failed ≡ false
            → T.is_next v (Self.state self.old).rules (rest_of (Self.state self.old)) m
            → (Self.state self.old).depth + T.decode_levels (Self.state self.old).rules ≤ 64
            → ReadsOrLacks T.Error.out_of_memory T.allocates (Self.state self.old) m result
            (Self.state self.new) }
        ensures exact { ReaderDecodes Self.reliable T.decode_answers T.Error.from_gives
            (Self.state self.old) result (Self.state self.new) }
    {
        if self.is_failed() {
            return Err(self.error(ErrorKind::Failed).into());
        }
        match T::decode(alloc, self) {
            Ok(value) => Ok(value),
            Err(error) => {
                let _ = self.error(ErrorKind::Failed);
                Err(error)
            }
        }
    }

    /// Reads a SEQUENCE (X.690 8.9). Calls `f` with this reader inside the contents, and returns
    /// the result of `f`. Contents octets that `f` leaves unread are an error.
    ///
    /// The caller must ensure two things for every header with the tag SEQUENCE that may be next:
    ///
    /// - The requirements of `f` hold for this reader inside the contents. The caller may assume
    ///   that the contents do not exceed the end and are nested in fewer than 64 parts.
    /// - `f` leaves the reader's input, rules, end and depth unchanged. It does not move the reader
    ///   backwards, and a failed reader stays failed.
    ///
    /// # Errors
    ///
    /// - Those of the header, as by [`Header::decode`].
    /// - `TagUnexpected` without a position, if the header has another tag; the reader is after the
    ///   header and has not failed.
    /// - `Overflow`, `Incomplete` and `NestingDepth`, if the contents cannot be entered, as by
    ///   [`Reader::enter_nested`]; the reader is after the header.
    /// - The error of `f`; the reader is where `f` left it, with its previous end and depth.
    /// - `TrailingData` at the reader's position, if `f` leaves octets unread; the reader is then
    ///   failed.
    /// - Those of [`read_eoc`](crate::read_eoc), if the length was read in the indefinite form.
    final fn sequence<T: Drop, E: From<Error> + Drop, F: FnOnce(&mut Self) -> Result<T, E>>(
        &mut self,
        f: F,
    ) -> Result<T, E>
        requires { (h : AHeader) (s : ReaderState)
            → Passes (HeaderNext h) (Self.state self.old) s
            → (head_of h).tag ≡ Sequence
            → RestoresReader (F.pre f) (F.post f) (λ p. Self.state p.now) (λ q. Self.state q.now) s
            (number (sans_eoc (head_of h).length)) }
        ensures same { Same (Self.state self.old) (Self.state self.new) }
        ensures exact { IsBinding Self.reliable result
            → ElementReadBy Sequence E.from_gives (λ _. F.post f) (λ p. Self.state p.now)
            (λ q. Self.state q.now) (Self.state self.old) result (Self.state self.new) }
    {
        let header = decode_guessed_header(self, guess(Tag::Sequence))?;
        header.tag().assert_eq(Tag::Sequence)?;
        read_contents(self, header.length().sans_eoc(), f)
    }
}

impl<R: Reader> ReaderExt for R {}
