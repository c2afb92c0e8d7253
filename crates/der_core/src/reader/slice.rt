//! A reader of a slice.
ghost use Rattle.std.specs.Prelude.{◌≡◌, ◌+◌, ◌^◌, ◌<◌, ◌≤◌, ◌↔◌, true, length, IfOk, IfErr, IsOk};

use crate::reader::position::MAX_DEPTH;
use crate::reader::{Lends, Position, Reader, Resumption};
use der_base::{EncodingRules, Error, ErrorKind, Length};
use std::alloc::Allocator;

// the number of octets that `drain` skips in one step
pub(crate) const STEP: u32 = 16;

/// A reader of a slice; the octets that it returns are borrowed from that slice.
#[derive(Debug)]
pub struct SliceReader<'a> {
    bytes: &'a [u8],
    encoding_rules: EncodingRules,
    place: Position,
    failed: bool,
    ghost ordered: { place.position ≤ place.end },
    ghost in_input: { place.end ≤ length bytes.now },
    ghost addressable: { length bytes.now < 2 ^ 32 },
    ghost shallow: { place.depth ≤ 64 },
}

impl Drop for SliceReader<'_> {
    fn drop(self) {
        let SliceReader {
            bytes: _,
            encoding_rules: _,
            place: _,
            failed: _,
        } = self;
    }
}

impl<'a> SliceReader<'a> {
    ghost use Rattle.der_base.specs.Error.{error_at, error_of_kind, missing_refusal};
    ghost use Rattle.der_base.specs.declared.error.ErrorKind.TheVariants.{Failed, Overflow};
    ghost use Rattle.der_base.specs.declared.encoding_rules.EncodingRules.TheVariants.{Der};
    ghost use Rattle.der_base.specs.Length.{number};
    ghost use Rattle.der_core.specs.ReaderState.{initial_state, reader_position, state_after};
    ghost use Rattle.der_core.specs.SliceReader.{slice_state};

    /// A reader at the start of `bytes`, under the Distinguished Encoding Rules.
    ///
    /// # Errors
    ///
    /// - `Overflow` without a position, if there are more than 4294967295 octets.
    pub fn new(bytes: &'a [u8]) -> Result<Self, Error>
        ensures ok { IfOk result (λ r. slice_state r ≡ initial_state Der bytes.now) }
        ensures fits { IsOk result ↔ (length bytes.now < 2 ^ 32) }
        ensures refused { IfErr result (λ e. e ≡ error_of_kind Overflow) }
    {
        Self::new_with_encoding_rules(bytes, EncodingRules::Der)
    }

    /// A reader at the start of `bytes`, under the given encoding rules.
    ///
    /// # Errors
    ///
    /// - `Overflow` without a position, if there are more than 4294967295 octets.
    pub fn new_with_encoding_rules(
        bytes: &'a [u8],
        encoding_rules: EncodingRules,
    ) -> Result<Self, Error>
        ensures ok { IfOk result (λ r. slice_state r ≡ initial_state encoding_rules bytes.now) }
        ensures fits { IsOk result ↔ (length bytes.now < 2 ^ 32) }
        ensures refused { IfErr result (λ e. e ≡ error_of_kind Overflow) }
    {
        let len = Length::new_usize(bytes.len())?;
        Ok(SliceReader {
            bytes,
            encoding_rules,
            place: Position::new(len),
            failed: false,
        })
    }

    // the error of a reader that has failed
    #[inline(always)]
    fn has_failed(&self) -> Error
        ensures { result ≡ error_at Failed (reader_position (slice_state self.now)) }
    {
        self.place.error(ErrorKind::Failed)
    }

    // the error if this many octets are not available
    #[inline(always)]
    fn incomplete(&mut self, count: u32) -> Error
        ensures reported { result ≡ (missing_refusal (self.old.place.position + count)
            self.old.place.end self.old.place.position).error }
        ensures leaves { slice_state self.new ≡ state_after (slice_state self.old)
            (missing_refusal (self.old.place.position + count) self.old.place.end
            self.old.place.position) }
    {
        self.failed = self.failed || self.place.position + count as usize <= u32::MAX as usize;
        self.place.missing(count)
    }
}

impl<'a> Lends for SliceReader<'a> {
    type Borrowed = &'a [u8];
}

/// A reliable reader: its functions fail exactly as the trait [`Reader`] specifies. It remembers
/// that it has failed. It can return slices, so it never fails with the error kind
/// [`ErrorKind::Reader`] (operation not supported).
impl<'a> Reader for SliceReader<'a> {
    ghost use Rattle.std.proofs.Common.{rules};
    ghost use Rattle.der_core.specs.SliceReader.{slice_state};

    ghost state = { slice_state };

    ghost reliable = { true };

    ghost reads_slices = { true };

    const CAN_READ_SLICE: bool = true;

    fn can_return_slices() -> bool
        ensures { result ≡ true }
    {
        Self::CAN_READ_SLICE
    }

    #[inline(always)]
    fn encoding_rules(&self) -> EncodingRules {
        self.encoding_rules
    }

    #[inline(always)]
    fn input_len(&self) -> Length {
        self.place.input_len()
    }

    #[inline(always)]
    fn position(&self) -> Length {
        self.place.current()
    }

    #[inline(always)]
    fn is_failed(&self) -> bool {
        self.failed
    }

    #[inline(always)]
    fn read_slice(&mut self, len: Length) -> Result<&'a [u8], Error> {
        if self.failed {
            return Err(self.has_failed());
        }
        let count = u32::from(len);
        let start = self.place.position;
        // this one sum of two `usize` is compared with the end, ends the slice and is the new
        // position
        let following = start + count as usize;
        if following > self.place.end as usize {
            return Err(self.incomplete(count));
        }
        self.place.position = following;
        Ok(&self.bytes[start..following])
    }

    #[inline(always)]
    fn read_into(&mut self, buf: &mut [u8]) -> Result<(), Error> {
        if buf.len() > u32::MAX as usize {
            return Err(ErrorKind::Overflow.to_error());
        }
        let octets = self.read_slice(Length::new(buf.len() as u32))?;
        buf.copy_from_slice(octets);
        Ok(())
    }

    #[inline(always)]
    fn error(&mut self, kind: ErrorKind) -> Error {
        self.failed = true;
        self.place.error(kind)
    }

    #[inline(always)]
    fn remaining(&self) -> Result<&'a [u8], Error> {
        if self.failed {
            return Err(self.has_failed());
        }
        Ok(&self.bytes[self.place.position..self.place.end as usize])
    }

    #[inline(always)]
    fn fork(&self) -> Self {
        SliceReader {
            bytes: self.bytes,
            encoding_rules: self.encoding_rules,
            place: Position {
                end: self.place.end,
                position: self.place.position,
                depth: self.place.depth,
            },
            failed: self.failed,
        }
    }

    fn read_vec_in<A: Allocator>(&mut self, alloc: A, len: Length) -> Result<Vec<u8, A>, Error> {
        let before = self.place.position;
        let octets = self.read_slice(len)?;
        match octets.to_vec(alloc) {
            Ok(copy) => Ok(copy),
            Err(_) => {
                self.place.position = before;
                Err(ErrorKind::OutOfMemory.to_error())
            }
        }
    }

    fn drain(&mut self, amount: Length) -> Result<(), Error> {
        if amount == Length::ZERO {
            return Ok(());
        }
        if self.failed {
            return Err(self.has_failed());
        }
        let count = u32::from(amount);
        let left = self.place.end - self.place.position as u32;
        if count <= left {
            self.place.position += count as usize;
            return Ok(());
        }
        let whole = left - left % STEP;
        self.place.position += whole as usize;
        Err(self.incomplete((count - whole).min(STEP)))
    }

    fn finish(self) -> Result<(), Error> {
        if self.failed {
            return Err(self.has_failed());
        }
        if self.place.position < self.place.end as usize {
            let kind = ErrorKind::TrailingData {
                decoded: self.place.current(),
                remaining: self.place.remaining_len(),
            };
            return Err(self.place.error(kind));
        }
        Ok(())
    }

    #[inline(always)]
    fn enter_nested(&mut self, len: Length) -> Result<Resumption, Error> {
        match self.place.part_end(u32::from(len)) {
            Err(error) => Err(error),
            Ok(_) if self.place.depth >= MAX_DEPTH => Err(self.error(ErrorKind::NestingDepth)),
            Ok(end) => Ok(self.place.enter(end)),
        }
    }

    #[inline(always)]
    fn leave_nested(&mut self, resumption: Resumption) {
        self.place.resume_nested(resumption);
    }

    ghost sound_state = { λ s. record {
      ordered = s.ordered;
      in_input = s.in_input;
      addressable = s.addressable;
      shallow = s.shallow;
      failure_kept = λ failed. Prim.search rules;
    } };

    ghost reading_slices = { λ h. h };
}
