//! The struct for readers in the C interface.
ghost use Rattle.std.specs.Prelude.{◌≡◌, ◌+◌, ◌^◌, ◌<◌, ◌≤◌, ◌↔◌, true, length, IsTrue};
ghost use Rattle.der_base.specs.Error.{missing_refusal};

pub mod calls;

use crate::error::{DerError, c_error};
use der_base::{EncodingRules, Error, ErrorKind, Length};
use der_core::{Lends, Reader, Resumption};
use std::alloc::Allocator;

// how many octets `drain` consumes in one step
const STEP: u32 = 16;

// how many nested parts may be inside each other
pub(crate) const MAX_DEPTH: u8 = 64;

/// A reader of octets. A C program makes it with [`der_reader_init`], and changes it only with
/// functions of this crate.
#[repr(C)]
#[derive(Drop)]
pub struct DerReader<'a> {
    pub(crate) octets: &'a [u8],
    // a `usize`, because it is the bound of slices
    pub(crate) position: usize,
    pub(crate) end: u32,
    pub(crate) depth: u8,
    pub(crate) ber: bool,
    pub(crate) failed: bool,
    ghost ordered: { position ≤ end },
    ghost in_input: { end ≤ length octets.now },
    ghost addressable: { length octets.now < 2 ^ 32 },
    ghost shallow: { depth ≤ 64 },
}

impl<'a> DerReader<'a> {
    ghost use Rattle.der_base.specs.Error.{error_at, missing_refusal};
    ghost use Rattle.der_base.specs.Length.{number, definite_length};
    ghost use Rattle.der_base.specs.declared.error.ErrorKind.TheVariants.{Failed};
    ghost use Rattle.der_core.specs.ReaderState.{reader_position, state_after, stopped_state, nested_state, resumed_state};
    ghost use Rattle.der_core.specs.Reader.{short_outcome};
    ghost use Rattle.der_c_core.specs.ErrorCode.{error_code};
    ghost use Rattle.der_c_core.specs.CReader.{reader_state};

    // the position of the reader
    #[inline(always)]
    fn place(&self) -> Length
        ensures { result ≡ definite_length self.now.position }
    {
        Length::new(self.position as u32)
    }

    // the error of a reader that has failed
    #[inline(always)]
    pub(crate) fn has_failed(&self) -> Error
        ensures { result ≡ error_at Failed (reader_position (reader_state self.now)) }
    {
        ErrorKind::Failed.at(self.place())
    }

    // The refusals are inlined functions, so that a caller sets up the memory for a result only where
    // it refuses.

    // the C form of the error of a reader that has failed
    #[inline(always)]
    pub(crate) fn refuse(&self) -> DerError
        ensures { result ≡ error_code (error_at Failed (reader_position (reader_state self.now))) }
    {
        c_error(self.has_failed())
    }

    // makes this reader fail with an error, at its position
    #[inline(always)]
    pub(crate) fn fail(&mut self, error: Error) -> DerError
        ensures reported { result ≡ error_code error }
        ensures stopped { reader_state self.new ≡ stopped_state (reader_state self.old)
            (reader_state self.old).position }
    {
        self.failed = true;
        c_error(error)
    }

    // fails because `count` octets are not all there
    #[inline(always)]
    fn incomplete(&mut self, count: u32) -> Error
        ensures reported { result ≡ (missing_refusal (self.old.position + count)
            self.old.end self.old.position).error }
        ensures leaves { reader_state self.new ≡ state_after (reader_state self.old)
            (missing_refusal (self.old.position + count) self.old.end self.old.position) }
    {
        self.failed = self.failed || self.position + count as usize <= u32::MAX as usize;
        missing_octets(self.position, count, self.end)
    }
}

// The error if `count` octets at `position` pass `end`, the end of the input.
#[cold]
#[inline(never)]
fn missing_octets(position: usize, count: u32, end: u32) -> Error
    requires { position < 2 ^ 32 }
    ensures { result ≡ (missing_refusal (position + count) end position).error }
{
    let following = position + count as usize;
    if following > u32::MAX as usize {
        return ErrorKind::Overflow.to_error();
    }
    let kind = ErrorKind::Incomplete {
        expected_len: Length::new(following as u32),
        actual_len: Length::new(end),
    };
    kind.at(Length::new(position as u32))
}

impl<'a> Lends for DerReader<'a> {
    type Borrowed = &'a [u8];
}

/// Implements [`Reader`] for the readers of C. The methods fail exactly in the cases that
/// [`Reader`] specifies, with the specified errors. A reader that has failed stays failed.
/// [`Reader::read_slice`] returns slices of the input, as a `SliceReader` does.
impl<'a> Reader for DerReader<'a> {
    ghost use Rattle.std.proofs.Common.{rules};
    ghost use Rattle.der_c_core.specs.CReader.{reader_state};

    ghost state = { reader_state };

    ghost reliable = { true };

    ghost reads_slices = { true };

    const CAN_READ_SLICE: bool = true;

    fn can_return_slices() -> bool
        ensures { result ≡ true }
    {
        Self::CAN_READ_SLICE
    }

    #[inline(always)]
    fn encoding_rules(&self) -> EncodingRules {
        if self.ber {
            EncodingRules::Ber
        } else {
            EncodingRules::Der
        }
    }

    #[inline(always)]
    fn input_len(&self) -> Length {
        Length::new(self.end)
    }

    #[inline(always)]
    fn position(&self) -> Length {
        self.place()
    }

    #[inline(always)]
    fn is_failed(&self) -> bool {
        self.failed
    }

    #[inline(always)]
    fn read_slice(&mut self, len: Length) -> Result<&'a [u8], Error> {
        if self.failed {
            return Err(self.has_failed());
        }
        let count = u32::from(len);
        let start = self.position;
        let following = start + count as usize;
        if following > self.end as usize {
            return Err(self.incomplete(count));
        }
        self.position = following;
        Ok(&self.octets[start..following])
    }

    #[inline(always)]
    fn read_into(&mut self, buf: &mut [u8]) -> Result<(), Error> {
        if buf.len() > u32::MAX as usize {
            return Err(ErrorKind::Overflow.to_error());
        }
        let octets = self.read_slice(Length::new(buf.len() as u32))?;
        buf.copy_from_slice(octets);
        Ok(())
    }

    #[inline(always)]
    fn error(&mut self, kind: ErrorKind) -> Error {
        self.failed = true;
        kind.at(self.place())
    }

    #[inline(always)]
    fn remaining(&self) -> Result<&'a [u8], Error> {
        if self.failed {
            return Err(self.has_failed());
        }
        Ok(&self.octets[self.position..self.end as usize])
    }

    #[inline(always)]
    fn fork(&self) -> Self {
        DerReader {
            octets: self.octets,
            position: self.position,
            end: self.end,
            depth: self.depth,
            ber: self.ber,
            failed: self.failed,
        }
    }

    fn read_vec_in<A: Allocator>(&mut self, alloc: A, len: Length) -> Result<Vec<u8, A>, Error> {
        let before = self.position;
        let octets = self.read_slice(len)?;
        match octets.to_vec(alloc) {
            Ok(copy) => Ok(copy),
            Err(_) => {
                self.position = before;
                Err(ErrorKind::OutOfMemory.to_error())
            }
        }
    }

    fn drain(&mut self, amount: Length) -> Result<(), Error> {
        if amount == Length::ZERO {
            return Ok(());
        }
        if self.failed {
            return Err(self.has_failed());
        }
        let count = u32::from(amount);
        let left = self.end - self.position as u32;
        if count <= left {
            self.position += count as usize;
            return Ok(());
        }
        let whole = left - left % STEP;
        self.position += whole as usize;
        Err(self.incomplete((count - whole).min(STEP)))
    }

    fn finish(self) -> Result<(), Error> {
        if self.failed {
            return Err(self.has_failed());
        }
        if self.position < self.end as usize {
            let kind = ErrorKind::TrailingData {
                decoded: self.place(),
                remaining: Length::new(self.end - self.position as u32),
            };
            return Err(kind.at(self.place()));
        }
        Ok(())
    }

    #[inline(always)]
    fn enter_nested(&mut self, len: Length) -> Result<Resumption, Error> {
        let end = self.position + u32::from(len) as usize;
        if end > u32::MAX as usize {
            return Err(ErrorKind::Overflow.to_error());
        }
        if end > self.end as usize {
            return Err(Error::incomplete(Length::new(self.end)));
        }
        if self.depth >= MAX_DEPTH {
            return Err(self.error(ErrorKind::NestingDepth));
        }
        let around = Resumption::new(Length::new(self.end), self.depth);
        self.end = end as u32;
        self.depth += 1;
        Ok(around)
    }

    #[inline(always)]
    fn leave_nested(&mut self, resumption: Resumption) {
        self.end = u32::from(resumption.input_len());
        self.depth = resumption.depth();
    }

    ghost sound_state = { λ s. record {
      ordered = s.ordered;
      in_input = s.in_input;
      addressable = s.addressable;
      shallow = s.shallow;
      failure_kept = λ failed. Prim.search rules;
    } };

    ghost reading_slices = { λ h. h };
}
