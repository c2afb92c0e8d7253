//! An example of a user-defined reader, such as for a connection. It copies the octets that it
//! reads, and returns no slices of its input. For tests, one of its reads can be made to fail.
ghost use Rattle.std.specs.Prelude.{◌≡◌, false};
ghost use Rattle.der.specs.Prelude.{error_at, reader_position, slice_state};
ghost use Rattle.der.specs.ErrorKinds.{Reader as CannotRead};

use der::{EncodingRules, Error, ErrorKind, Lends, Length, Reader, Resumption, SliceReader};
use std::alloc::Allocator;

/// A reader that wraps a [`SliceReader`], and returns no slices of its input.
/// [`CopyingReader::failing`] makes a reader in which one read fails. After this read, the reader
/// can still read.
#[derive(Drop)]
pub struct CopyingReader<'a> {
    inner: SliceReader<'a>,
    // the number of reads up to and including the one that fails; 0 if none does
    reads: u32,
}

impl<'a> CopyingReader<'a> {
    /// Creates a reader that continues at the position of `inner`. A read that copies octets fails
    /// only if `inner` fails.
    pub fn new(inner: SliceReader<'a>) -> Self
        ensures inner { result.inner ≡ inner.entry }
    {
        CopyingReader { inner, reads: 0 }
    }

    /// Creates a reader that continues at the position of `inner`, and in which one read fails.
    /// `reads` is the number of this read, counted from 1. The read fails even if `inner` could
    /// read the octets. If `reads` is 0, there is no such read, as in a reader that
    /// [`CopyingReader::new`] makes.
    pub fn failing(inner: SliceReader<'a>, reads: u32) -> Self
        ensures inner { result.inner ≡ inner.entry }
    {
        CopyingReader { inner, reads }
    }

    // Counts a read, and fails if it is the one that does.
    fn begin_read(&mut self) -> Result<(), Error>
        ensures inner { self.new.inner ≡ self.old.inner }
    {
        if self.reads == 0 {
            return Ok(());
        }
        self.reads -= 1;
        if self.reads == 0 {
            return Err(self.unsupported());
        }
        Ok(())
    }

    // The error for what this reader does not support, and for the read that fails.
    fn unsupported(&self) -> Error
        ensures { result ≡ error_at CannotRead (reader_position (slice_state self.now.inner)) }
    {
        ErrorKind::Reader.at(self.inner.position())
    }
}

impl<'a> Lends for CopyingReader<'a> {
    type Borrowed = &'a [u8];
}

impl<'a> Reader for CopyingReader<'a> {
    ghost use Rattle.std.proofs.Common.{rules};

    // its state is that of the inner reader
    ghost state = { λ r. slice_state r.inner };

    // it promises nothing beyond its clauses, so it may fail where no spec says so
    ghost reliable = { false };

    ghost reads_slices = { false };

    const CAN_READ_SLICE: bool = false;

    fn can_return_slices() -> bool
        ensures { result ≡ false }
    {
        Self::CAN_READ_SLICE
    }

    fn encoding_rules(&self) -> EncodingRules {
        self.inner.encoding_rules()
    }

    fn input_len(&self) -> Length {
        self.inner.input_len()
    }

    fn position(&self) -> Length {
        self.inner.position()
    }

    fn is_failed(&self) -> bool {
        self.inner.is_failed()
    }

    fn read_slice(&mut self, _len: Length) -> Result<&'a [u8], Error> {
        Err(self.unsupported())
    }

    fn read_into(&mut self, buf: &mut [u8]) -> Result<(), Error> {
        self.begin_read()?;
        self.inner.read_into(buf)
    }

    fn error(&mut self, kind: ErrorKind) -> Error {
        self.inner.error(kind)
    }

    fn remaining(&self) -> Result<&'a [u8], Error> {
        Err(self.unsupported())
    }

    fn fork(&self) -> Self {
        CopyingReader {
            inner: self.inner.fork(),
            reads: self.reads,
        }
    }

    fn read_vec_in<A: Allocator>(&mut self, alloc: A, len: Length) -> Result<Vec<u8, A>, Error> {
        self.begin_read()?;
        self.inner.read_vec_in(alloc, len)
    }

    // it reads in steps of 16 octets into a buffer; 0 octets are no read
    fn drain(&mut self, amount: Length) -> Result<(), Error> {
        if amount == Length::ZERO {
            return Ok(());
        }
        let mut buffer = [0u8; 16];
        let mut left = u32::from(amount);
        loop {
            let step = left.min(16);
            self.begin_read()?;
            self.inner.read_into(&mut buffer[..step as usize])?;
            left -= step;
            if left == 0 {
                return Ok(());
            }
        }
    }

    fn finish(self) -> Result<(), Error> {
        self.inner.finish()
    }

    fn enter_nested(&mut self, len: Length) -> Result<Resumption, Error> {
        self.inner.enter_nested(len)
    }

    fn leave_nested(&mut self, resumption: Resumption) {
        self.inner.leave_nested(resumption);
    }

    // the laws: those of the inner reader, and that a reader which returns no slices is not
    // reliable
    ghost sound_state = { λ r. record {
      ordered = r.inner.ordered;
      in_input = r.inner.in_input;
      addressable = r.inner.addressable;
      shallow = r.inner.shallow;
      failure_kept = λ failed. Prim.search rules;
    } };

    ghost reading_slices = { λ reliable. Prim.search rules };
}
