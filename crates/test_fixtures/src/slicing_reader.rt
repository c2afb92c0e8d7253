//! A reader that returns all octets that are left as a slice. Its `read_slice` and `read_into`
//! fail.
ghost use Rattle.std.specs.Prelude.{◌≡◌, false, true, IfOk};
ghost use Rattle.der.specs.Prelude.{Ber, slice_state};

use der::{EncodingRules, Error, ErrorKind, Lends, Length, Reader, Resumption, SliceReader};
use std::alloc::Allocator;

/// A reader whose `remaining` returns a slice of the input, but whose `read_slice` and `read_into`
/// always fail.
#[derive(Drop)]
pub struct SlicingReader<'a> {
    inner: SliceReader<'a>,
}

/// Creates a [`SlicingReader`] at the start of `octets`, under the Basic Encoding Rules. Fails if
/// there are more than 4294967295 octets.
pub fn ber_slicing(octets: &[u8]) -> Result<SlicingReader<'_>, Error>
    ensures { IfOk result (λ r. (slice_state r.inner).rules ≡ Ber) }
{
    match SliceReader::new_with_encoding_rules(octets, EncodingRules::Ber) {
        Ok(inner) => Ok(SlicingReader { inner }),
        Err(error) => Err(error),
    }
}

impl<'a> Lends for SlicingReader<'a> {
    type Borrowed = &'a [u8];
}

impl<'a> Reader for SlicingReader<'a> {
    ghost use Rattle.std.proofs.Common.{rules};

    ghost state = { λ r. slice_state r.inner };

    // it fails where no spec says so
    ghost reliable = { false };

    ghost reads_slices = { true };

    const CAN_READ_SLICE: bool = true;

    fn can_return_slices() -> bool
        ensures { result ≡ true }
    {
        Self::CAN_READ_SLICE
    }

    fn encoding_rules(&self) -> EncodingRules {
        self.inner.encoding_rules()
    }

    fn input_len(&self) -> Length {
        self.inner.input_len()
    }

    fn position(&self) -> Length {
        self.inner.position()
    }

    fn is_failed(&self) -> bool {
        self.inner.is_failed()
    }

    fn read_slice(&mut self, _len: Length) -> Result<&'a [u8], Error> {
        Err(ErrorKind::Reader.at(self.inner.position()))
    }

    fn read_into(&mut self, _buf: &mut [u8]) -> Result<(), Error> {
        Err(ErrorKind::Reader.at(self.inner.position()))
    }

    fn error(&mut self, kind: ErrorKind) -> Error {
        self.inner.error(kind)
    }

    fn remaining(&self) -> Result<&'a [u8], Error> {
        self.inner.remaining()
    }

    fn fork(&self) -> Self {
        SlicingReader {
            inner: self.inner.fork(),
        }
    }

    fn read_vec_in<A: Allocator>(&mut self, alloc: A, len: Length) -> Result<Vec<u8, A>, Error> {
        self.inner.read_vec_in(alloc, len)
    }

    fn drain(&mut self, amount: Length) -> Result<(), Error> {
        self.inner.drain(amount)
    }

    fn finish(self) -> Result<(), Error> {
        self.inner.finish()
    }

    fn enter_nested(&mut self, len: Length) -> Result<Resumption, Error> {
        self.inner.enter_nested(len)
    }

    fn leave_nested(&mut self, resumption: Resumption) {
        self.inner.leave_nested(resumption);
    }

    ghost sound_state = { λ r. record {
      ordered = r.inner.ordered;
      in_input = r.inner.in_input;
      addressable = r.inner.addressable;
      shallow = r.inner.shallow;
      failure_kept = λ failed. Prim.search rules;
    } };

    ghost reading_slices = { λ reliable. Prim.search rules };
}
