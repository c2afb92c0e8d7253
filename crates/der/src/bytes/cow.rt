//! Byte strings that are borrowed or owned. Reading borrows the octets if the reader can return
//! slices of its input, and copies them if it cannot.
ghost use Rattle.std.specs.Prelude.{◌≡◌, ◌↔◌, false, true, IfOk, IsOk};
ghost use Rattle.der_core.specs.DecodeValue.{TakesContents};
ghost use Rattle.der_core.specs.Header.{head_of};
ghost use Rattle.der_core.specs.ReaderState.{Same};
ghost use Rattle.der.specs.Octets.{IsCounted, TakesOctets, EndsTaken, BorrowedOctetsRead, octets_size, OctetsWritten};
ghost use Rattle.der.specs.BytesCow.{cow_octets, IsBorrowedOctets};

use crate::bytes::{BytesOwned, BytesRef};
use der_base::{Error, Length};
use der_core::{
    DecodeValue, EncodeValue, Header, IsValue, Lends, ReadValue, Reader, Writer, WrittenValue,
};
use std::alloc::Global;

/// A byte string of at most 4294967295 octets, borrowed or owned.
#[derive(Debug, Drop)]
pub enum BytesCow<'a> {
    /// Octets that are borrowed, for example from a reader's input.
    Borrowed(BytesRef<'a>),
    /// Octets that this value owns, in memory of its own.
    Owned(BytesOwned),
}

impl<'a> BytesCow<'a> {
    /// The octets, borrowed as a [`BytesRef`].
    pub fn as_bytes_ref(&self) -> BytesRef<'_>
        ensures { result.bytes.now ≡ cow_octets self.now }
    {
        match self {
            BytesCow::Borrowed(bytes) => *bytes,
            BytesCow::Owned(bytes) => bytes.as_bytes_ref(),
        }
    }
}

impl<'a> ReadValue for BytesCow<'a> {
    ghost valid = { λ b. IsCounted (cow_octets b) };

    ghost takes = { TakesOctets IsCounted cow_octets };

    ghost value_levels = { λ _. 0 };

    // A reliable reader returns slices, so nothing is allocated.
    ghost allocates = { false };

    ghost takes_valid = { λ b rules h octets taken. taken.0 };
}

/// Reads the contents as a byte string. If the reader can return slices of its input, the contents
/// are borrowed. If the reader cannot return slices, the contents are copied. Takes only the length
/// from the header, and ignores the header's tag.
///
/// # Errors
///
/// - If the reader can return slices: `Failed`, `Overflow` and `Incomplete`, as by
///   [`Reader::read_slice`].
/// - If the reader cannot return slices: the errors of [`Reader::read_vec`].
impl<'a, R: Lends<Borrowed = &'a [u8]>> DecodeValue<R> for BytesCow<'a> {
    type Error = Error;

    ghost decode_value_answers = { BorrowedOctetsRead cow_octets };

    fn decode_value(alloc: Global, reader: &mut R, header: Header) -> Result<Self, Error>
    where
        R: Reader,
        ensures same { Same (R.state reader.old) (R.state reader.new) }
        ensures sound { TakesContents (TakesOctets IsCounted cow_octets) (head_of header)
            (R.state reader.old) result (R.state reader.new) }
        ensures complete { EndsTaken IsCounted cow_octets R.reliable (head_of header)
            (R.state reader.old) result (R.state reader.new) }
        ensures exact { R.reliable ≡ true → BorrowedOctetsRead cow_octets (head_of header)
            (R.state reader.old) result (R.state reader.new) }
        ensures ok { IsOk result
            → BorrowedOctetsRead cow_octets (head_of header) (R.state reader.old)
            result (R.state reader.new) }
        ensures borrowed { IfOk result (λ b. IsBorrowedOctets b ↔ (R.reads_slices ≡ true)) }
    {
        if R::can_return_slices() {
            Ok(BytesCow::Borrowed(BytesRef::decode_value(alloc, reader, header)?))
        } else {
            Ok(BytesCow::Owned(BytesOwned::decode_value(alloc, reader, header)?))
        }
    }
}

impl<'a> IsValue for BytesCow<'a> {
    fn is_value(&self) {}
}

impl<'a> WrittenValue for BytesCow<'a> {
    ghost contents = { cow_octets };

    ghost writable = { λ b. IsCounted (cow_octets b) };
}

/// Writes the octets of the byte string as the contents.
///
/// # Errors
///
/// `value_len` never fails. `encode_value` returns the errors of [`Writer::write`].
impl<'a> EncodeValue for BytesCow<'a> {
    ghost value_size = { octets_size cow_octets };

    ghost encode_value_answers = { OctetsWritten cow_octets };

    fn value_len(&self) -> Result<Length, Error> {
        self.as_bytes_ref().value_len()
    }

    fn encode_value<W: Writer>(&self, writer: &mut W) -> Result<(), Error> {
        self.as_bytes_ref().encode_value(writer)
    }

    fn value_len_before(&self) -> Option<u32> {
        self.as_bytes_ref().value_len_before()
    }

    fn encode_value_before(&self, buf: &mut [u8], end: u32) -> u32 {
        self.as_bytes_ref().encode_value_before(buf, end)
    }
}
