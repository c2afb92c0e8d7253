//! Reading and writing of borrowed texts.
ghost use Rattle.std.specs.Prelude.{◌≡◌, false, true, IsOk};
ghost use Rattle.der_core.specs.DecodeValue.{TakesContents};
ghost use Rattle.der_core.specs.Header.{head_of};
ghost use Rattle.der_core.specs.Outcome.{Gives, map_ok};
ghost use Rattle.der_core.specs.ReaderState.{Same};
ghost use Rattle.der.specs.Octets.{IsText, TakesOctets, EndsTaken, BorrowedTextRead, octets_size, OctetsWritten, not_borrowed_outcome};
ghost use Rattle.der.specs.StringRef.{reference_text};

use crate::string::StringRef;
use der_base::{Error, Length};
use der_core::{
    DecodeValue, EncodeValue, Header, IsValue, Lends, ReadValue, Reader, Writer, WrittenValue,
    octets_len, place_before,
};
use std::alloc::Global;

impl<'a> ReadValue for StringRef<'a> {
    ghost valid = { λ t. IsText (reference_text t) };

    ghost takes = { TakesOctets IsText reference_text };

    ghost value_levels = { λ _. 0 };

    ghost allocates = { false };

    ghost takes_valid = { λ t rules h octets taken. taken.0 };
}

/// Borrows the contents from the input as a text. Takes only the length from the header, and
/// ignores the header's tag.
///
/// # Errors
///
/// - `Failed`, `Overflow` and `Incomplete`, as by [`Reader::read_slice`].
/// - `Reader` at the reader's position, if the reader cannot return slices of its input; the reader
///   is unchanged.
/// - `Utf8` without a position, if the contents are not UTF-8; the reader is after the contents and
///   has not failed.
impl<'a, R: Lends<Borrowed = &'a [u8]>> DecodeValue<R> for StringRef<'a> {
    type Error = Error;

    ghost decode_value_answers = { BorrowedTextRead reference_text };

    fn decode_value(_alloc: Global, reader: &mut R, header: Header) -> Result<Self, Error>
    where
        R: Reader,
        ensures same { Same (R.state reader.old) (R.state reader.new) }
        ensures sound { TakesContents (TakesOctets IsText reference_text) (head_of header)
            (R.state reader.old) result (R.state reader.new) }
        ensures complete { EndsTaken IsText reference_text R.reliable (head_of header)
            (R.state reader.old) result (R.state reader.new) }
        ensures exact { R.reliable ≡ true → BorrowedTextRead reference_text (head_of header)
            (R.state reader.old) result (R.state reader.new) }
        ensures ok { IsOk result → BorrowedTextRead reference_text (head_of header)
            (R.state reader.old) result (R.state reader.new) }
        ensures not_borrowed { R.reads_slices ≡ false
            → Gives not_borrowed_outcome (R.state reader.old)
            (map_ok reference_text result) (R.state reader.new) }
    {
        StringRef::from_bytes(reader.read_slice(header.length())?)
    }
}

impl<'a> IsValue for StringRef<'a> {
    fn is_value(&self) {}
}

impl<'a> WrittenValue for StringRef<'a> {
    ghost contents = { reference_text };

    ghost writable = { λ t. IsText (reference_text t) };
}

/// Writes the octets of the text as the contents.
///
/// # Errors
///
/// `value_len` never fails. `encode_value` returns the errors of [`Writer::write`].
impl<'a> EncodeValue for StringRef<'a> {
    ghost value_size = { octets_size reference_text };

    ghost encode_value_answers = { OctetsWritten reference_text };

    fn value_len(&self) -> Result<Length, Error> {
        Ok(self.len())
    }

    fn encode_value<W: Writer>(&self, writer: &mut W) -> Result<(), Error> {
        writer.write(self.as_bytes())
    }

    fn value_len_before(&self) -> Option<u32> {
        octets_len(self.as_bytes())
    }

    fn encode_value_before(&self, buf: &mut [u8], end: u32) -> u32 {
        place_before(self.as_bytes(), buf, end)
    }
}
