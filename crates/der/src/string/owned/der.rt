//! Reading and writing of owned texts.
ghost use Rattle.std.specs.Prelude.{◌≡◌, false, true};
ghost use Rattle.der_core.specs.DecodeValue.{TakesContents};
ghost use Rattle.der_core.specs.Header.{head_of};
ghost use Rattle.der_core.specs.Outcome.{Gives, IsBinding, map_ok};
ghost use Rattle.der_core.specs.ReaderState.{Same};
ghost use Rattle.der.specs.Octets.{IsText, TakesOctets, EndsTakenOrLacks, OwnedTextRead, octets_size, OctetsWritten, not_borrowed_outcome};
ghost use Rattle.der.specs.StringOwned.{owned_text};

use crate::string::StringOwned;
use der_base::{Error, Length};
use der_core::{
    DecodeValue, EncodeValue, Header, IsValue, Lends, Octets, ReadValue, Reader, Writer,
    WrittenValue, octets_len, place_before,
};
use std::alloc::Global;

impl ReadValue for StringOwned {
    ghost valid = { λ t. IsText (owned_text t) };

    ghost takes = { TakesOctets IsText owned_text };

    ghost value_levels = { λ _. 0 };

    ghost allocates = { true };

    ghost takes_valid = { λ t rules h octets taken. taken.0 };
}

/// Reads the contents as a slice of the input, and copies the slice into an owned text. Takes only
/// the length from the header, and ignores the header's tag.
///
/// # Errors
///
/// - `Failed`, `Overflow` and `Incomplete`, as by [`Reader::read_slice`].
/// - `Reader` at the reader's position, if the reader cannot return slices of its input; the reader
///   is unchanged.
/// - `Utf8` without a position, if the contents are not UTF-8; the reader is after the contents and
///   has not failed.
/// - `OutOfMemory` without a position, if allocation fails; the reader is after the contents and
///   has not failed.
impl<R: Lends> DecodeValue<R> for StringOwned {
    type Error = Error;

    ghost decode_value_answers = { OwnedTextRead owned_text };

    fn decode_value(alloc: Global, reader: &mut R, header: Header) -> Result<Self, Error>
    where
        R: Reader,
        ensures same { Same (R.state reader.old) (R.state reader.new) }
        ensures sound { TakesContents (TakesOctets IsText owned_text) (head_of header)
            (R.state reader.old) result (R.state reader.new) }
        ensures complete { EndsTakenOrLacks true IsText owned_text R.reliable (head_of header)
            (R.state reader.old) result (R.state reader.new) }
        ensures exact { IsBinding R.reliable result → OwnedTextRead owned_text (head_of header)
            (R.state reader.old) result (R.state reader.new) }
        ensures not_borrowed { R.reads_slices ≡ false
            → Gives not_borrowed_outcome (R.state reader.old)
            (map_ok owned_text result) (R.state reader.new) }
    {
        let bytes = reader.read_slice(header.length())?;
        StringOwned::from_bytes(alloc, bytes.as_slice())
    }
}

impl IsValue for StringOwned {
    fn is_value(&self) {}
}

impl WrittenValue for StringOwned {
    ghost contents = { owned_text };

    ghost writable = { λ t. IsText (owned_text t) };
}

/// Writes the octets of the text as the contents.
///
/// # Errors
///
/// `value_len` never fails. `encode_value` returns the errors of [`Writer::write`].
impl EncodeValue for StringOwned {
    ghost value_size = { octets_size owned_text };

    ghost encode_value_answers = { OctetsWritten owned_text };

    fn value_len(&self) -> Result<Length, Error> {
        Ok(self.len())
    }

    fn encode_value<W: Writer>(&self, writer: &mut W) -> Result<(), Error> {
        writer.write(self.as_bytes())
    }

    fn value_len_before(&self) -> Option<u32> {
        octets_len(self.as_bytes())
    }

    fn encode_value_before(&self, buf: &mut [u8], end: u32) -> u32 {
        place_before(self.as_bytes(), buf, end)
    }
}
