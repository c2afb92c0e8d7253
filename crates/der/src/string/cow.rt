//! Texts that are borrowed or owned. Reading borrows the text from the input.
ghost use Rattle.std.specs.Prelude.{◌≡◌, ◌↔◌, false, true, IfOk, IsOk};
ghost use Rattle.der_core.specs.DecodeValue.{TakesContents};
ghost use Rattle.der_core.specs.Header.{head_of};
ghost use Rattle.der_core.specs.Outcome.{Gives, map_ok};
ghost use Rattle.der_core.specs.ReaderState.{Same};
ghost use Rattle.der.specs.Octets.{IsText, TakesOctets, EndsTaken, BorrowedTextRead, octets_size, OctetsWritten, not_borrowed_outcome};
ghost use Rattle.der.specs.StringCow.{cow_text, IsBorrowedText};

use crate::string::{StringOwned, StringRef};
use der_base::{Error, Length};
use der_core::{
    DecodeValue, EncodeValue, Header, IsValue, Lends, ReadValue, Reader, Writer, WrittenValue,
};
use std::alloc::Global;

/// A text of at most 4294967295 octets, borrowed or owned.
#[derive(Debug, Drop)]
pub enum StringCow<'a> {
    /// A text that is borrowed, for example from a reader's input.
    Borrowed(StringRef<'a>),
    /// A text that this value owns, in memory of its own.
    Owned(StringOwned),
}

impl<'a> StringCow<'a> {
    /// The text, borrowed as a [`StringRef`].
    pub fn as_string_ref(&self) -> StringRef<'_>
        ensures { result.text.now ≡ cow_text self.now }
    {
        match self {
            StringCow::Borrowed(text) => *text,
            StringCow::Owned(text) => text.as_string_ref(),
        }
    }
}

impl<'a> ReadValue for StringCow<'a> {
    ghost valid = { λ t. IsText (cow_text t) };

    ghost takes = { TakesOctets IsText cow_text };

    ghost value_levels = { λ _. 0 };

    // A reliable reader returns slices, so nothing is allocated.
    ghost allocates = { false };

    ghost takes_valid = { λ t rules h octets taken. taken.0 };
}

/// Borrows the contents from the input as a text. A successful result is always
/// [`StringCow::Borrowed`]. Takes only the length from the header, and ignores the header's tag.
/// Fails if the reader cannot return slices of its input.
///
/// # Errors
///
/// - `Failed`, `Overflow` and `Incomplete`, as by [`Reader::read_slice`].
/// - `Reader` at the reader's position, if the reader cannot return slices of its input; the reader
///   is unchanged.
/// - `Utf8` without a position, if the contents are not UTF-8; the reader is after the contents and
///   has not failed.
impl<'a, R: Lends<Borrowed = &'a [u8]>> DecodeValue<R> for StringCow<'a> {
    type Error = Error;

    ghost decode_value_answers = { BorrowedTextRead cow_text };

    fn decode_value(alloc: Global, reader: &mut R, header: Header) -> Result<Self, Error>
    where
        R: Reader,
        ensures same { Same (R.state reader.old) (R.state reader.new) }
        ensures sound { TakesContents (TakesOctets IsText cow_text) (head_of header)
            (R.state reader.old) result (R.state reader.new) }
        ensures complete { EndsTaken IsText cow_text R.reliable (head_of header)
            (R.state reader.old) result (R.state reader.new) }
        ensures exact { R.reliable ≡ true → BorrowedTextRead cow_text (head_of header)
            (R.state reader.old) result (R.state reader.new) }
        ensures ok { IsOk result → BorrowedTextRead cow_text (head_of header) (R.state reader.old)
            result (R.state reader.new) }
        ensures not_borrowed { R.reads_slices ≡ false
            → Gives not_borrowed_outcome (R.state reader.old)
            (map_ok cow_text result) (R.state reader.new) }
        ensures borrowed { IfOk result (λ t. IsBorrowedText t ↔ (R.reads_slices ≡ true)) }
    {
        if R::can_return_slices() {
            Ok(StringCow::Borrowed(StringRef::decode_value(alloc, reader, header)?))
        } else {
            Ok(StringCow::Owned(StringOwned::decode_value(alloc, reader, header)?))
        }
    }
}

impl<'a> IsValue for StringCow<'a> {
    fn is_value(&self) {}
}

impl<'a> WrittenValue for StringCow<'a> {
    ghost contents = { cow_text };

    ghost writable = { λ t. IsText (cow_text t) };
}

/// Writes the octets of the text as the contents.
///
/// # Errors
///
/// `value_len` never fails. `encode_value` returns the errors of [`Writer::write`].
impl<'a> EncodeValue for StringCow<'a> {
    ghost value_size = { octets_size cow_text };

    ghost encode_value_answers = { OctetsWritten cow_text };

    fn value_len(&self) -> Result<Length, Error> {
        self.as_string_ref().value_len()
    }

    fn encode_value<W: Writer>(&self, writer: &mut W) -> Result<(), Error> {
        self.as_string_ref().encode_value(writer)
    }

    fn value_len_before(&self) -> Option<u32> {
        self.as_string_ref().value_len_before()
    }

    fn encode_value_before(&self, buf: &mut [u8], end: u32) -> u32 {
        self.as_string_ref().encode_value_before(buf, end)
    }
}
