//! Reading and writing of borrowed byte strings.
ghost use Rattle.std.specs.Prelude.{◌≡◌, false, true, IsOk};
ghost use Rattle.der_core.specs.DecodeValue.{TakesContents};
ghost use Rattle.der_core.specs.Header.{head_of};
ghost use Rattle.der_core.specs.Outcome.{Gives, map_ok};
ghost use Rattle.der_core.specs.ReaderState.{Same};
ghost use Rattle.der.specs.OctetsOrder.{octets_order};
ghost use Rattle.der.specs.Octets.{IsCounted, TakesOctets, EndsTaken, BorrowedOctetsRead, octets_size, OctetsWritten, not_borrowed_outcome};
ghost use Rattle.der.specs.BytesRef.{reference_octets};

use crate::bytes::BytesRef;
use der_base::{Error, Length};
use der_core::{
    DecodeValue, DerOrd, EncodeValue, Header, IsValue, Lends, ReadValue, Reader, Writer,
    WrittenValue, octets_len, place_before,
};
use std::alloc::Global;
use std::cmp::Ordering;

impl<'a> ReadValue for BytesRef<'a> {
    ghost valid = { λ b. IsCounted (reference_octets b) };

    ghost takes = { TakesOctets IsCounted reference_octets };

    ghost value_levels = { λ _. 0 };

    ghost allocates = { false };

    ghost takes_valid = { λ b rules h octets taken. taken.0 };
}

/// Borrows the contents from the input. Takes only the length from the header, and ignores the
/// header's tag.
///
/// # Errors
///
/// - `Failed`, `Overflow` and `Incomplete`, as by [`Reader::read_slice`].
/// - `Reader` at the reader's position, if the reader cannot return slices of its input; the reader
///   is unchanged.
impl<'a, R: Lends<Borrowed = &'a [u8]>> DecodeValue<R> for BytesRef<'a> {
    type Error = Error;

    ghost decode_value_answers = { BorrowedOctetsRead reference_octets };

    fn decode_value(_alloc: Global, reader: &mut R, header: Header) -> Result<Self, Error>
    where
        R: Reader,
        ensures same { Same (R.state reader.old) (R.state reader.new) }
        ensures sound { TakesContents (TakesOctets IsCounted reference_octets) (head_of header)
            (R.state reader.old) result (R.state reader.new) }
        ensures complete { EndsTaken IsCounted reference_octets R.reliable (head_of header)
            (R.state reader.old) result (R.state reader.new) }
        ensures exact { R.reliable ≡ true → BorrowedOctetsRead reference_octets (head_of header)
            (R.state reader.old) result (R.state reader.new) }
        ensures ok { IsOk result → BorrowedOctetsRead reference_octets (head_of header)
            (R.state reader.old) result (R.state reader.new) }
        ensures not_borrowed { R.reads_slices ≡ false
            → Gives not_borrowed_outcome (R.state reader.old)
            (map_ok reference_octets result) (R.state reader.new) }
    {
        BytesRef::new(reader.read_slice(header.length())?)
    }
}

impl<'a> IsValue for BytesRef<'a> {
    fn is_value(&self) {}
}

impl<'a> WrittenValue for BytesRef<'a> {
    ghost contents = { reference_octets };

    ghost writable = { λ b. IsCounted (reference_octets b) };
}

/// Writes the octets of the byte string as the contents.
///
/// # Errors
///
/// `value_len` never fails. `encode_value` returns the errors of [`Writer::write`].
impl<'a> EncodeValue for BytesRef<'a> {
    ghost value_size = { octets_size reference_octets };

    ghost encode_value_answers = { OctetsWritten reference_octets };

    fn value_len(&self) -> Result<Length, Error> {
        Ok(self.len())
    }

    fn encode_value<W: Writer>(&self, writer: &mut W) -> Result<(), Error> {
        writer.write(self.as_slice())
    }

    fn value_len_before(&self) -> Option<u32> {
        octets_len(self.as_slice())
    }

    fn encode_value_before(&self, buf: &mut [u8], end: u32) -> u32 {
        place_before(self.as_slice(), buf, end)
    }
}

/// Compares the octets of two byte strings in lexicographic order. A byte string has no header, so
/// no header is compared. Never fails.
impl<'a> DerOrd for BytesRef<'a> {
    ghost order = { octets_order reference_octets };

    ghost octets = { reference_octets };

    ghost by_octets = { λ _ _. Unit {0} };

    ghost has_header = { λ _. Unit {0} };

    ghost delimits = { ⊥ };

    ghost delimited = { λ none. absurd none };

    #[inline(always)]
    fn der_cmp(&self, other: &Self) -> Result<Ordering, Error> {
        Ok(self.as_slice().cmp(other.as_slice()))
    }
}
