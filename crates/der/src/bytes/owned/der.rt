//! Reading and writing of owned byte strings.
ghost use Rattle.std.specs.Prelude.{true};
ghost use Rattle.der_base.specs.Length.{number};
ghost use Rattle.der_core.specs.Header.{head_of};
ghost use Rattle.der_core.specs.Outcome.{IsBinding, map_ok};
ghost use Rattle.der_core.specs.Reader.{VecMeets};
ghost use Rattle.der_core.specs.ReaderState.{Same};
ghost use Rattle.der.specs.OctetsOrder.{octets_order};
ghost use Rattle.der.specs.Octets.{IsCounted, TakesOctets, OwnedOctetsRead, octets_size, OctetsWritten};
ghost use Rattle.der.specs.BytesOwned.{owned_octets};

use crate::bytes::BytesOwned;
use der_base::{Error, Length};
use der_core::{
    DecodeValue, DerOrd, EncodeValue, Header, IsValue, Lends, ReadValue, Reader, Writer,
    WrittenValue, octets_len, place_before,
};
use std::alloc::Global;
use std::cmp::Ordering;

impl ReadValue for BytesOwned {
    ghost valid = { λ b. IsCounted (owned_octets b) };

    ghost takes = { TakesOctets IsCounted owned_octets };

    ghost value_levels = { λ _. 0 };

    ghost allocates = { true };

    ghost takes_valid = { λ b rules h octets taken. taken.0 };
}

/// Copies the contents into an owned byte string. Takes only the length from the header, and
/// ignores the header's tag.
///
/// # Errors
///
/// `Failed`, `Overflow`, `Incomplete` and `OutOfMemory`, as by [`Reader::read_vec`]. After
/// `OutOfMemory`, the reader is unchanged: it is before the contents.
impl<R: Lends> DecodeValue<R> for BytesOwned {
    type Error = Error;

    ghost decode_value_answers = { OwnedOctetsRead owned_octets };

    fn decode_value(alloc: Global, reader: &mut R, header: Header) -> Result<Self, Error>
    where
        R: Reader,
        ensures same { Same (R.state reader.old) (R.state reader.new) }
        ensures exact { IsBinding R.reliable result → OwnedOctetsRead owned_octets (head_of header)
            (R.state reader.old) result (R.state reader.new) }
    {
        read_owned(alloc, reader, header.length())
    }
}

impl IsValue for BytesOwned {
    fn is_value(&self) {}
}

// A copy of the next `len` octets.
#[inline(always)]
pub(super) fn read_owned<R: Reader>(
    alloc: Global,
    reader: &mut R,
    len: Length,
) -> Result<BytesOwned, Error>
    ensures same { Same (R.state reader.old) (R.state reader.new) }
    ensures exact { VecMeets R.reliable (number len) (R.state reader.old)
        (map_ok owned_octets result) (R.state reader.new) }
{
    BytesOwned::from_vec(reader.read_vec(alloc, len)?)
}

impl WrittenValue for BytesOwned {
    ghost contents = { owned_octets };

    ghost writable = { λ b. IsCounted (owned_octets b) };
}

/// Writes the octets of the byte string as the contents.
///
/// # Errors
///
/// `value_len` never fails. `encode_value` returns the errors of [`Writer::write`].
impl EncodeValue for BytesOwned {
    ghost value_size = { octets_size owned_octets };

    ghost encode_value_answers = { OctetsWritten owned_octets };

    fn value_len(&self) -> Result<Length, Error> {
        Ok(self.len())
    }

    fn encode_value<W: Writer>(&self, writer: &mut W) -> Result<(), Error> {
        writer.write(self.as_slice())
    }

    fn value_len_before(&self) -> Option<u32> {
        octets_len(self.as_slice())
    }

    fn encode_value_before(&self, buf: &mut [u8], end: u32) -> u32 {
        place_before(self.as_slice(), buf, end)
    }
}

/// Compares the octets of two byte strings in lexicographic order. A byte string has no header, so
/// no header is compared. Never fails.
impl DerOrd for BytesOwned {
    ghost order = { octets_order owned_octets };

    ghost octets = { owned_octets };

    ghost by_octets = { λ _ _. Unit {0} };

    ghost has_header = { λ _. Unit {0} };

    ghost delimits = { ⊥ };

    ghost delimited = { λ none. absurd none };

    #[inline(always)]
    fn der_cmp(&self, other: &Self) -> Result<Ordering, Error> {
        Ok(self.as_slice().cmp(other.as_slice()))
    }
}
