//! Reading and writing of a month.
ghost use Rattle.std.specs.Prelude.{◌≡◌, false};
ghost use Rattle.der_base.specs.declared.tag.Tag.TheVariants.{OctetString};
ghost use Rattle.std.proofs.Common.{refl};
ghost use Rattle.der.specs.OctetsOrder.{octets_order};
ghost use Rattle.der.specs.MyByteMonth.{IsMonth, TakesMonth, MonthRead, MonthWritten, month_contents, month_size, month_lawful};

use crate::example::MyByteMonth;
use der_base::{Error, ErrorKind, Length, Tag};
use der_core::{
    DecodeValue, EncodeValue, FixedTag, Header, IsValue, Lawful, Lends, Orderly, ReadValue, Reader,
    ReaderExt, ValueOrd, Writer, WrittenValue, place_before,
};
use std::alloc::Global;
use std::cmp::Ordering;

impl FixedTag for MyByteMonth {
    ghost tag_is = { OctetString };

    const TAG: Tag = Tag::OctetString;

    fn fixed_tag() -> Tag {
        Self::TAG
    }
}

impl ReadValue for MyByteMonth {
    ghost valid = { IsMonth };

    ghost takes = { TakesMonth };

    ghost value_levels = { λ _. 0 };

    ghost allocates = { false };

    ghost takes_valid = { λ month rules h octets taken. taken.0 };
}

/// Reads a month from one octet. Ignores the header, also its length.
///
/// # Errors
///
/// - `Failed`, `Overflow` and `Incomplete`, as by [`ReaderExt::read_byte`].
/// - `DateTime` at the position after the octet, if the octet is 12 or more; the reader is after
///   the octet and has failed.
impl<R: Lends> DecodeValue<R> for MyByteMonth {
    type Error = Error;

    ghost decode_value_answers = { MonthRead };

    fn decode_value(_alloc: Global, reader: &mut R, _header: Header) -> Result<Self, Error>
    where
        R: Reader,
    {
        let octet = reader.read_byte()?;
        match MyByteMonth::new(octet) {
            Some(month) => Ok(month),
            None => Err(reader.error(ErrorKind::DateTime)),
        }
    }
}

impl IsValue for MyByteMonth {
    fn is_value(&self) {}
}

impl WrittenValue for MyByteMonth {
    ghost contents = { month_contents };

    ghost writable = { IsMonth };
}

/// Writes the number of the month as one octet.
///
/// # Errors
///
/// `value_len` never fails. `encode_value` returns the errors of [`Writer::write`].
impl EncodeValue for MyByteMonth {
    ghost value_size = { month_size };

    ghost encode_value_answers = { MonthWritten };

    #[inline(always)]
    fn value_len(&self) -> Result<Length, Error> {
        Ok(Length::ONE)
    }

    #[inline(always)]
    fn encode_value<W: Writer>(&self, writer: &mut W) -> Result<(), Error> {
        writer.write_byte(self.number)
    }

    #[inline(always)]
    fn value_len_before(&self) -> Option<u32> {
        Some(1)
    }

    #[inline(always)]
    fn encode_value_before(&self, buf: &mut [u8], end: u32) -> u32 {
        place_before(&[self.number], buf, end)
    }
}

impl Lawful for MyByteMonth {
    ghost lawful = { month_lawful };
}

/// Compares the numbers of the months. Never fails.
impl ValueOrd for MyByteMonth {
    ghost value_order = { octets_order month_contents };

    #[inline(always)]
    fn value_cmp(&self, other: &Self) -> Result<Ordering, Error> {
        Ok(self.number.cmp(&other.number))
    }
}

impl Orderly for MyByteMonth {
    ghost orderly = { λ _ _ _ _. refl };
}
