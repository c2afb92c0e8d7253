//! An OCTET STRING borrowed from the input.
ghost use Rattle.std.specs.Prelude.{◌≡◌, false};
ghost use Rattle.der_base.specs.declared.tag.Tag.TheVariants.{OctetString};
ghost use Rattle.std.proofs.Common.{refl};
ghost use Rattle.der.specs.OctetsOrder.{octets_order};
ghost use Rattle.der.specs.Octets.{IsCounted, TakesOctets, BorrowedOctetsRead, octets_size, OctetsWritten};
ghost use Rattle.der.specs.BorrowedOctets.{borrowed_octets, borrowed_lawful};

use crate::bytes::BytesRef;
use der_base::{Error, Length, Tag};
use der_core::{
    DecodeValue, DerOrd, EncodeValue, FixedTag, Header, IsValue, Lawful, Lends, Orderly, ReadValue,
    Reader, ValueOrd, Writer, WrittenValue,
};
use std::alloc::Global;
use std::cmp::Ordering;

/// An OCTET STRING whose contents octets are borrowed, for example from a reader's input.
#[derive(Clone, Copy, Debug)]
pub struct BorrowedOctets<'a> {
    /// The contents octets of the OCTET STRING.
    pub octets: BytesRef<'a>,
}

impl<'a> FixedTag for BorrowedOctets<'a> {
    ghost tag_is = { OctetString };

    const TAG: Tag = Tag::OctetString;

    fn fixed_tag() -> Tag
        ensures { result ≡ OctetString }
    {
        Self::TAG
    }
}

impl<'a> ReadValue for BorrowedOctets<'a> {
    ghost valid = { λ b. IsCounted (borrowed_octets b) };

    ghost takes = { TakesOctets IsCounted borrowed_octets };

    ghost value_levels = { λ _. 0 };

    ghost allocates = { false };

    ghost takes_valid = { λ b rules h octets taken. taken.0 };
}

/// Borrows the contents from the input. Takes only the length from the header, and ignores the
/// header's tag.
///
/// # Errors
///
/// The errors of decoding a [`BytesRef`].
impl<'a, R: Lends<Borrowed = &'a [u8]>> DecodeValue<R> for BorrowedOctets<'a> {
    type Error = Error;

    ghost decode_value_answers = { BorrowedOctetsRead borrowed_octets };

    fn decode_value(alloc: Global, reader: &mut R, header: Header) -> Result<Self, Error>
    where
        R: Reader,
    {
        let octets = BytesRef::decode_value(alloc, reader, header)?;
        Ok(BorrowedOctets { octets })
    }
}

impl<'a> IsValue for BorrowedOctets<'a> {
    fn is_value(&self) {}
}

impl<'a> WrittenValue for BorrowedOctets<'a> {
    ghost contents = { borrowed_octets };

    ghost writable = { λ b. IsCounted (borrowed_octets b) };
}

/// Writes the octets unchanged as the contents.
///
/// # Errors
///
/// `value_len` never fails. `encode_value` returns the errors of [`Writer::write`].
impl<'a> EncodeValue for BorrowedOctets<'a> {
    ghost value_size = { octets_size borrowed_octets };

    ghost encode_value_answers = { OctetsWritten borrowed_octets };

    #[inline(always)]
    fn value_len(&self) -> Result<Length, Error> {
        self.octets.value_len()
    }

    #[inline(always)]
    fn encode_value<W: Writer>(&self, writer: &mut W) -> Result<(), Error> {
        self.octets.encode_value(writer)
    }

    #[inline(always)]
    fn value_len_before(&self) -> Option<u32> {
        self.octets.value_len_before()
    }

    #[inline(always)]
    fn encode_value_before(&self, buf: &mut [u8], end: u32) -> u32 {
        self.octets.encode_value_before(buf, end)
    }
}

impl<'a> Lawful for BorrowedOctets<'a> {
    ghost lawful = { borrowed_lawful };
}

/// Compares the contents octets of two values in lexicographic order. Never fails.
impl<'a> ValueOrd for BorrowedOctets<'a> {
    ghost value_order = { octets_order borrowed_octets };

    #[inline(always)]
    fn value_cmp(&self, other: &Self) -> Result<Ordering, Error> {
        self.octets.der_cmp(&other.octets)
    }
}

impl<'a> Orderly for BorrowedOctets<'a> {
    ghost orderly = { λ _ _ _ _. refl };
}
