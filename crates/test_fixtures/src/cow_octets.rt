//! A type for an OCTET STRING that implements `Lawful`. Its octets are borrowed if the reader
//! returns slices of its input, and otherwise copied.
ghost use Rattle.std.specs.Prelude.{◌≡◌, false};
ghost use Rattle.std.proofs.Common.{arith};
ghost use Rattle.der.specs.Prelude.{OctetString};
ghost use Rattle.der.specs.BytesCow.{cow_octets};
ghost use Rattle.der.specs.Octets.{IsCounted, TakesOctets, BorrowedOctetsRead, octets_lawful, octets_size, OctetsWritten};

use der::{
    BytesCow, DecodeValue, EncodeValue, Error, FixedTag, Header, IsValue, Lawful, Lends, Length,
    ReadValue, Reader, Tag, Writer, WrittenValue,
};
use std::alloc::Global;

/// An OCTET STRING. Its contents are borrowed from the input if the reader returns slices of the
/// input, and otherwise copied.
#[derive(Drop)]
pub struct CowOctets<'a> {
    /// The contents octets.
    pub octets: BytesCow<'a>,
}

impl<'a> FixedTag for CowOctets<'a> {
    ghost tag_is = { OctetString };

    const TAG: Tag = Tag::OctetString;

    fn fixed_tag() -> Tag
        ensures { result ≡ OctetString }
    {
        Self::TAG
    }
}

impl<'a> ReadValue for CowOctets<'a> {
    ghost valid = { λ v. IsCounted (cow_octets v.octets) };

    ghost takes = { TakesOctets IsCounted (λ v. cow_octets v.octets) };

    ghost value_levels = { λ _. 0 };

    ghost allocates = { false };

    ghost takes_valid = { λ v rules h octets taken. taken.0 };
}

impl<'a, R: Lends<Borrowed = &'a [u8]>> DecodeValue<R> for CowOctets<'a> {
    type Error = Error;

    ghost decode_value_answers = { BorrowedOctetsRead (λ v. cow_octets v.octets) };

    fn decode_value(alloc: Global, reader: &mut R, header: Header) -> Result<Self, Error>
    where
        R: Reader,
    {
        let octets = BytesCow::decode_value(alloc, reader, header)?;
        Ok(CowOctets { octets })
    }
}

impl<'a> IsValue for CowOctets<'a> {
    fn is_value(&self) {
        self.octets.is_value();
    }
}

impl<'a> WrittenValue for CowOctets<'a> {
    ghost contents = { λ v. cow_octets v.octets };

    ghost writable = { λ v. IsCounted (cow_octets v.octets) };
}

impl<'a> EncodeValue for CowOctets<'a> {
    ghost value_size = { octets_size (λ v. cow_octets v.octets) };

    ghost encode_value_answers = { OctetsWritten (λ v. cow_octets v.octets) };

    fn value_len(&self) -> Result<Length, Error> {
        self.octets.value_len()
    }

    fn encode_value<W: Writer>(&self, writer: &mut W) -> Result<(), Error> {
        self.octets.encode_value(writer)
    }
}

impl<'a> Lawful for CowOctets<'a> {
    ghost lawful = { octets_lawful OctetString IsCounted (λ v. cow_octets v.octets) (omega arith) };
}
