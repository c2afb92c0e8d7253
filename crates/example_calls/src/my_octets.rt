//! An example of a user-defined type that borrows from the input: an OCTET STRING.
ghost use Rattle.std.specs.Prelude.{◌≡◌, false, length};
ghost use Rattle.std.proofs.Common.{refl};
ghost use Rattle.der.specs.Prelude.{OctetString};
ghost use Rattle.example_calls.specs.MyOctets.{IsMyOctets, AcceptsMyOctets, MyOctetsRead, MyOctetsWritten, my_octets_contents, my_octets_size, my_octets_lawful, my_octets_order};

use der::{
    DecodeValue, EncodeValue, Error, FixedTag, Header, IsValue, Lawful, Lends, Length, Orderly,
    ReadValue, Reader, Tag, ValueOrd, Writer, WrittenValue, octets_len, place_before,
};
use std::alloc::Global;
use std::cmp::Ordering;

/// An OCTET STRING whose contents are borrowed from the input.
#[derive(Clone, Copy)]
pub struct MyOctets<'a> {
    /// The contents octets.
    pub octets: &'a [u8],
}

impl<'a> FixedTag for MyOctets<'a> {
    ghost tag_is = { OctetString };

    const TAG: Tag = Tag::OctetString;

    fn fixed_tag() -> Tag
        ensures { result ≡ OctetString }
    {
        Self::TAG
    }
}

impl<'a> ReadValue for MyOctets<'a> {
    ghost valid = { IsMyOctets };

    ghost takes = { AcceptsMyOctets };

    ghost value_levels = { λ _. 0 };

    ghost allocates = { false };

    ghost takes_valid = { λ v rules h octets taken. tt };
}

impl<'a> IsValue for MyOctets<'a> {
    fn is_value(&self) {}
}

impl<'a> WrittenValue for MyOctets<'a> {
    ghost contents = { my_octets_contents };

    ghost writable = { IsMyOctets };
}

impl<'a> Lawful for MyOctets<'a> {
    ghost lawful = { my_octets_lawful };
}

impl<'a, R: Lends<Borrowed = &'a [u8]>> DecodeValue<R> for MyOctets<'a> {
    type Error = Error;

    ghost decode_value_answers = { MyOctetsRead };

    fn decode_value(_alloc: Global, reader: &mut R, header: Header) -> Result<Self, Error>
    where
        R: Reader,
    {
        let octets = reader.read_slice(header.length())?;
        Ok(MyOctets { octets })
    }
}

impl<'a> EncodeValue for MyOctets<'a> {
    ghost value_size = { my_octets_size };

    ghost encode_value_answers = { MyOctetsWritten };

    #[inline(always)]
    fn value_len(&self) -> Result<Length, Error> {
        Length::new_usize(self.octets.len())
    }

    #[inline(always)]
    fn encode_value<W: Writer>(&self, writer: &mut W) -> Result<(), Error> {
        writer.write(self.octets)
    }

    #[inline(always)]
    fn value_len_before(&self) -> Option<u32> {
        octets_len(self.octets)
    }

    #[inline(always)]
    fn encode_value_before(&self, buf: &mut [u8], end: u32) -> u32 {
        place_before(self.octets, buf, end)
    }
}

impl<'a> ValueOrd for MyOctets<'a> {
    ghost value_order = { my_octets_order };

    #[inline(always)]
    fn value_cmp(&self, other: &Self) -> Result<Ordering, Error> {
        Ok(self.octets.cmp(other.octets))
    }
}

impl<'a> Orderly for MyOctets<'a> {
    ghost orderly = { λ v w same_tag as_long. refl };
}
