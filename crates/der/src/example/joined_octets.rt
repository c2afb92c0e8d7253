//! An OCTET STRING whose encoding may be constructed: its contents are then segments (X.690 8.7.3).
ghost use Rattle.std.specs.Prelude.{true};
ghost use Rattle.der_base.specs.declared.tag.Tag.TheVariants.{OctetString};
ghost use Rattle.std.proofs.Common.{refl};
ghost use Rattle.der.specs.OctetsOrder.{octets_order};
ghost use Rattle.der.specs.Octets.{IsCounted, octets_size, OctetsWritten};
ghost use Rattle.der.specs.JoinedOctets.{joined_octets, joined_levels, TakesJoined, JoinedRead, joined_lawful};

use crate::bytes::BytesOwned;
use der_base::{Error, Length, Tag};
use der_core::{
    DecodeValue, DerOrd, EncodeValue, FixedTag, Header, IsValue, Lawful, Lends, Orderly, ReadValue,
    Reader, ValueOrd, Writer, WrittenValue,
};
use std::alloc::Global;
use std::cmp::Ordering;

/// An OCTET STRING that owns its octets. Decoding also accepts a constructed encoding under the
/// Basic Encoding Rules, and joins its segments (X.690 8.7.3). The octets are always written as a
/// primitive encoding.
#[derive(Debug, Drop)]
pub struct JoinedOctets {
    /// The contents octets, with all segments joined.
    pub octets: BytesOwned,
}

impl FixedTag for JoinedOctets {
    ghost tag_is = { OctetString };

    const TAG: Tag = Tag::OctetString;

    fn fixed_tag() -> Tag {
        Self::TAG
    }
}

impl ReadValue for JoinedOctets {
    ghost valid = { λ v. IsCounted (joined_octets v) };

    ghost takes = { TakesJoined };

    ghost value_levels = { joined_levels };

    ghost allocates = { true };

    ghost takes_valid = { λ v rules h octets taken. taken.0 };
}

/// Reads the contents into an owned byte string. If the header is primitive, copies the contents.
/// If the header is constructed and the reader's rules are the Basic Encoding Rules, joins the
/// segments, including segments inside segments. Under the Distinguished Encoding Rules, a
/// constructed header is an error.
///
/// # Errors
///
/// The errors of [`BytesOwned::decode_value_parts`], with the inner tag OCTET STRING.
impl<R: Lends> DecodeValue<R> for JoinedOctets {
    type Error = Error;

    ghost decode_value_answers = { JoinedRead };

    fn decode_value(alloc: Global, reader: &mut R, header: Header) -> Result<Self, Error>
    where
        R: Reader,
    {
        let octets = BytesOwned::decode_value_parts(alloc, reader, header, Tag::OctetString)?;
        Ok(JoinedOctets { octets })
    }
}

impl IsValue for JoinedOctets {
    fn is_value(&self) {}
}

impl WrittenValue for JoinedOctets {
    ghost contents = { joined_octets };

    ghost writable = { λ v. IsCounted (joined_octets v) };
}

/// Writes the joined octets as the contents of a primitive encoding.
///
/// # Errors
///
/// `value_len` never fails. `encode_value` returns the errors of [`Writer::write`].
impl EncodeValue for JoinedOctets {
    ghost value_size = { octets_size joined_octets };

    ghost encode_value_answers = { OctetsWritten joined_octets };

    fn value_len(&self) -> Result<Length, Error> {
        self.octets.value_len()
    }

    fn encode_value<W: Writer>(&self, writer: &mut W) -> Result<(), Error> {
        self.octets.encode_value(writer)
    }

    fn value_len_before(&self) -> Option<u32> {
        self.octets.value_len_before()
    }

    fn encode_value_before(&self, buf: &mut [u8], end: u32) -> u32 {
        self.octets.encode_value_before(buf, end)
    }
}

impl Lawful for JoinedOctets {
    ghost lawful = { joined_lawful };
}

/// Compares the joined octets of two values in lexicographic order. Never fails.
impl ValueOrd for JoinedOctets {
    ghost value_order = { octets_order joined_octets };

    #[inline(always)]
    fn value_cmp(&self, other: &Self) -> Result<Ordering, Error> {
        self.octets.der_cmp(&other.octets)
    }
}

impl Orderly for JoinedOctets {
    ghost orderly = { λ _ _ _ _. refl };
}
