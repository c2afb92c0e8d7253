//! An example of a user-defined type with just three values: a version, as an INTEGER of one octet.
ghost use Rattle.std.specs.Prelude.{◌≡◌, false};
ghost use Rattle.der.specs.Prelude.{Integer};
ghost use Rattle.example_calls.specs.VersionOctet.{IsVersion, TakesVersion, VersionRead, VersionWritten, version_contents, version_lawful, octet_of_version, version_size};

use der::{
    DecodeValue, EncodeValue, Error, FixedTag, Header, IsValue, Lawful, Lends, Length, ReadValue,
    Reader, ReaderExt, Tag, Writer, WrittenValue, place_before,
};
use std::alloc::Global;

/// A version of a certificate (RFC 5280, 4.1.2.1).
#[derive(Clone, Copy, Debug, PartialEq, Eq)]
pub enum Version {
    /// Version 1, which is encoded as the number 0.
    V1,
    /// Version 2, which is encoded as the number 1.
    V2,
    /// Version 3, which is encoded as the number 2.
    V3,
}

impl Version {
    /// The number as which the version is encoded: 0, 1 or 2.
    pub fn number(self) -> u8
        ensures { result ≡ octet_of_version self }
    {
        match self {
            Version::V1 => 0,
            Version::V2 => 1,
            Version::V3 => 2,
        }
    }
}

impl FixedTag for Version {
    ghost tag_is = { Integer };

    const TAG: Tag = Tag::Integer;

    fn fixed_tag() -> Tag {
        Self::TAG
    }
}

impl ReadValue for Version {
    ghost valid = { IsVersion };

    ghost takes = { TakesVersion };

    ghost value_levels = { λ _. 0 };

    ghost allocates = { false };

    ghost takes_valid = { λ v rules h octets taken. tt };
}

impl IsValue for Version {
    fn is_value(&self) {}
}

impl WrittenValue for Version {
    ghost contents = { version_contents };

    ghost writable = { IsVersion };
}

impl Lawful for Version {
    ghost lawful = { version_lawful };
}

/// Reads a version from one octet, which must be 0, 1 or 2.
///
/// # Errors
///
/// - The errors `Failed`, `Overflow` and `Incomplete` of [`ReaderExt::read_byte`].
/// - `Value` at the position after the octet, if the octet is more than 2. The reader has failed
///   after this error.
impl<R: Lends> DecodeValue<R> for Version {
    type Error = Error;

    ghost decode_value_answers = { VersionRead };

    fn decode_value(_alloc: Global, reader: &mut R, _header: Header) -> Result<Self, Error>
    where
        R: Reader,
    {
        match reader.read_byte()? {
            0 => Ok(Version::V1),
            1 => Ok(Version::V2),
            2 => Ok(Version::V3),
            _ => Err(reader.error(Tag::Integer.value_error())),
        }
    }
}

impl EncodeValue for Version {
    ghost value_size = { version_size };

    ghost encode_value_answers = { VersionWritten };

    fn value_len(&self) -> Result<Length, Error> {
        Ok(Length::ONE)
    }

    fn encode_value<W: Writer>(&self, writer: &mut W) -> Result<(), Error> {
        writer.write_byte(self.number())
    }

    fn value_len_before(&self) -> Option<u32> {
        Some(1)
    }

    fn encode_value_before(&self, buf: &mut [u8], end: u32) -> u32 {
        place_before(&[self.number()], buf, end)
    }
}
