//! A faulty type for tests. Its `decode_value` ignores that a read failed.
ghost use Rattle.std.specs.Prelude.{false};
ghost use Rattle.der.specs.Prelude.{OctetString};

use der::{
    DecodeValue, Error, ErrorKind, FixedTag, Header, Lends, ReadValue, Reader, ReaderExt, Tag,
};
use std::alloc::Global;

/// A faulty type for tests: an OCTET STRING of one octet. `decode_value` reads this octet, and then
/// tries to read a second octet.
///
/// - If the reader has failed after the second read, `decode_value` returns `Ok` with the value.
///   This happens if the contents have one octet and the reader stays failed after a failed read.
/// - If the reader has not failed after the second read, `decode_value` fails with `Overlength`.
///
/// If `decode_value` returns `Ok`, the reader has failed. This does not count as decoding a value.
/// The ghost member `takes` therefore says that a value cannot be decoded from any contents.
#[derive(Clone, Copy)]
pub struct Hasty {
    /// The contents octet.
    pub octet: u8,
}

impl FixedTag for Hasty {
    ghost tag_is = { OctetString };

    const TAG: Tag = Tag::OctetString;

    fn fixed_tag() -> Tag {
        Self::TAG
    }
}

impl ReadValue for Hasty {
    ghost valid = { λ _. Unit {0} };

    ghost takes = { λ _ _ _ _. ⊥ };

    ghost value_levels = { λ _. 0 };

    ghost allocates = { false };

    ghost takes_valid = { λ v rules h octets taken. tt };
}

impl<R: Lends> DecodeValue<R> for Hasty {
    type Error = Error;

    ghost decode_value_answers = { λ _ _ _ _. Unit {0} };

    fn decode_value(_alloc: Global, reader: &mut R, _header: Header) -> Result<Self, Error>
    where
        R: Reader,
    {
        let octet = reader.read_byte()?;
        let _ = reader.read_byte();
        if !reader.is_failed() {
            return Err(ErrorKind::Overlength.to_error());
        }
        Ok(Hasty { octet })
    }
}
