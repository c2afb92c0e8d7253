//! A faulty type for tests. Its `decode_value` reads nothing.
ghost use Rattle.std.specs.Prelude.{◌≡◌, [], false};
ghost use Rattle.der.specs.Prelude.{OctetString};

use der::{DecodeValue, Error, FixedTag, Header, Lends, ReadValue, Reader, Tag};
use std::alloc::Global;

/// A faulty type for tests: an OCTET STRING whose `decode_value` reads nothing. Therefore, decoding
/// accepts only empty contents.
#[derive(Clone, Copy)]
pub struct Unread;

impl FixedTag for Unread {
    ghost tag_is = { OctetString };

    const TAG: Tag = Tag::OctetString;

    fn fixed_tag() -> Tag {
        Self::TAG
    }
}

impl ReadValue for Unread {
    ghost valid = { λ _. Unit {0} };

    // there has to be nothing to read
    ghost takes = { λ _ _ _ octets. octets ≡ [] };

    ghost value_levels = { λ _. 0 };

    ghost allocates = { false };

    ghost takes_valid = { λ v rules h octets taken. tt };
}

impl<R: Lends> DecodeValue<R> for Unread {
    type Error = Error;

    ghost decode_value_answers = { λ _ _ _ _. Unit {0} };

    fn decode_value(_alloc: Global, _reader: &mut R, _header: Header) -> Result<Self, Error>
    where
        R: Reader,
    {
        Ok(Unread)
    }
}
