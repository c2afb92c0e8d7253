//! A type whose `decode_value` calls `read_nested` a given number of times, one call inside the
//! other.
ghost use Rattle.std.specs.Prelude.{false};
ghost use Rattle.der.specs.Prelude.{OctetString, Same};

use der::{DecodeValue, Error, FixedTag, Header, Lends, ReadValue, Reader, ReaderExt, Tag};
use std::alloc::Global;

/// An OCTET STRING of any contents. Its `decode_value` calls `read_nested` `LEVELS` times, one call
/// inside the other, so that the nesting depth of the reader increases by `LEVELS`. Each call gets
/// all contents octets. The innermost call skips them.
#[derive(Clone, Copy)]
pub struct Nest<const LEVELS: u8>;

impl<const LEVELS: u8> FixedTag for Nest<LEVELS> {
    ghost tag_is = { OctetString };

    const TAG: Tag = Tag::OctetString;

    fn fixed_tag() -> Tag {
        Tag::OctetString
    }
}

impl<const LEVELS: u8> ReadValue for Nest<LEVELS> {
    ghost valid = { λ _. Unit {0} };

    ghost takes = { λ _ _ _ _. Unit {0} };

    // contents with 64 levels are too deep at every depth, so no read is promised to succeed
    ghost value_levels = { λ _. 64 };

    ghost allocates = { false };

    ghost takes_valid = { λ v rules h octets taken. tt };
}

impl<const LEVELS: u8, R: Lends> DecodeValue<R> for Nest<LEVELS> {
    type Error = Error;

    ghost decode_value_answers = { λ _ _ _ _. Unit {0} };

    fn decode_value(_alloc: Global, reader: &mut R, _header: Header) -> Result<Self, Error>
    where
        R: Reader,
    {
        match pass_inside(reader, LEVELS) {
            Ok(()) => Ok(Nest),
            Err(error) => Err(error),
        }
    }
}

// Consumes what is left inside this number of nested parts.
#[cycle(nest)]
fn pass_inside<R: Reader>(reader: &mut R, levels: u8) -> Result<(), Error>
    ensures same { Same (R.state reader.old) (R.state reader.new) }
{
    let left = reader.remaining_len();
    if levels == 0 {
        return reader.drain(left);
    }
    let inner = levels - 1;
    reader.read_nested(
        left,
        |reader: &mut R| -> Result<(), Error>
            ensures same { Same (R.state reader.old) (R.state reader.new) }
        { pass_inside(reader, inner) },
    )
}
