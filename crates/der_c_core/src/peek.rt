//! Looking at the tag of the next element without moving the reader, for C.
ghost use Rattle.std.specs.Prelude.{◌≡◌, ◌↔◌, IsTrue, IfSome};
ghost use Rattle.der_c_core.specs.CReader.{reader_state};
ghost use Rattle.der_c_core.specs.PeekCalls.{HasNextTag, PeeksTag, PeeksWord};

use crate::error::{DerError, c_error};
use crate::reader::DerReader;
use crate::short::is_identifier;
use crate::tag::word_of;
use der_base::Error;
use der_core::{Reader, ReaderExt};

/// Sets `tag` to the tag word of the next element (see
/// [`DerElement::tag`](crate::DerElement::tag)). Only the identifier of the element is read.
/// `reader` is unchanged, also after an error.
///
/// A call that fails leaves `tag` unchanged. Fails with:
///
/// - `Failed` at the position of `reader`, if `reader` has failed;
/// - `Incomplete` at the end of `reader`, if the identifier is cut or no octets are left. If this
///   end is at position 4294967295, the error is `Overflow` without a position instead;
/// - `TagUnknown` at the position after the first octet, if no tag begins with this octet;
/// - `TagNumberInvalid` at the position after the octet that makes the tag number invalid.
#[inline(always)]
pub fn der_peek(reader: &DerReader<'_>, tag: &mut u64) -> DerError
    ensures peeks { PeeksTag (reader_state reader.now) result tag.old tag.new }
{
    match next_word(reader) {
        Ok(word) => {
            *tag = word;
            DerError::NONE
        }
        Err(error) => c_error(error),
    }
}

/// Whether the next element has the tag word `tag` (see
/// [`DerElement::tag`](crate::DerElement::tag)). Only the identifier of the element is read.
/// `reader` is unchanged.
///
/// The result is false if `reader` has failed or is at its end, if the next octets are not a valid
/// identifier, or if `tag` is not a valid tag word.
#[inline(always)]
pub fn der_next_is(reader: &DerReader<'_>, tag: u64) -> bool
    ensures { IsTrue result ↔ HasNextTag tag (reader_state reader.now) }
{
    match next_word(reader) {
        Ok(word) => word == tag,
        Err(_) => false,
    }
}

// The word of the next tag.
#[inline(always)]
fn next_word(reader: &DerReader<'_>) -> Result<u64, Error>
    ensures { PeeksWord (reader_state reader.now) result }
{
    match next_plain(reader) {
        Some(octet) => Ok(octet as u64),
        None => next_word_generally(reader),
    }
}

// The next octet, if it is a whole identifier and the word of its tag.
#[inline(always)]
fn next_plain(reader: &DerReader<'_>) -> Option<u8>
    ensures { IfSome result (λ octet. HasNextTag octet (reader_state reader.now)) }
{
    let Ok(next) = reader.remaining() else {
        return None;
    };
    if next.is_empty() || !is_identifier(next[0]) {
        return None;
    }
    Some(next[0])
}

// The word of the next tag, with any identifier.
#[inline(never)]
fn next_word_generally(reader: &DerReader<'_>) -> Result<u64, Error>
    ensures { PeeksWord (reader_state reader.now) result }
{
    Ok(word_of(reader.peek_tag()?))
}
