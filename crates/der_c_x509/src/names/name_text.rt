//! Writing distinguished names as text, for C.
ghost use Rattle.std.specs.Prelude.{◌≡◌, ◌≢◌, ◌⊎◌, ◌^◌, ◌<◌, IfSome, length, slice_index};
ghost use Rattle.der_asn1.specs.SequenceOf.{IsListOf};

use crate::names::length::TextLength;
use crate::names::levels::{turn_levels, write_levels};
use crate::names::room::Room;
use der_asn1::{Item, SequenceOf};
use der_c_core::{DerError, c_error};
use std::alloc::Global;
use x509::{Name, RelativeDistinguishedName};

/// The error `Overlength`, without a position.
const OVERLENGTH: DerError = DerError {
    kind: 13,
    ..DerError::NONE
};

/// Writes a distinguished name in the form of RFC 4514, such as `CN=example.org,O=Example,C=DE`.
/// The last RelativeDistinguishedName comes first. `name` are the contents octets of a Name, such
/// as the `subject` of a certificate that `der_certificate_read` has read.
///
/// The text and a final zero octet are written to the start of `text`. `count` is set to the number
/// of octets of the text, without the zero octet.
///
/// An attribute type without a short name in RFC 4514 or RFC 4519 is written as its OBJECT
/// IDENTIFIER. The value of an attribute of this type is written as `#` and the octets of its
/// encoding in hexadecimal, and so is any value that is not a string. The characters for which
/// `der_is_hidden` returns true, such as control characters, are written as a backslash and two
/// hexadecimal digits for each octet in UTF-8. So the text contains no zero octet.
///
/// A call that fails leaves `count` unchanged. Fails with:
///
/// - the error of the first RelativeDistinguishedName that cannot be decoded. Its position is
///   counted from the start of `name`, and `text` is unchanged;
/// - `Overlength` without a position, if `text` is too short.
pub fn der_name_text<'a>(
    alloc: Global,
    name: &'a [u8],
    text: &mut [u8],
    count: &mut usize,
) -> DerError
    ensures named { result.kind ≡ 0 →
        IsListOf ⟦<RelativeDistinguishedName<'a> as Item>⟧.item.valid
        ⟦<RelativeDistinguishedName<'a> as Item>⟧.item.octets name.now }
    ensures complete { length name.now < 2 ^ 32 →
        IsListOf ⟦<RelativeDistinguishedName<'a> as Item>⟧.item.valid
        ⟦<RelativeDistinguishedName<'a> as Item>⟧.item.octets name.now →
        (result.kind ≡ 0) ⊎ (result.kind ≡ 13) }
    ensures fits { result.kind ≡ 0 → count.new < length text.new }
    ensures ended { result.kind ≡ 0 → slice_index text.new count.new ≡ 0 }
    ensures same { result.kind ≢ 0 → count.new ≡ count.old }
    ensures unread { (IsListOf ⟦<RelativeDistinguishedName<'a> as Item>⟧.item.valid
        ⟦<RelativeDistinguishedName<'a> as Item>⟧.item.octets name.now → ⊥) →
        text.new ≡ text.old }
{
    let name = match SequenceOf::new(alloc, name) {
        Ok(levels) => Name { levels },
        Err(error) => return c_error(error),
    };
    if !has_room(alloc, &name, text.len()) {
        return OVERLENGTH;
    }
    match put_name(alloc, &name, text) {
        Some(length) => {
            text[length] = 0;
            *count = length;
            DerError::NONE
        }
        None => OVERLENGTH,
    }
}

// Whether so many octets are enough for the text of a name and a zero octet.
fn has_room(alloc: Global, name: &Name<'_>, room: usize) -> bool {
    let mut length = TextLength { count: 0 };
    write_levels(alloc, name, &mut length).is_ok() && length.count < room
}

// Writes the text of a name to the start of `text`, and returns how many octets it has: fewer than
// `text`. Returns `None` if they are not fewer.
fn put_name(alloc: Global, name: &Name<'_>, text: &mut [u8]) -> Option<usize>
    ensures fits { IfSome result (λ n. n < length text.new) }
    ensures size { length text.new ≡ length text.old }
{
    let mut room = Room::new(text);
    write_levels(alloc, name, &mut room).ok()?;
    let length = room.len();
    if length >= text.len() {
        return None;
    }
    turn_levels(&mut text[..length]);
    Some(length)
}
