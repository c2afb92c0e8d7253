//! Sizes of values.
ghost use Rattle.std.specs.Prelude.{◌≡◌, ◌-◌, ◌^◌, length, min, if◌then◌else◌};
ghost use Rattle.std.specs.Str.{is_utf8, chars};
ghost use Rattle.schema_rules.specs.Characters.{size_of};
ghost use Rattle.der_asn1.specs.NamedBits.{bit_count};

use crate::zero_bits::bit_count;
use ber::Universal;

/// The size of a value, as a size constraint counts it (X.680 51.5). `contents` are the contents
/// octets of its primitive encoding. The size is:
///
/// - the number of bits of a BIT STRING;
/// - the number of characters of a character string;
/// - the number of octets of a value of any other type.
///
/// Each octet counts as a character if the type has escape sequences, as TeletexString has. Each
/// octet counts as a character of a UTF8String that is not valid UTF-8, too. A size that does not
/// fit in a `usize` becomes the greatest `usize`.
pub fn size_of(universal: Universal, contents: &[u8]) -> usize
    ensures { result ≡ min (size_of universal contents.now) (2 ^ 64 - 1) }
{
    match universal {
        Universal::BitString => counted_bits(contents),
        Universal::Utf8String => character_count(contents),
        Universal::BmpString => contents.len() / 2,
        Universal::UniversalString => contents.len() / 4,
        _ => contents.len(),
    }
}

// The number of bits of a BIT STRING, or the greatest `usize`.
fn counted_bits(contents: &[u8]) -> usize
    ensures { result ≡ min (bit_count contents.now) (2 ^ 64 - 1) }
{
    let count = bit_count(contents);
    if count < 0xFFFF_FFFF_FFFF_FFFF {
        count as usize
    } else {
        usize::MAX
    }
}

// The number of characters, or of octets if these are no UTF-8.
fn character_count(contents: &[u8]) -> usize
    ensures { result ≡ length (if is_utf8 contents.now then chars contents.now else contents.now) }
{
    match std::str::from_utf8(contents) {
        Ok(text) => text.chars().count(),
        Err(_) => contents.len(),
    }
}
