//! Permitted alphabets.
ghost use Rattle.std.specs.Prelude.{◌≡◌};
ghost use Rattle.schema_rules.specs.Characters.{characters_of, is_in_ranges, are_in_ranges};

use crate::codes::Codes;
use ber::Universal;

/// Whether the code of each character of a string is in one of `ranges`, as a permitted alphabet
/// demands (X.680 51.7). Both ends of a range belong to it. `contents` are the contents octets of
/// the primitive encoding of the string. [`Codes`] describes which octets are the code of a
/// character.
pub fn are_characters_in(universal: Universal, contents: &[u8], ranges: &[(u32, u32)]) -> bool
    ensures { result ≡ are_in_ranges ranges.now (characters_of universal contents.now) }
{
    let mut codes = Codes::of(universal, contents);
    while let Some((code, others)) = codes.split_first() {
        if !is_in(code, ranges) {
            return false;
        }
        codes = others;
    }
    true
}

// Whether the code is in one of the ranges.
fn is_in(code: u32, ranges: &[(u32, u32)]) -> bool
    ensures { result ≡ is_in_ranges ranges.now code }
{
    for range in ranges {
        if range.0 <= code && code <= range.1 {
            return true;
        }
    }
    false
}
