//! Taking the characters of a text one by one, for C.
ghost use Rattle.std.specs.Prelude.{◌≡◌, ◌≤◌, ◌<◌, ℕ, List, ◌++◌, length, drop, take, true, false, IfSome, IfNone, encode_utf8};
ghost use Rattle.std.specs.Str.{IsUtf8};
ghost use Rattle.std.specs.Char.{IsScalar, len_utf8};
ghost use Rattle.der_c_values.specs.Characters.{TakesCharacter, IsCharacter, character_octets};

use crate::text::DerText;

/// Removes the first character of `text`, and sets `character` to its Unicode code point. If `text`
/// is empty, returns false and changes nothing.
///
/// The string type of `text` says how the octets encode characters:
///
/// - A UTF8String is read as UTF-8.
/// - A BMPString has two octets for each character.
/// - Any other string has one octet for each character. A TeletexString is read as ISO 8859-1.
///
/// If the octets do not begin with a character of the string type, returns false and changes
/// nothing. This cannot happen with a text that `der_read_text` has set.
pub fn der_next_character(text: &mut DerText<'_>, character: &mut u32) -> bool
    ensures { TakesCharacter text.old result character.old character.new text.new }
{
    let Some((first, count)) = first_character(text.string_type, text.octets) else {
        return false;
    };
    text.octets = &text.octets[count..];
    *character = first;
    true
}

// The first character, and how many octets it has; `None` if there is none.
fn first_character(string_type: u64, octets: &[u8]) -> Option<(u32, usize)>
    ensures fits { IfSome result (λ p. p.1 ≤ length octets.now) }
    ensures some { IfSome result (λ p. IsCharacter string_type p.0
        × (octets.now ≡ character_octets string_type p.0 ++ drop p.1 octets.now)) }
    ensures none { IfNone result ((c : ℕ) (more : List ℕ) → IsCharacter string_type c
        → octets.now ≡ character_octets string_type c ++ more → ⊥) }
{
    match string_type {
        0x0C => first_utf8(octets),
        0x1E => first_code(octets),
        0x12 | 0x13 | 0x14 | 0x16 | 0x1A => match octets {
            [first, ..] => Some((*first as u32, 1)),
            [] => None,
        },
        _ => None,
    }
}

// The first code of two octets that is a character, and its two octets.
fn first_code(octets: &[u8]) -> Option<(u32, usize)>
    ensures fits { IfSome result (λ p. p.1 ≤ length octets.now) }
    ensures some { IfSome result (λ p. IsCharacter 30 p.0
        × (octets.now ≡ character_octets 30 p.0 ++ drop p.1 octets.now)) }
    ensures none { IfNone result ((c : ℕ) (more : List ℕ) → IsCharacter 30 c
        → octets.now ≡ character_octets 30 c ++ more → ⊥) }
{
    match octets {
        [first, second, ..] if *first < 0xD8 || *first >= 0xE0 => {
            Some((*first as u32 * 256 + *second as u32, 2))
        }
        _ => None,
    }
}

// The first character in UTF-8, and how many octets it has.
fn first_utf8(octets: &[u8]) -> Option<(u32, usize)>
    ensures fits { IfSome result (λ p. p.1 ≤ length octets.now) }
    ensures some { IfSome result (λ p. IsScalar p.0
        × (octets.now ≡ encode_utf8 p.0 ++ drop p.1 octets.now)) }
    ensures none { IfNone result ((c : ℕ) (more : List ℕ) → IsScalar c
        → octets.now ≡ encode_utf8 c ++ more → ⊥) }
{
    for count in 1..5 {
        if count <= octets.len() {
            if let Some(first) = first_of_text(&octets[..count]) {
                return Some((first as u32, first.len_utf8()));
            }
        }
    }
    None
}

// The first character, if all octets are a text in UTF-8.
fn first_of_text(octets: &[u8]) -> Option<char>
    ensures some { IfSome result (λ c. octets.now ≡ encode_utf8 c ++ drop (len_utf8 c) octets.now) }
    ensures none { IfNone result (IsUtf8 octets.now → length octets.now ≡ 0) }
{
    match std::str::from_utf8(octets) {
        Ok(text) => text.chars().next(),
        Err(_) => None,
    }
}
