//! The codes of the characters of a string.
ghost use Rattle.std.specs.Prelude.{◌≡◌, [], ◌∷◌, IfSome, IfNone};
ghost use Rattle.std.specs.Str.{chars};
ghost use Rattle.schema_rules.specs.Characters.{characters_of, codes_left};

use ber::Universal;

/// The characters of a string that are still to be read. They are taken from its contents octets,
/// each as a numeric code.
#[derive(Debug, Clone, Copy)]
pub enum Codes<'a> {
    /// Each octet is the code of a character.
    Octets(&'a [u8]),
    /// Each pair of octets is the code of a character, the higher octet first. A single octet at
    /// the end is ignored.
    Pairs(&'a [u8]),
    /// Each group of four octets is the code of a character, the highest octet first. Up to three
    /// octets at the end are ignored if they are no complete group.
    Fours(&'a [u8]),
    /// The code of each character of this text is its Unicode code point.
    Text(&'a str),
}

impl<'a> Codes<'a> {
    /// The characters of a string of the type `universal`. `contents` are the contents octets of
    /// its primitive encoding. In these cases, each octet counts as a character:
    ///
    /// - The type has escape sequences, as TeletexString has.
    /// - The string is a UTF8String, but not valid UTF-8.
    pub fn of(universal: Universal, contents: &'a [u8]) -> Self
        ensures { codes_left result ≡ characters_of universal contents.now }
    {
        match universal {
            Universal::Utf8String => match std::str::from_utf8(contents) {
                Ok(text) => Codes::Text(text),
                Err(_) => Codes::Octets(contents),
            },
            Universal::BmpString => Codes::Pairs(contents),
            Universal::UniversalString => Codes::Fours(contents),
            _ => Codes::Octets(contents),
        }
    }

    /// Returns the code of the next character, and the characters after it. `None` if no character
    /// is left.
    #[inline(always)]
    pub fn split_first(self) -> Option<(u32, Self)>
        ensures some { IfSome result (λ r. codes_left self.entry ≡ r.0 ∷ codes_left r.1) }
        ensures none { IfNone result (codes_left self.entry ≡ []) }
    {
        match self {
            Codes::Octets([a, rest @ ..]) => Some((*a as u32, Codes::Octets(rest))),
            Codes::Pairs([a, b, rest @ ..]) => {
                Some((*a as u32 * 256 + *b as u32, Codes::Pairs(rest)))
            }
            Codes::Fours([a, b, c, d, rest @ ..]) => {
                let code = ((*a as u32 * 256 + *b as u32) * 256 + *c as u32) * 256 + *d as u32;
                Some((code, Codes::Fours(rest)))
            }
            Codes::Text(text) => split_text(text),
            _ => None,
        }
    }
}

// The first character of a text, and those after it.
#[inline(always)]
fn split_text(text: &str) -> Option<(u32, Codes<'_>)>
    ensures some { IfSome result (λ r. chars text.now ≡ r.0 ∷ codes_left r.1) }
    ensures none { IfNone result (chars text.now ≡ []) }
{
    let mut characters = text.chars();
    match characters.next() {
        Some(character) => Some((character as u32, Codes::Text(characters.as_str()))),
        None => None,
    }
}
