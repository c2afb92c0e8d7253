//! UTF8String.
ghost use Rattle.std.specs.Prelude.{◌≡◌};
ghost use Rattle.std.proofs.Common.{arith};
ghost use Rattle.std.specs.Str.{is_utf8};
ghost use Rattle.der.specs.Prelude.{Utf8String as Utf8Tag};

use crate::contents::checked::Checked;
use crate::contents::grammar::ContentsGrammar;
use der::Tag;

/// Describes the contents of a UTF8String: characters of ISO/IEC 10646 in UTF-8, each in the fewest
/// octets (X.690 8.23.10).
pub struct Utf8StringGrammar;

/// A UTF8String borrowed from the input.
pub type Utf8StringRef<'a> = Checked<'a, Utf8StringGrammar>;

impl ContentsGrammar for Utf8StringGrammar {
    ghost tag_is = { Utf8Tag };

    const TAG: Tag = Tag::Utf8String;

    fn fixed_tag() -> Tag {
        Self::TAG
    }

    ghost grammar = { is_utf8 };

    fn matches_grammar(octets: &[u8]) -> bool {
        match std::str::from_utf8(octets) {
            Ok(_) => true,
            Err(_) => false,
        }
    }

    ghost numbered = { Prim.omega arith };
}

impl<'a> Checked<'a, Utf8StringGrammar> {
    /// The UTF8String whose characters are the characters of `text`.
    pub fn from_text(text: &'a str) -> Self
        ensures { result.octets.now ≡ text.now }
    {
        Checked::formed(text.as_bytes())
    }
}
