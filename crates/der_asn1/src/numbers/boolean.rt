//! BOOLEAN.
ghost use Rattle.std.specs.Prelude.{◌≡◌, ◌∷◌, [], ◌↔◌, IsTrue};
ghost use Rattle.std.proofs.Common.{arith};
ghost use Rattle.der.specs.Prelude.{Boolean as BooleanTag};
ghost use Rattle.der_asn1.specs.Forms.{boolean_form, is_false};

use crate::contents::checked::Checked;
use crate::contents::grammar::ContentsGrammar;
use crate::defaults::contents::DefaultContents;
use der::Tag;

/// Describes the contents of a BOOLEAN: one octet, which is `0x00` for false and `0xFF` for true
/// (X.690 8.2, 11.1). Other octets are not valid, not even under BER.
pub struct BooleanGrammar;

/// A BOOLEAN borrowed from the input.
pub type BooleanRef<'a> = Checked<'a, BooleanGrammar>;

impl ContentsGrammar for BooleanGrammar {
    ghost tag_is = { BooleanTag };

    const TAG: Tag = Tag::Boolean;

    #[inline(always)]
    fn fixed_tag() -> Tag {
        Self::TAG
    }

    ghost grammar = { boolean_form };

    #[inline(always)]
    fn matches_grammar(octets: &[u8]) -> bool {
        match octets {
            [octet] => *octet == 0 || *octet == 0xFF,
            _ => false,
        }
    }

    ghost numbered = { Prim.omega arith };
}

impl<'a> Checked<'a, BooleanGrammar> {
    /// Whether the BOOLEAN is true, which means that its contents octet is `0xFF`.
    pub fn is_true(&self) -> bool
        ensures { IsTrue result ↔ (self.now.octets.now ≡ 255 ∷ []) }
    {
        match self.octets() {
            [octet] => *octet == 0xFF,
            _ => false,
        }
    }
}

/// The default value of a BOOLEAN is false, as in `BOOLEAN DEFAULT FALSE`.
impl DefaultContents for BooleanGrammar {
    ghost default_contents = { is_false };

    #[inline(always)]
    fn default_octets() -> &'static [u8] {
        &[0]
    }

    #[inline(always)]
    fn is_default(octets: &[u8]) -> bool {
        match octets {
            [octet, ..] => *octet == 0,
            [] => false,
        }
    }
}
