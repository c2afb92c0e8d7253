//! VisibleString.
ghost use Rattle.std.proofs.Common.{arith};
ghost use Rattle.der.specs.Prelude.{VisibleString as VisibleTag};
ghost use Rattle.der_asn1.specs.Alphabets.{visible_form};

use crate::contents::checked::Checked;
use crate::contents::grammar::ContentsGrammar;
use der::Tag;

/// Describes the contents of a VisibleString: printing characters of ISO/IEC 646, and space (X.680
/// 41).
pub struct VisibleStringGrammar;

/// A VisibleString borrowed from the input.
pub type VisibleStringRef<'a> = Checked<'a, VisibleStringGrammar>;

impl ContentsGrammar for VisibleStringGrammar {
    ghost tag_is = { VisibleTag };

    const TAG: Tag = Tag::VisibleString;

    fn fixed_tag() -> Tag {
        Self::TAG
    }

    ghost grammar = { visible_form };

    fn matches_grammar(octets: &[u8]) -> bool {
        for octet in octets {
            if *octet < 0x20 || 0x7F <= *octet {
                return false;
            }
        }
        true
    }

    ghost numbered = { Prim.omega arith };
}
