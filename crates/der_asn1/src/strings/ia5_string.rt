//! IA5String.
ghost use Rattle.std.proofs.Common.{arith};
ghost use Rattle.der.specs.Prelude.{Ia5String as Ia5Tag};
ghost use Rattle.der_asn1.specs.Forms.{ia5_form};

use crate::contents::checked::Checked;
use crate::contents::grammar::ContentsGrammar;
use der::Tag;

/// Describes the contents of an IA5String: octets below `0x80` (X.690 8.23, X.680 41).
pub struct Ia5StringGrammar;

/// An IA5String borrowed from the input.
pub type Ia5StringRef<'a> = Checked<'a, Ia5StringGrammar>;

impl ContentsGrammar for Ia5StringGrammar {
    ghost tag_is = { Ia5Tag };

    const TAG: Tag = Tag::Ia5String;

    fn fixed_tag() -> Tag {
        Self::TAG
    }

    ghost grammar = { ia5_form };

    fn matches_grammar(octets: &[u8]) -> bool {
        for octet in octets {
            if *octet >= 0x80 {
                return false;
            }
        }
        true
    }

    ghost numbered = { Prim.omega arith };
}
