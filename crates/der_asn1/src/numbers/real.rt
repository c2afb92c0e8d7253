//! REAL.
ghost use Rattle.std.proofs.Common.{arith};
ghost use Rattle.der.specs.Prelude.{Real as RealTag};
ghost use Rattle.der_asn1.specs.Forms.{octets_form};

use crate::contents::checked::Checked;
use crate::contents::grammar::ContentsGrammar;
use der::Tag;

/// Describes the contents of a REAL: any octets, which are not checked.
pub struct RealGrammar;

/// A REAL borrowed from the input, as its contents octets (X.690 8.5).
pub type RealRef<'a> = Checked<'a, RealGrammar>;

impl ContentsGrammar for RealGrammar {
    ghost tag_is = { RealTag };

    const TAG: Tag = Tag::Real;

    fn fixed_tag() -> Tag {
        Self::TAG
    }

    ghost grammar = { octets_form };

    fn matches_grammar(_octets: &[u8]) -> bool {
        true
    }

    ghost numbered = { Prim.omega arith };
}
