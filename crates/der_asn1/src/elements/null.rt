//! NULL.
ghost use Rattle.std.proofs.Common.{arith};
ghost use Rattle.der.specs.Prelude.{Null as NullTag};
ghost use Rattle.der_asn1.specs.Forms.{null_form};

use crate::contents::checked::Checked;
use crate::contents::grammar::ContentsGrammar;
use der::Tag;

/// Describes the contents of NULL: no octets (X.690 8.8.2).
pub struct NullGrammar;

/// NULL, borrowed from the input.
pub type Null<'a> = Checked<'a, NullGrammar>;

impl ContentsGrammar for NullGrammar {
    ghost tag_is = { NullTag };

    const TAG: Tag = Tag::Null;

    fn fixed_tag() -> Tag {
        Self::TAG
    }

    ghost grammar = { null_form };

    fn matches_grammar(octets: &[u8]) -> bool {
        octets.is_empty()
    }

    ghost numbered = { Prim.omega arith };
}
