//! SEQUENCEs whose contents are not checked.
ghost use Rattle.std.proofs.Common.{arith};
ghost use Rattle.der.specs.Prelude.{Sequence as SequenceTag};
ghost use Rattle.der_asn1.specs.Forms.{octets_form};

use crate::contents::checked::Checked;
use crate::contents::grammar::ContentsGrammar;
use der::Tag;

/// Describes the contents of a [`SequenceRef`]: any octets.
pub struct SequenceGrammar;

/// A SEQUENCE borrowed from the input. Its contents octets are not checked: they need not be the
/// encodings of components.
pub type SequenceRef<'a> = Checked<'a, SequenceGrammar>;

impl ContentsGrammar for SequenceGrammar {
    ghost tag_is = { SequenceTag };

    const TAG: Tag = Tag::Sequence;

    #[inline(always)]
    fn fixed_tag() -> Tag {
        Self::TAG
    }

    ghost grammar = { octets_form };

    #[inline(always)]
    fn matches_grammar(_octets: &[u8]) -> bool {
        true
    }

    ghost numbered = { Prim.omega arith };
}
