//! TeletexString.
ghost use Rattle.std.proofs.Common.{arith};
ghost use Rattle.der.specs.Prelude.{TeletexString as TeletexTag};
ghost use Rattle.der_asn1.specs.Forms.{octets_form};

use crate::contents::checked::Checked;
use crate::contents::grammar::ContentsGrammar;
use der::Tag;

/// Describes the contents of a TeletexString: any octets, because the set of registered character
/// sets is open (X.690 8.23.5).
pub struct TeletexStringGrammar;

/// A TeletexString borrowed from the input.
pub type TeletexStringRef<'a> = Checked<'a, TeletexStringGrammar>;

impl ContentsGrammar for TeletexStringGrammar {
    ghost tag_is = { TeletexTag };

    const TAG: Tag = Tag::TeletexString;

    fn fixed_tag() -> Tag {
        Self::TAG
    }

    ghost grammar = { octets_form };

    fn matches_grammar(_octets: &[u8]) -> bool {
        true
    }

    ghost numbered = { Prim.omega arith };
}
