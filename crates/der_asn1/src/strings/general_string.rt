//! GeneralString.
ghost use Rattle.std.proofs.Common.{arith};
ghost use Rattle.der.specs.Prelude.{GeneralString as GeneralStringTag};
ghost use Rattle.der_asn1.specs.Forms.{octets_form};

use crate::contents::checked::Checked;
use crate::contents::grammar::ContentsGrammar;
use der::Tag;

/// Describes the contents of a GeneralString: any octets, which are not checked.
pub struct GeneralStringGrammar;

/// A GeneralString borrowed from the input, as its contents octets (X.690 8.23).
pub type GeneralStringRef<'a> = Checked<'a, GeneralStringGrammar>;

impl ContentsGrammar for GeneralStringGrammar {
    ghost tag_is = { GeneralStringTag };

    const TAG: Tag = Tag::GeneralString;

    fn fixed_tag() -> Tag {
        Self::TAG
    }

    ghost grammar = { octets_form };

    fn matches_grammar(_octets: &[u8]) -> bool {
        true
    }

    ghost numbered = { Prim.omega arith };
}
