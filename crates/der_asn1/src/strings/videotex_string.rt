//! VideotexString.
ghost use Rattle.std.proofs.Common.{arith};
ghost use Rattle.der.specs.Prelude.{VideotexString as VideotexStringTag};
ghost use Rattle.der_asn1.specs.Forms.{octets_form};

use crate::contents::checked::Checked;
use crate::contents::grammar::ContentsGrammar;
use der::Tag;

/// Describes the contents of a VideotexString: any octets, which are not checked.
pub struct VideotexStringGrammar;

/// A VideotexString borrowed from the input, as its contents octets (X.690 8.23).
pub type VideotexStringRef<'a> = Checked<'a, VideotexStringGrammar>;

impl ContentsGrammar for VideotexStringGrammar {
    ghost tag_is = { VideotexStringTag };

    const TAG: Tag = Tag::VideotexString;

    fn fixed_tag() -> Tag {
        Self::TAG
    }

    ghost grammar = { octets_form };

    fn matches_grammar(_octets: &[u8]) -> bool {
        true
    }

    ghost numbered = { Prim.omega arith };
}
