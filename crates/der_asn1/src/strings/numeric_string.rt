//! NumericString.
ghost use Rattle.std.proofs.Common.{arith};
ghost use Rattle.der.specs.Prelude.{NumericString as NumericTag};
ghost use Rattle.der_asn1.specs.Alphabets.{numeric_form};

use crate::contents::checked::Checked;
use crate::contents::grammar::ContentsGrammar;
use der::Tag;

/// Describes the contents of a NumericString: the digits and the space (X.680 41.2).
pub struct NumericStringGrammar;

/// A NumericString borrowed from the input.
pub type NumericStringRef<'a> = Checked<'a, NumericStringGrammar>;

impl ContentsGrammar for NumericStringGrammar {
    ghost tag_is = { NumericTag };

    const TAG: Tag = Tag::NumericString;

    fn fixed_tag() -> Tag {
        Self::TAG
    }

    ghost grammar = { numeric_form };

    fn matches_grammar(octets: &[u8]) -> bool {
        for octet in octets {
            match *octet {
                b'0'..=b'9' | b' ' => {}
                _ => return false,
            }
        }
        true
    }

    ghost numbered = { Prim.omega arith };
}
