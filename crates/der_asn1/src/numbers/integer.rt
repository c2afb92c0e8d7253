//! INTEGER.
ghost use Rattle.std.specs.Prelude.{◌<◌};
ghost use Rattle.std.proofs.Common.{arith};
ghost use Rattle.der.specs.Prelude.{Integer as IntegerTag};
ghost use Rattle.der_asn1.specs.Forms.{integer_form};

use crate::contents::checked::Checked;
use crate::contents::grammar::ContentsGrammar;
use der::Tag;

/// Describes the contents of an INTEGER: a number in two's complement, in the fewest octets (X.690
/// 8.3.2).
pub struct IntegerGrammar;

/// An INTEGER borrowed from the input.
pub type IntRef<'a> = Checked<'a, IntegerGrammar>;

impl ContentsGrammar for IntegerGrammar {
    ghost tag_is = { IntegerTag };

    const TAG: Tag = Tag::Integer;

    #[inline(always)]
    fn fixed_tag() -> Tag {
        Self::TAG
    }

    ghost grammar = { integer_form };

    #[inline(always)]
    fn matches_grammar(octets: &[u8]) -> bool {
        match octets {
            [] => false,
            [_] => true,
            [first, second, ..] => {
                !(*first == 0 && *second < 0x80 || *first == 0xFF && !(*second < 0x80))
            }
        }
    }

    ghost numbered = { Prim.omega arith };
}
