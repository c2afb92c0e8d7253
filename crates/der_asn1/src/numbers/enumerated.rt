//! ENUMERATED.
ghost use Rattle.std.proofs.Common.{arith};
ghost use Rattle.der.specs.Prelude.{Enumerated as EnumeratedTag};
ghost use Rattle.std.specs.Prelude.{◌≡◌, ◌↔◌, true, IsSome, IfSome};
ghost use Rattle.der_asn1.specs.Forms.{integer_form};

use crate::contents::checked::Checked;
use crate::contents::grammar::ContentsGrammar;
use crate::numbers::integer::IntegerGrammar;
use crate::numbers::integer_number::IntegerNumber;
use der::Tag;

/// Describes the contents of an ENUMERATED: the number of the enumeration item, encoded as the
/// contents of an INTEGER (X.690 8.4).
pub struct EnumeratedGrammar;

/// An ENUMERATED borrowed from the input.
pub type EnumeratedRef<'a> = Checked<'a, EnumeratedGrammar>;

impl ContentsGrammar for EnumeratedGrammar {
    ghost tag_is = { EnumeratedTag };

    const TAG: Tag = Tag::Enumerated;

    fn fixed_tag() -> Tag {
        Self::TAG
    }

    ghost grammar = { integer_form };

    fn matches_grammar(octets: &[u8]) -> bool {
        IntegerGrammar::matches_grammar(octets)
    }

    ghost numbered = { Prim.omega arith };
}

impl<'a> EnumeratedRef<'a> {
    /// The number of the enumeration item; `None` if this number does not fit in the type `N`.
    pub fn to_number<N: IntegerNumber>(&self) -> Option<N>
        ensures some { IsSome result ↔ (N.grammar self.now.octets.now ≡ true) }
        ensures same { IfSome result (λ v. N.contents_of v ≡ self.now.octets.now) }
    {
        N::from_contents(self.octets())
    }
}
