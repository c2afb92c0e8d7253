//! OCTET STRING.
ghost use Rattle.std.proofs.Common.{arith};
ghost use Rattle.der.specs.Prelude.{OctetString as OctetTag};
ghost use Rattle.der_asn1.specs.Forms.{octets_form};

use crate::contents::checked::Checked;
use crate::contents::grammar::ContentsGrammar;
use der::Tag;

/// Describes the contents of an OCTET STRING: any octets (X.690 8.7).
pub struct OctetStringGrammar;

/// An OCTET STRING borrowed from the input.
pub type OctetStringRef<'a> = Checked<'a, OctetStringGrammar>;

impl ContentsGrammar for OctetStringGrammar {
    ghost tag_is = { OctetTag };

    const TAG: Tag = Tag::OctetString;

    #[inline(always)]
    fn fixed_tag() -> Tag {
        Self::TAG
    }

    ghost grammar = { octets_form };

    #[inline(always)]
    fn matches_grammar(_octets: &[u8]) -> bool {
        true
    }

    ghost numbered = { Prim.omega arith };
}
