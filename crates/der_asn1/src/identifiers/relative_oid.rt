//! RELATIVE-OID.
ghost use Rattle.std.proofs.Common.{arith};
ghost use Rattle.der.specs.Prelude.{RelativeOid as RelativeOidTag};
ghost use Rattle.der_asn1.specs.Forms.{octets_form};

use crate::contents::checked::Checked;
use crate::contents::grammar::ContentsGrammar;
use der::Tag;

/// Describes the contents of a RELATIVE-OID: any octets, which are not checked.
pub struct RelativeOidGrammar;

/// A RELATIVE-OID borrowed from the input, as its contents octets (X.690 8.20).
pub type RelativeOidRef<'a> = Checked<'a, RelativeOidGrammar>;

impl ContentsGrammar for RelativeOidGrammar {
    ghost tag_is = { RelativeOidTag };

    const TAG: Tag = Tag::RelativeOid;

    fn fixed_tag() -> Tag {
        Self::TAG
    }

    ghost grammar = { octets_form };

    fn matches_grammar(_octets: &[u8]) -> bool {
        true
    }

    ghost numbered = { Prim.omega arith };
}
