//! BMPString.
ghost use Rattle.std.proofs.Common.{arith};
ghost use Rattle.der.specs.Prelude.{BmpString as BmpTag};
ghost use Rattle.std.specs.Prelude.{◌≡◌, ◌&&◌};
ghost use Rattle.der_asn1.specs.Alphabets.{bmp_form, is_surrogate};

use crate::contents::checked::Checked;
use crate::contents::grammar::ContentsGrammar;
use der::Tag;

/// Describes the contents of a BMPString: characters of the Basic Multilingual Plane, of two octets
/// each (X.690 8.23.9).
pub struct BmpStringGrammar;

/// A BMPString borrowed from the input.
pub type BmpStringRef<'a> = Checked<'a, BmpStringGrammar>;

impl ContentsGrammar for BmpStringGrammar {
    ghost tag_is = { BmpTag };

    const TAG: Tag = Tag::BmpString;

    fn fixed_tag() -> Tag {
        Self::TAG
    }

    ghost grammar = { bmp_form };

    fn matches_grammar(octets: &[u8]) -> bool {
        let mut starts = true;
        for octet in octets {
            if begins_surrogate(starts, *octet) {
                return false;
            }
            starts = !starts;
        }
        starts
    }

    ghost numbered = { Prim.omega arith };
}

// Whether `octet` begins a code (`starts`) and that code is a surrogate, which is no character by
// itself.
fn begins_surrogate(starts: bool, octet: u8) -> bool
    ensures { result ≡ (starts && is_surrogate octet) }
{
    starts && 0xD8 <= octet && octet < 0xE0
}
