//! BIT STRING.
ghost use Rattle.std.specs.Prelude.{◌≡◌, ◌<◌};
ghost use Rattle.std.proofs.Common.{arith};
ghost use Rattle.der.specs.Prelude.{BitString as BitTag};
ghost use Rattle.der_asn1.specs.Forms.{bits_form, has_low_zeros};

use crate::contents::checked::Checked;
use crate::contents::grammar::ContentsGrammar;
use der::Tag;

/// Describes the contents of a BIT STRING. The first octet is the number of unused bits, from 0 to
/// 7. The other octets hold the bits. The unused bits are the last bits of the last octet, and must
/// be zero (X.690 8.6.2, 11.2.1). If no octets hold bits, the number of unused bits must be 0.
pub struct BitStringGrammar;

/// A BIT STRING borrowed from the input. The first contents octet is the number of unused bits.
pub type BitStringRef<'a> = Checked<'a, BitStringGrammar>;

impl ContentsGrammar for BitStringGrammar {
    ghost tag_is = { BitTag };

    const TAG: Tag = Tag::BitString;

    #[inline(always)]
    fn fixed_tag() -> Tag {
        Self::TAG
    }

    ghost grammar = { bits_form };

    #[inline(always)]
    fn matches_grammar(octets: &[u8]) -> bool {
        let [unused, bits @ ..] = octets else {
            return false;
        };
        *unused < 8 && ends_in_zeros(*unused, bits)
    }

    ghost numbered = { Prim.omega arith };
}

// Whether the last `unused` bits are zero.
#[inline(always)]
fn ends_in_zeros(unused: u8, bits: &[u8]) -> bool
    requires { unused < 8 }
    ensures { result ≡ has_low_zeros unused bits.now }
{
    match bits {
        [] => unused == 0,
        [.., last] => *last % (1 << unused) == 0,
    }
}
