//! BIT STRING with named bits.
ghost use Rattle.std.specs.Option.{SomeIff};
ghost use Rattle.std.specs.Prelude.{◌≡◌, ◌<◌, ◌^◌, true, length};
ghost use Rattle.std.proofs.Common.{arith};
ghost use Rattle.der.specs.Prelude.{BitString as BitTag};
ghost use Rattle.der_asn1.specs.Forms.{bits_form};
ghost use Rattle.der_asn1.specs.NamedBits.{named_bits_form, ends_in_one, last_bit_is_one, has_bit};
ghost use Rattle.der_asn1.specs.NamedBits.{bit_count};

use crate::contents::checked::Checked;
use crate::contents::grammar::ContentsGrammar;
use crate::strings::bit_string::BitStringGrammar;
use der::Tag;

/// Describes the contents of a BIT STRING with named bits: a BIT STRING whose last bit is one, or
/// which has no bits. DER removes trailing zero bits, because a bit that is absent is zero (X.680
/// 22.7, X.690 11.2.2).
pub struct NamedBitsGrammar;

/// A BIT STRING with named bits, borrowed from the input. The first contents octet is the number of
/// unused bits.
pub type NamedBitsRef<'a> = Checked<'a, NamedBitsGrammar>;

impl ContentsGrammar for NamedBitsGrammar {
    ghost tag_is = { BitTag };

    const TAG: Tag = Tag::BitString;

    #[inline(always)]
    fn fixed_tag() -> Tag {
        Self::TAG
    }

    ghost grammar = { named_bits_form };

    #[inline(always)]
    fn matches_grammar(octets: &[u8]) -> bool {
        BitStringGrammar::matches_grammar(octets) && last_bit_is_one(octets)
    }

    ghost numbered = { Prim.omega arith };
}

impl<'a> Checked<'a, NamedBitsGrammar> {
    /// Whether the bit with this number is one; bit 0 is the first. A bit that is absent is zero.
    pub fn has_bit(&self, number: u32) -> bool
        ensures { result ≡ has_bit number self.now.octets.now }
    {
        let octets = self.octets();
        let at = 1 + number as usize / 8;
        at < octets.len() && (octets[at] >> (7 - number % 8)) % 2 == 1
    }

    /// The number of bits, without trailing zero bits. This is 0 if there are no bits; otherwise it
    /// is one more than the number of the last bit that is one. Returns `None` if there are more
    /// than 4294967295 contents octets.
    pub fn bit_count(&self) -> Option<u64>
        ensures { SomeIff result (length self.now.octets.now < 2 ^ 32)
            (bit_count self.now.octets.now) }
    {
        let octets = self.octets();
        let [unused, bits @ ..] = octets else {
            return None;
        };
        if octets.len() > 0xFFFF_FFFF {
            return None;
        }
        Some(8 * bits.len() as u64 - *unused as u64)
    }
}

// Whether the last bit is one, or there are no bits.
#[inline(always)]
fn last_bit_is_one(octets: &[u8]) -> bool
    requires { bits_form octets.now ≡ true }
    ensures { result ≡ last_bit_is_one octets.now }
{
    match octets {
        [] => true,
        [unused, bits @ ..] => ends_in_one(*unused, bits),
    }
}

// Whether the last octet's bit with this number is one, or there are no octets.
#[inline(always)]
fn ends_in_one(number: u8, bits: &[u8]) -> bool
    requires { number < 8 }
    ensures { result ≡ ends_in_one number bits.now }
{
    match bits {
        [] => true,
        [.., last] => (*last >> number) % 2 == 1,
    }
}
