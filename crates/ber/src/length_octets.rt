//! Length octets (X.690 8.1.3).
ghost use Rattle.std.specs.Prelude.{◌+◌, ◌^◌, ◌≡◌, ◌<◌, ◌≤◌, Bool, ◌∷◌, length, IfOk, IfErr, IfSome, IfNone};
ghost use Rattle.std.specs.Int.Digits.{number_from_digits};
ghost use Rattle.der_base.specs.FixedOctets.{long_form};

use crate::fault::Fault;
use crate::fault_kind::FaultKind;
use crate::length::Length;

// A length with the number of its octets, and whether these are the fewest (X.690 10.1).
#[derive(Clone, Copy)]
pub(crate) struct LengthOctets {
    pub length: Length,
    pub minimal: bool,
    pub count: usize,
}

impl LengthOctets {
    ghost use Rattle.ber.specs.Length.{LengthNext};
    ghost use Rattle.ber.specs.Fault.{IsLengthFault};

    // The length at the front of octets that follow an identifier, at offset `at`.
    #[inline(always)]
    pub fn read(constructed: bool, at: usize, octets: &[u8]) -> Result<Self, Fault>
        requires { at ≤ 6 }
        ensures found { IfOk result (λ l. LengthNext l constructed octets.now) }
        ensures fault { IfErr result (λ f. IsLengthFault constructed at octets.now f) }
    {
        match octets {
            [first, ..] if *first < 0x80 => Ok(LengthOctets {
                length: Length::Definite(*first as u32),
                minimal: true,
                count: 1,
            }),
            [0x80, ..] if constructed => Ok(LengthOctets {
                length: Length::Indefinite,
                minimal: true,
                count: 1,
            }),
            [0x80, ..] => Err(Fault::new(FaultKind::PrimitiveIndefinite, at)),
            [0xFF, ..] => Err(Fault::new(FaultKind::LengthReserved, at)),
            [first, digits @ ..] => Self::read_long((*first - 0x80) as usize, at, digits),
            [] => Err(Fault::truncated(at, at + 1)),
        }
    }

    // The length in the long form, whose first octet announces so many digits in base 256.
    fn read_long(count: usize, at: usize, digits: &[u8]) -> Result<Self, Fault>
        requires some { 1 ≤ count }
        requires most { count ≤ 126 }
        requires near { at ≤ 6 }
        ensures found { IfOk result
            (λ l. (b : Bool) → LengthNext l b (long_form count ∷ digits.now)) }
        ensures fault { IfErr result
            (λ f. (b : Bool) → IsLengthFault b at (long_form count ∷ digits.now) f) }
    {
        if digits.len() < count {
            return Err(Fault::truncated(at + 1 + digits.len(), at + 1 + count));
        }
        match number_of(&digits[..count]) {
            Some(number) => Ok(LengthOctets {
                length: Length::Definite(number),
                minimal: digits[0] != 0 && number >= 128,
                count: 1 + count,
            }),
            None => Err(Fault::new(FaultKind::LengthTooLarge, at)),
        }
    }
}

// The number with these digits in base 256, if it has at most 32 bits.
fn number_of(digits: &[u8]) -> Option<u32>
    ensures found { IfSome result (λ n. n ≡ number_from_digits 256 digits.now) }
    ensures small { IfSome result (λ n. n < 2 ^ 32) }
    ensures none { IfNone result (2 ^ 32 ≤ number_from_digits 256 digits.now) }
{
    let mut number = 0u32;
    for digit in digits {
        if number >= 1 << 24 {
            return None;
        }
        number = number * 256 + *digit as u32;
    }
    Some(number)
}
