//! Numbers within bounds, and the INTEGERs that encode them.
ghost use Rattle.std.specs.Prelude.{◌≡◌, ◌↔◌, true, false, IsSome, IfSome};
ghost use Rattle.der_asn1.specs.Integer.{integer_octets};
ghost use Rattle.der_asn1.specs.Ranges.{IsWithin, range_form};

use crate::numbers::integer_number::IntegerNumber;
use crate::numbers::integer_octets::IntegerOctets;
use crate::numbers::number_of::IntegerOf;

/// A number from `MIN` to `MAX`, both included.
#[derive(Clone, Copy, Debug, PartialEq, Eq)]
pub struct InRange<const MIN: u64, const MAX: u64> {
    number: u64,
    ghost within: { IsWithin MIN MAX number },
}

/// An INTEGER with bounds, as `INTEGER (MIN..MAX)` (X.680 51.4). Decoding fails if the number is
/// less than `MIN` or greater than `MAX`.
pub type IntegerIn<const MIN: u64, const MAX: u64> = IntegerOf<InRange<MIN, MAX>>;

impl<const MIN: u64, const MAX: u64> InRange<MIN, MAX> {
    /// Wraps `number`; `None` if it is less than `MIN` or greater than `MAX`.
    pub fn new(number: u64) -> Option<Self>
        ensures some { IsSome result ↔ IsWithin MIN MAX number }
        ensures same { IfSome result (λ v. v.number ≡ number) }
    {
        if MIN <= number && number <= MAX {
            Some(InRange { number })
        } else {
            None
        }
    }

    /// Wraps a number that is known to be within the bounds, such as a constant. The caller must
    /// ensure that the number is within the bounds.
    pub fn known(number: u64) -> Self
        requires { IsWithin MIN MAX number }
        ensures { result.number ≡ number }
    {
        InRange { number }
    }

    /// Returns the wrapped number.
    pub fn get(&self) -> u64
        ensures value { result ≡ self.now.number }
        ensures within { IsWithin MIN MAX result }
    {
        self.number
    }
}

impl<const MIN: u64, const MAX: u64> IntegerNumber for InRange<MIN, MAX> {
    ghost grammar = { range_form MIN MAX };

    ghost contents_of = { λ v. integer_octets false v.number };

    fn from_contents(octets: &[u8]) -> Option<Self> {
        InRange::new(u64::from_contents(octets)?)
    }

    fn to_contents(self) -> IntegerOctets {
        self.number.to_contents()
    }
}

impl<const MIN: u64, const MAX: u64> IntegerOf<InRange<MIN, MAX>> {
    /// The INTEGER that encodes `number`; `None` if `number` is less than `MIN` or greater than
    /// `MAX`.
    pub fn new(number: u64) -> Option<Self>
        ensures some { IsSome result ↔ IsWithin MIN MAX number }
        ensures same { IfSome result (λ v. v.number.number ≡ number) }
    {
        let number = InRange::new(number)?;
        Some(IntegerOf { number })
    }

    /// The INTEGER that encodes a number that is known to be within the bounds, such as a constant.
    /// The caller must ensure that the number is within the bounds.
    pub fn known(number: u64) -> Self
        requires { IsWithin MIN MAX number }
        ensures { result.number.number ≡ number }
    {
        IntegerOf {
            number: InRange::known(number),
        }
    }

    /// The number that the INTEGER encodes.
    pub fn get(&self) -> u64
        ensures value { result ≡ self.now.number.number }
        ensures within { IsWithin MIN MAX result }
    {
        self.number.get()
    }
}
