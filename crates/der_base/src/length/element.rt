//! The sizes of encoded lengths and of whole elements.
ghost use Rattle.std.specs.Prelude.{◌≡◌, ◌≤◌, length};
ghost use Rattle.der_base.specs.Length.{number, length_octets};
ghost use Rattle.der_base.specs.Arithmetic.{checked_length, element_count};

use crate::error::Result;
use crate::length::Length;
use crate::tag::Tag;

impl Length {
    /// The number of octets of a whole element that has the tag `tag`, `self` contents octets and a
    /// definite length. The number counts the identifier octets (X.690 8.1.2), the length octets
    /// (X.690 8.1.3) and the contents octets. The result is a definite length. An indefinite `self`
    /// gives the same result as the definite length of as many octets.
    ///
    /// # Errors
    ///
    /// - `Overflow` without a position, if the result exceeds 4294967295.
    pub fn for_tlv(self, tag: Tag) -> Result<Self>
        ensures { result ≡ checked_length (element_count tag (number self)) }
    {
        Length::new(tag.octet_count() + self.octet_count()) + self
    }

    /// The number of octets that encode the length in the definite form (X.690 8.1.3, 10.1), 1 to
    /// 5. A length up to 127 takes one octet. A greater length takes one octet, and one more for
    /// each of its digits in base 256. An indefinite `self` gives the same result as the definite
    /// length of as many octets.
    pub const fn octet_count(self) -> u32
        ensures octets { result ≡ length (length_octets (number self)) }
        ensures some { 1 ≤ result }
        ensures most { result ≤ 5 }
    {
        let number = self.inner;
        if number < 128 {
            1
        } else if number < 1 << 8 {
            2
        } else if number < 1 << 16 {
            3
        } else if number < 1 << 24 {
            4
        } else {
            5
        }
    }
}
