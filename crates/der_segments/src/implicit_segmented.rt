//! An OCTET STRING with an IMPLICIT tag, borrowed from the input.
ghost use Rattle.der.specs.Octets.{IsCounted};
ghost use Rattle.der_segments.specs.Segmented.{segmented_octets};

mod described;
mod reading;
mod written;

use crate::segmented::Segmented;
use der::IsValue;

/// An OCTET STRING with the IMPLICIT context-specific tag with the number `N` (X.690 8.14.3),
/// borrowed from the input. An example is the encrypted content of a message.
///
/// Reading accepts both forms of the tag. The tag is primitive if the string is in one piece. It is
/// constructed if the string is in segments, as the Basic Encoding Rules allow (X.690 8.7.3).
/// Writing always writes the string in one piece, with the primitive tag.
#[derive(Clone, Copy, Debug, Drop, PartialEq, Eq)]
pub struct ImplicitSegmented<'a, const N: u32>(pub Segmented<'a>);

impl<'a, const N: u32> ImplicitSegmented<'a, N> {
    /// Does nothing. For use in proofs, the contract of this function states that `self` is a valid
    /// value.
    pub fn is_value(&self)
        ensures { IsCounted (segmented_octets self.now.0) }
    {
        self.0.is_value()
    }
}
