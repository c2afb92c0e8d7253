//! An OCTET STRING borrowed from the input.
ghost use Rattle.std.specs.Prelude.{◌≡◌, ◌^◌, ◌<◌, false, true, length, ⊤};
ghost use Rattle.der_segments.specs.Contents.{IsContents};

mod access;
mod described;
mod reading;
mod written;

use std::alloc::AllocError;

/// An OCTET STRING (X.690 8.7) that is borrowed from the input. Under the Basic Encoding Rules it
/// may be in segments, which may themselves be in segments, up to 63 levels deep. Decoding checks
/// the segments and copies nothing.
///
/// The tag of a value is always OCTET STRING. If the string is in segments, its identifier octet in
/// the input is `0x24`. With an IMPLICIT tag, this type reads only a primitive encoding; use
/// [`ImplicitSegmented`](crate::ImplicitSegmented) to read segments too.
#[derive(Debug, PartialEq, Eq)]
pub struct Segmented<'a> {
    octets: &'a [u8],
    constructed: bool,
    count: u32,
    ghost short: { length octets.now < 2 ^ 32 },
    ghost formed: { ∥ IsContents constructed octets.now count ∥₁ },
}

/// A clone has the same contents; cloning does not allocate.
impl<'a> Clone for Segmented<'a> {
    ghost is_clone = { λ p q. q ≡ p };

    ghost is_infallible = { λ _. ⊤ };

    fn clone(&self) -> Result<Self, AllocError> {
        Ok(*self)
    }
}

impl<'a> Copy for Segmented<'a> {}

impl<'a> Segmented<'a> {
    // The string with primitive contents.
    #[inline(always)]
    fn primitive(octets: &'a [u8]) -> Self
        requires { length octets.now < 2 ^ 32 }
        ensures octets { result.octets.now ≡ octets.now }
        ensures form { result.constructed ≡ false }
    {
        Segmented {
            octets,
            constructed: false,
            count: octets.len() as u32,
        }
    }

    // The string with contents in segments that were checked.
    #[inline(always)]
    fn in_segments(octets: &'a [u8], count: u32) -> Self
        requires short { length octets.now < 2 ^ 32 }
        requires formed { ∥ IsContents true octets.now count ∥₁ }
        ensures octets { result.octets.now ≡ octets.now }
        ensures form { result.constructed ≡ true }
    {
        Segmented {
            octets,
            constructed: true,
            count,
        }
    }
}
