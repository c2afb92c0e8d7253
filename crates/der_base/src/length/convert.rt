//! Conversions between lengths and numbers.
ghost use Rattle.std.specs.Prelude.{◌≡◌, Ok};
ghost use Rattle.der_base.specs.Length.{number, definite_length};
ghost use Rattle.der_base.specs.Arithmetic.{checked_length};

use crate::error::{Error, Result};
use crate::length::Length;

/// Converts a number of octets to a definite length.
impl From<u8> for Length {
    ghost from_gives = { λ n l. l ≡ definite_length n };

    fn from(value: u8) -> Self {
        Length::new(u32::from(value))
    }
}

/// Converts a number of octets to a definite length.
impl From<u16> for Length {
    ghost from_gives = { λ n l. l ≡ definite_length n };

    fn from(value: u16) -> Self {
        Length::new(u32::from(value))
    }
}

/// Converts a number of octets to a definite length.
impl From<u32> for Length {
    ghost from_gives = { λ n l. l ≡ definite_length n };

    fn from(value: u32) -> Self {
        Length::new(value)
    }
}

/// Converts a length to its number of octets. The number of a length that a reader read in the
/// indefinite form counts the contents and the two end-of-contents octets.
impl From<Length> for u32 {
    ghost from_gives = { λ l n. n ≡ number l };

    fn from(length: Length) -> Self {
        length.inner
    }
}

/// Converts a number of octets to a definite length.
///
/// # Errors
///
/// - `Overflow` without a position, if the number of octets exceeds 4294967295.
impl TryFrom<usize> for Length {
    type Error = Error;

    ghost try_from_gives = { λ n r. r ≡ checked_length n };

    fn try_from(value: usize) -> Result<Self> {
        Length::new_usize(value)
    }
}

/// Converts a length to its number of octets. The number of a length that a reader read in the
/// indefinite form counts the contents and the two end-of-contents octets.
///
/// # Errors
///
/// Never fails: a `usize` has 64 bits.
impl TryFrom<Length> for usize {
    type Error = Error;

    ghost try_from_gives = { λ l r. r ≡ Ok (number l) };

    fn try_from(length: Length) -> Result<Self> {
        Ok(u32::from(length) as usize)
    }
}
