//! Sums and differences of lengths.
ghost use Rattle.std.specs.Prelude.{◌≡◌, ◌+◌, ◌-◌};
ghost use Rattle.der_base.specs.Length.{number, definite_length};
ghost use Rattle.der_base.specs.Arithmetic.{saturated_number, checked_length, checked_difference, result_sum, result_difference};

use crate::error::{ErrorKind, Result};
use crate::length::Length;
use std::ops::{Add, Sub};

impl Length {
    /// Adds the numbers of octets of `self` and `rhs`. The result is a definite length, even if an
    /// operand is indefinite. If the sum exceeds 4294967295, the result is 4294967295.
    pub const fn saturating_add(self, rhs: Self) -> Self
        ensures { result ≡ definite_length (saturated_number (number self + number rhs)) }
    {
        Length::new(self.inner.saturating_add(rhs.inner))
    }

    /// Subtracts the number of octets of `rhs` from the number of octets of `self`. The result is a
    /// definite length, even if an operand is indefinite. If `rhs` has more octets than `self`, the
    /// result is zero octets.
    pub const fn saturating_sub(self, rhs: Self) -> Self
        ensures { result ≡ definite_length (number self - number rhs) }
    {
        Length::new(self.inner.saturating_sub(rhs.inner))
    }
}

/// Adds the numbers of octets of two lengths. The sum is a definite length, even if an operand is
/// indefinite.
///
/// # Errors
///
/// - `Overflow` without a position, if the sum exceeds 4294967295.
impl Add for Length {
    type Output = Result<Self>;

    ghost add_gives = { λ a b r. r ≡ checked_length (number a + number b) };

    fn add(self, rhs: Self) -> Result<Self> {
        self + rhs.inner
    }
}

/// Adds a number of octets to a length. The sum is a definite length, even if the length on the
/// left is indefinite.
///
/// # Errors
///
/// - `Overflow` without a position, if the sum exceeds 4294967295.
impl Add<u8> for Length {
    type Output = Result<Self>;

    ghost add_gives = { λ a n r. r ≡ checked_length (number a + n) };

    fn add(self, rhs: u8) -> Result<Self> {
        self + u32::from(rhs)
    }
}

/// Adds a number of octets to a length. The sum is a definite length, even if the length on the
/// left is indefinite.
///
/// # Errors
///
/// - `Overflow` without a position, if the sum exceeds 4294967295.
impl Add<u16> for Length {
    type Output = Result<Self>;

    ghost add_gives = { λ a n r. r ≡ checked_length (number a + n) };

    fn add(self, rhs: u16) -> Result<Self> {
        self + u32::from(rhs)
    }
}

/// Adds a number of octets to a length. The sum is a definite length, even if the length on the
/// left is indefinite.
///
/// # Errors
///
/// - `Overflow` without a position, if the sum exceeds 4294967295.
impl Add<u32> for Length {
    type Output = Result<Self>;

    ghost add_gives = { λ a n r. r ≡ checked_length (number a + n) };

    fn add(self, rhs: u32) -> Result<Self> {
        match self.inner.checked_add(rhs) {
            Some(sum) => Ok(Length::new(sum)),
            None => Err(ErrorKind::Overflow.to_error()),
        }
    }
}

/// Adds a number of octets to a length. The sum is a definite length, even if the length on the
/// left is indefinite.
///
/// # Errors
///
/// - `Overflow` without a position, if the sum exceeds 4294967295.
impl Add<usize> for Length {
    type Output = Result<Self>;

    ghost add_gives = { λ a n r. r ≡ checked_length (number a + n) };

    fn add(self, rhs: usize) -> Result<Self> {
        self + Length::new_usize(rhs)?
    }
}

/// Subtracts the number of octets of the right length from the number of octets of the left length.
/// The difference is a definite length, even if an operand is indefinite.
///
/// # Errors
///
/// - `Overflow` without a position, if the difference is below zero.
impl Sub for Length {
    type Output = Result<Self>;

    ghost sub_gives = { λ a b r. r ≡ checked_difference (number a) (number b) };

    fn sub(self, rhs: Self) -> Result<Self> {
        match self.inner.checked_sub(rhs.inner) {
            Some(difference) => Ok(Length::new(difference)),
            None => Err(ErrorKind::Overflow.to_error()),
        }
    }
}

/// Adds a length to the length in the `Result` on the left. The sum is a definite length, even if
/// an operand is indefinite.
///
/// # Errors
///
/// - The error on the left, unchanged, if the left operand is an `Err`.
/// - `Overflow` without a position, if the sum exceeds 4294967295.
impl Add<Length> for Result<Length> {
    type Output = Self;

    ghost add_gives = { λ a b r. r ≡ result_sum a b };

    fn add(self, rhs: Length) -> Self {
        self? + rhs
    }
}

/// Subtracts a length from the length in the `Result` on the left. The difference is a definite
/// length, even if an operand is indefinite.
///
/// # Errors
///
/// - The error on the left, unchanged, if the left operand is an `Err`.
/// - `Overflow` without a position, if the difference is below zero.
impl Sub<Length> for Result<Length> {
    type Output = Self;

    ghost sub_gives = { λ a b r. r ≡ result_difference a b };

    fn sub(self, rhs: Length) -> Self {
        self? - rhs
    }
}
