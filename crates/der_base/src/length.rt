//! The type [`Length`], a number of octets.
ghost use Rattle.std.specs.Prelude.{◌≡◌, ◌↔◌, IsTrue, Bool, true, false, Some};

mod arithmetic;
mod convert;
mod element;

use crate::error::{ErrorKind, Result};
use std::fmt;

/// A number of octets, up to 4294967295, with a flag: whether the length was read in the indefinite
/// form (X.690 8.1.3.6). A length that a reader reads in the indefinite form counts the contents
/// and the two end-of-contents octets.
///
/// Two lengths are equal if their numbers and their flags are equal. Lengths are ordered by their
/// numbers. If the numbers are equal, a definite length is less than an indefinite one.
#[derive(Clone, Copy, Default, PartialEq, Eq, PartialOrd, Ord, Hash)]
pub struct Length {
    inner: u32,
    indefinite: bool,
}

impl Length {
    ghost use Rattle.der_base.specs.Length.{number, is_indefinite, definite_length, indefinite_length};
    ghost use Rattle.der_base.specs.Arithmetic.{checked_length, sans_eoc};

    /// The definite length of zero octets.
    pub const ZERO: Self = Length {
        inner: 0,
        indefinite: false,
    };

    /// The definite length of one octet.
    pub const ONE: Self = Length {
        inner: 1,
        indefinite: false,
    };

    /// The greatest definite length, 4294967295 octets.
    pub const MAX: Self = Length {
        inner: u32::MAX,
        indefinite: false,
    };

    /// A definite length of `value` octets.
    pub const fn new(value: u32) -> Self
        ensures { result ≡ definite_length value }
    {
        Length {
            inner: value,
            indefinite: false,
        }
    }

    /// A length of `value` octets that is flagged as read in the indefinite form. As in a length
    /// that a reader reads, `value` counts the contents and the two end-of-contents octets.
    pub const fn new_indefinite(value: u32) -> Self
        ensures { result ≡ indefinite_length value }
    {
        Length {
            inner: value,
            indefinite: true,
        }
    }

    /// A definite length of `value` octets.
    ///
    /// # Errors
    ///
    /// - `Overflow` without a position, if `value` exceeds 4294967295.
    pub const fn new_usize(value: usize) -> Result<Self>
        ensures { result ≡ checked_length value }
    {
        if value > u32::MAX as usize {
            return Err(ErrorKind::Overflow.to_error());
        }
        Ok(Length::new(value as u32))
    }

    /// Whether the number of octets is zero. A length that a reader reads in the indefinite form is
    /// never zero, even if the contents are empty: it counts the two end-of-contents octets.
    pub const fn is_zero(self) -> bool
        ensures { IsTrue result ↔ (number self ≡ 0) }
    {
        self.inner == 0
    }

    /// Whether the length was read in the indefinite form.
    pub const fn is_indefinite(self) -> bool
        ensures { result ≡ is_indefinite self }
    {
        self.indefinite
    }

    /// The length of the contents without the two end-of-contents octets, which an indefinite
    /// length counts (X.690 8.1.5). For an indefinite length, returns a length that is smaller by
    /// 2, but not less than 0, and is still flagged as indefinite. Returns a definite length
    /// unchanged.
    pub const fn sans_eoc(self) -> Self
        ensures { result ≡ sans_eoc self }
    {
        if self.indefinite {
            Length::new_indefinite(self.inner.saturating_sub(2))
        } else {
            self
        }
    }
}

/// Prints the number of octets in decimal, without the flag for the indefinite form.
impl fmt::Display for Length {
    ghost use Rattle.der_base.specs.Text.{length_text};

    ghost output = { λ l. Some (length_text l) };

    fn fmt<W: fmt::Write>(&self, f: &mut fmt::Formatter<W>) -> fmt::Result {
        self.inner.fmt(f)
    }
}

/// Prints a definite length as in `Length(5)`, and every indefinite length as
/// `Length([indefinite])`.
impl fmt::Debug for Length {
    ghost use Rattle.der_base.specs.Text.{length_debug};

    ghost debug_output = { λ l. Some (length_debug l) };

    fn fmt<W: fmt::Write>(&self, f: &mut fmt::Formatter<W>) -> fmt::Result {
        if self.indefinite {
            f.write_str("Length([indefinite])")
        } else {
            write!(f, "Length({self})")
        }
    }
}
