//! Borrowed byte strings.
ghost use Rattle.std.specs.Prelude.{◌≡◌, ◌↔◌, ◌^◌, ◌<◌, [], length, IsTrue};
ghost use Rattle.der_base.specs.Length.{number, definite_length};
ghost use Rattle.der_core.specs.Outcome.{map_ok};
ghost use Rattle.der.specs.Octets.{checked_octets, prefix_of};

use der_base::{Error, Length};

mod der;

/// A borrowed byte string of at most 4294967295 octets.
///
/// The derived order is lexicographic: octet by octet, and a proper prefix is smaller.
#[derive(Clone, Copy, Debug, PartialEq, Eq, PartialOrd, Ord, Hash)]
pub struct BytesRef<'a> {
    bytes: &'a [u8],
    ghost counted: { length bytes.now < 2 ^ 32 },
}

impl<'a> BytesRef<'a> {
    /// The byte string of zero octets.
    pub const EMPTY: BytesRef<'static> = BytesRef { bytes: &[] };

    /// Wraps the octets in `bytes`, without copying them.
    ///
    /// # Errors
    ///
    /// - `Overflow` without a position, if `bytes` has more than 4294967295 octets.
    pub const fn new(bytes: &'a [u8]) -> Result<Self, Error>
        ensures exact { map_ok (λ b. b.bytes.now) result ≡ checked_octets bytes.now }
    {
        match Length::new_usize(bytes.len()) {
            Ok(_) => Ok(BytesRef { bytes }),
            Err(error) => Err(error),
        }
    }

    // Wraps octets whose number is known to fit in a `Length`.
    pub(crate) const fn counted(bytes: &'a [u8]) -> Self
        requires { length bytes.now < 2 ^ 32 }
        ensures { result.bytes.now ≡ bytes.now }
    {
        BytesRef { bytes }
    }

    /// The octets of the byte string, as a slice.
    pub const fn as_slice(&self) -> &'a [u8]
        ensures { result.now ≡ self.now.bytes.now }
    {
        self.bytes
    }

    /// The number of octets of the byte string.
    pub const fn len(&self) -> Length
        ensures { result ≡ definite_length (length self.now.bytes.now) }
    {
        Length::new(self.bytes.len() as u32)
    }

    /// Whether the byte string has no octets.
    pub fn is_empty(&self) -> bool
        ensures { IsTrue result ↔ (self.now.bytes.now ≡ []) }
    {
        self.bytes.is_empty()
    }

    /// The first `length` octets of the byte string.
    ///
    /// # Errors
    ///
    /// - `Incomplete`, as by [`Error::incomplete`], if the byte string has fewer octets than
    ///   `length`. The position of the error and its `actual_len` are both the number of octets of
    ///   the byte string. Its `expected_len` is one more than `actual_len`, not `length`.
    pub fn prefix(&self, length: Length) -> Result<Self, Error>
        ensures exact { map_ok (λ b. b.bytes.now) result
            ≡ prefix_of (number length) self.now.bytes.now }
    {
        match self.bytes.get(..u32::from(length) as usize) {
            Some(bytes) => Ok(BytesRef { bytes }),
            None => Err(Error::incomplete(self.len())),
        }
    }
}
