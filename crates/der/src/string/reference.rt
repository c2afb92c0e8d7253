//! Borrowed texts.
ghost use Rattle.std.specs.Prelude.{◌≡◌, ◌↔◌, ◌^◌, ◌<◌, true, [], length, IsTrue};
ghost use Rattle.std.specs.Str.{is_utf8};
ghost use Rattle.der_base.specs.Length.{definite_length};
ghost use Rattle.der_core.specs.Outcome.{map_ok};
ghost use Rattle.der.specs.Octets.{checked_octets, checked_text};

use crate::bytes::BytesRef;
use crate::string::text_of;
use der_base::{Error, Length};

mod der;

/// A borrowed text of at most 4294967295 octets.
///
/// The derived order is lexicographic: octet by octet, and a proper prefix is smaller.
#[derive(Clone, Copy, Debug, PartialEq, Eq, PartialOrd, Ord, Hash)]
pub struct StringRef<'a> {
    text: &'a str,
    ghost utf8: { is_utf8 text.now ≡ true },
    ghost counted: { length text.now < 2 ^ 32 },
}

impl<'a> StringRef<'a> {
    /// Wraps `text` in a [`StringRef`], without copying it.
    ///
    /// # Errors
    ///
    /// - `Overflow` without a position, if `text` has more than 4294967295 octets.
    pub const fn new(text: &'a str) -> Result<Self, Error>
        ensures exact { map_ok (λ t. t.text.now) result ≡ checked_octets text.now }
    {
        match Length::new_usize(text.len()) {
            Ok(_) => Ok(StringRef { text }),
            Err(error) => Err(error),
        }
    }

    /// Wraps the octets in `bytes` as a text, without copying them.
    ///
    /// # Errors
    ///
    /// - `Utf8` without a position, if `bytes` are not UTF-8, whatever their number.
    /// - `Overflow` without a position, if the text in `bytes` has more than 4294967295 octets.
    pub fn from_bytes(bytes: &'a [u8]) -> Result<Self, Error>
        ensures exact { map_ok (λ t. t.text.now) result ≡ checked_text bytes.now }
    {
        StringRef::new(text_of(bytes)?)
    }

    // Wraps a text whose number of octets is known to fit in a `Length`.
    pub(crate) const fn counted(text: &'a str) -> Self
        requires { length text.now < 2 ^ 32 }
        ensures { result.text.now ≡ text.now }
    {
        StringRef { text }
    }

    /// The text, as a `str`.
    pub const fn as_str(&self) -> &'a str
        ensures { result.now ≡ self.now.text.now }
    {
        self.text
    }

    /// The octets of the text, as a slice.
    pub const fn as_bytes(&self) -> &'a [u8]
        ensures { result.now ≡ self.now.text.now }
    {
        self.text.as_bytes()
    }

    /// The octets of the text, borrowed as a [`BytesRef`].
    pub const fn as_bytes_ref(&self) -> BytesRef<'a>
        ensures { result.bytes.now ≡ self.now.text.now }
    {
        BytesRef::counted(self.as_bytes())
    }

    /// The number of octets of the text.
    pub const fn len(&self) -> Length
        ensures { result ≡ definite_length (length self.now.text.now) }
    {
        Length::new(self.text.len() as u32)
    }

    /// Whether the text has no octets.
    pub fn is_empty(&self) -> bool
        ensures { IsTrue result ↔ (self.now.text.now ≡ []) }
    {
        self.text.is_empty()
    }
}
