//! Owned texts.
ghost use Rattle.std.specs.Prelude.{◌≡◌, ◌↔◌, ◌^◌, ◌<◌, true, Ok, [], length, IsTrue};
ghost use Rattle.std.specs.Str.{is_utf8};
ghost use Rattle.std.specs.String.{string_bytes};
ghost use Rattle.der_base.specs.Length.{definite_length};
ghost use Rattle.der_core.specs.Outcome.{map_ok};
ghost use Rattle.der.specs.Octets.{checked_octets, checked_text, AnswersOrLacks};

use crate::bytes::BytesRef;
use crate::string::StringRef;
use der_base::{Error, ErrorKind, Length};
use std::alloc::Global;

mod der;

/// An owned text of at most 4294967295 octets.
///
/// The derived order is lexicographic: octet by octet, and a proper prefix is smaller.
#[derive(Debug, Drop, PartialEq, Eq, PartialOrd, Ord, Hash)]
pub struct StringOwned {
    inner: String,
    ghost utf8: { is_utf8 (string_bytes inner) ≡ true },
    ghost counted: { length (string_bytes inner) < 2 ^ 32 },
}

impl StringOwned {
    /// Wraps the text `inner` in a [`StringOwned`], without allocating.
    ///
    /// # Errors
    ///
    /// - `Overflow` without a position, if `inner` has more than 4294967295 octets.
    pub fn new(inner: String) -> Result<Self, Error>
        ensures exact { map_ok (λ t. string_bytes t.inner) result
            ≡ checked_octets (string_bytes inner) }
    {
        match Length::new_usize(inner.as_str().len()) {
            Ok(_) => Ok(StringOwned { inner }),
            Err(error) => Err(error),
        }
    }

    /// Copies `bytes` into an owned text, in memory of `alloc`. Before it allocates, the function
    /// checks that `bytes` are UTF-8 and at most 4294967295 octets.
    ///
    /// # Errors
    ///
    /// - `Utf8` without a position, if `bytes` are not UTF-8, whatever their number.
    /// - `Overflow` without a position, if the text in `bytes` has more than 4294967295 octets.
    /// - `OutOfMemory` without a position, if allocation fails.
    pub fn from_bytes(alloc: Global, bytes: &[u8]) -> Result<Self, Error>
        ensures exact { AnswersOrLacks (checked_text bytes.now)
            (map_ok (λ t. string_bytes t.inner) result) }
    {
        StringRef::from_bytes(bytes)?.ref_to_owned(alloc)
    }

    /// The text, as a `str`.
    pub fn as_str(&self) -> &str
        ensures { result.now ≡ string_bytes self.now.inner }
    {
        self.inner.as_str()
    }

    /// The octets of the text, as a slice.
    pub fn as_bytes(&self) -> &[u8]
        ensures { result.now ≡ string_bytes self.now.inner }
    {
        self.inner.as_bytes()
    }

    /// The octets of the text, borrowed as a [`BytesRef`].
    pub fn as_bytes_ref(&self) -> BytesRef<'_>
        ensures { result.bytes.now ≡ string_bytes self.now.inner }
    {
        BytesRef::counted(self.as_bytes())
    }

    /// The text, borrowed as a [`StringRef`].
    pub fn as_string_ref(&self) -> StringRef<'_>
        ensures { result.text.now ≡ string_bytes self.now.inner }
    {
        StringRef::counted(self.as_str())
    }

    /// The text, borrowed as a [`StringRef`]. Returns what [`StringOwned::as_string_ref`] returns.
    pub fn owned_to_ref(&self) -> StringRef<'_>
        ensures { result.text.now ≡ string_bytes self.now.inner }
    {
        self.as_string_ref()
    }

    /// The number of octets of the text.
    pub fn len(&self) -> Length
        ensures { result ≡ definite_length (length (string_bytes self.now.inner)) }
    {
        self.as_bytes_ref().len()
    }

    /// Whether the text has no octets.
    pub fn is_empty(&self) -> bool
        ensures { IsTrue result ↔ (string_bytes self.now.inner ≡ []) }
    {
        self.as_bytes_ref().is_empty()
    }

    /// An owned copy of the text, in memory of `alloc`.
    ///
    /// # Errors
    ///
    /// - `OutOfMemory` without a position, if allocation fails.
    pub fn clone_in(&self, alloc: Global) -> Result<Self, Error>
        ensures exact { AnswersOrLacks (Ok (string_bytes self.now.inner))
            (map_ok (λ t. string_bytes t.inner) result) }
    {
        self.as_string_ref().ref_to_owned(alloc)
    }
}

impl<'a> StringRef<'a> {
    /// An owned copy of the text, in memory of `alloc`.
    ///
    /// # Errors
    ///
    /// - `OutOfMemory` without a position, if allocation fails.
    pub fn ref_to_owned(&self, alloc: Global) -> Result<StringOwned, Error>
        ensures exact { AnswersOrLacks (Ok self.now.text.now)
            (map_ok (λ t. string_bytes t.inner) result) }
    {
        match String::from_str(alloc, self.as_str()) {
            Ok(inner) => Ok(StringOwned { inner }),
            Err(_) => Err(ErrorKind::OutOfMemory.to_error()),
        }
    }
}
