//! What `==` returns: true if and only if the two values have the same octets.
ghost use Rattle.std.specs.Prelude.{◌≡◌, ◌↔◌, IsTrue};
ghost use Rattle.der.specs.BytesOwned.{owned_octets};
ghost use Rattle.der.specs.BytesRef.{reference_octets};
ghost use Rattle.der.specs.StringOwned.{owned_text};
ghost use Rattle.der.specs.StringRef.{reference_text};

use crate::bytes::{BytesOwned, BytesRef};
use crate::string::{StringOwned, StringRef};

/// Calls `==`. The contract of this function states that `a` and `b` are equal if and only if they
/// have the same octets.
fn bytes_ref_equality(a: &BytesRef<'_>, b: &BytesRef<'_>) -> bool
    ensures { IsTrue result ↔ (reference_octets a.now ≡ reference_octets b.now) }
{
    a == b
}

/// Calls `==`. The contract of this function states that `a` and `b` are equal if and only if they
/// have the same octets.
fn bytes_owned_equality(a: &BytesOwned, b: &BytesOwned) -> bool
    ensures { IsTrue result ↔ (owned_octets a.now ≡ owned_octets b.now) }
{
    a == b
}

/// Calls `==`. The contract of this function states that `a` and `b` are equal if and only if they
/// have the same text.
fn string_ref_equality(a: &StringRef<'_>, b: &StringRef<'_>) -> bool
    ensures { IsTrue result ↔ (reference_text a.now ≡ reference_text b.now) }
{
    a == b
}

/// Calls `==`. The contract of this function states that `a` and `b` are equal if and only if they
/// have the same text.
fn string_owned_equality(a: &StringOwned, b: &StringOwned) -> bool
    ensures { IsTrue result ↔ (owned_text a.now ≡ owned_text b.now) }
{
    a == b
}
