//! The derived total orders of byte strings and texts.
ghost use Rattle.std.specs.Prelude.{◌≡◌};
ghost use Rattle.der_base.specs.Order.{byte_order};
ghost use Rattle.der.specs.OctetsOrder.{counted_order};
ghost use Rattle.der.specs.BytesOwned.{owned_octets};
ghost use Rattle.der.specs.BytesRef.{reference_octets};
ghost use Rattle.der.specs.StringOwned.{owned_text};
ghost use Rattle.der.specs.StringRef.{reference_text};

use crate::bytes::{BytesOwned, BytesRef};
use crate::string::{StringOwned, StringRef};
use std::cmp::Ordering;

/// Calls `Ord::cmp`. The contract of this function states that `a` and `b` are compared in
/// lexicographic order: octet by octet, and a proper prefix is smaller.
fn bytes_ref_ordering(a: &BytesRef<'_>, b: &BytesRef<'_>) -> Ordering
    ensures { result ≡ byte_order (reference_octets a.now) (reference_octets b.now) }
{
    a.cmp(b)
}

/// Calls `Ord::cmp`. The contract of this function states that a shorter byte string is smaller,
/// and that byte strings of equal length are compared octet by octet.
fn bytes_owned_ordering(a: &BytesOwned, b: &BytesOwned) -> Ordering
    ensures { result ≡ counted_order (owned_octets a.now) (owned_octets b.now) }
{
    a.cmp(b)
}

/// Calls `Ord::cmp`. The contract of this function states that `a` and `b` are compared in
/// lexicographic order: octet by octet, and a proper prefix is smaller.
fn string_ref_ordering(a: &StringRef<'_>, b: &StringRef<'_>) -> Ordering
    ensures { result ≡ byte_order (reference_text a.now) (reference_text b.now) }
{
    a.cmp(b)
}

/// Calls `Ord::cmp`. The contract of this function states that `a` and `b` are compared in
/// lexicographic order: octet by octet, and a proper prefix is smaller.
fn string_owned_ordering(a: &StringOwned, b: &StringOwned) -> Ordering
    ensures { result ≡ byte_order (owned_text a.now) (owned_text b.now) }
{
    a.cmp(b)
}
