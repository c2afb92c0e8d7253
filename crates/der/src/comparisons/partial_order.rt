//! The derived partial orders of byte strings and texts. Each compares any two values, and agrees
//! with the total order.
ghost use Rattle.std.specs.Prelude.{◌≡◌, Some};
ghost use Rattle.der_base.specs.Order.{byte_order};
ghost use Rattle.der.specs.OctetsOrder.{counted_order};
ghost use Rattle.der.specs.BytesOwned.{owned_octets};
ghost use Rattle.der.specs.BytesRef.{reference_octets};
ghost use Rattle.der.specs.StringOwned.{owned_text};
ghost use Rattle.der.specs.StringRef.{reference_text};

use crate::bytes::{BytesOwned, BytesRef};
use crate::string::{StringOwned, StringRef};
use std::cmp::Ordering;

/// Calls `PartialOrd::partial_cmp`. The contract of this function states that any two values can be
/// compared, and that `a` and `b` are compared in lexicographic order: octet by octet, and a proper
/// prefix is smaller.
fn bytes_ref_partial_ordering(a: &BytesRef<'_>, b: &BytesRef<'_>) -> Option<Ordering>
    ensures { result ≡ Some (byte_order (reference_octets a.now) (reference_octets b.now)) }
{
    a.partial_cmp(b)
}

/// Calls `PartialOrd::partial_cmp`. The contract of this function states that any two values can be
/// compared: a shorter byte string is smaller, and byte strings of equal length are compared octet
/// by octet.
fn bytes_owned_partial_ordering(a: &BytesOwned, b: &BytesOwned) -> Option<Ordering>
    ensures { result ≡ Some (counted_order (owned_octets a.now) (owned_octets b.now)) }
{
    a.partial_cmp(b)
}

/// Calls `PartialOrd::partial_cmp`. The contract of this function states that any two values can be
/// compared, and that `a` and `b` are compared in lexicographic order: octet by octet, and a proper
/// prefix is smaller.
fn string_ref_partial_ordering(a: &StringRef<'_>, b: &StringRef<'_>) -> Option<Ordering>
    ensures { result ≡ Some (byte_order (reference_text a.now) (reference_text b.now)) }
{
    a.partial_cmp(b)
}

/// Calls `PartialOrd::partial_cmp`. The contract of this function states that any two values can be
/// compared, and that `a` and `b` are compared in lexicographic order: octet by octet, and a proper
/// prefix is smaller.
fn string_owned_partial_ordering(a: &StringOwned, b: &StringOwned) -> Option<Ordering>
    ensures { result ≡ Some (byte_order (owned_text a.now) (owned_text b.now)) }
{
    a.partial_cmp(b)
}
