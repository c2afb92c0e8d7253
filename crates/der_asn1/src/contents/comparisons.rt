//! Contracts of the comparisons that `derive` generates for [`AnyRef`] and [`DateTime`]. Each
//! function calls one of these comparisons. The contract of the function states what the comparison
//! returns. The functions exist for these contracts alone: no code calls them.
ghost use Rattle.std.specs.Prelude.{◌≡◌, ◌↔◌, IsTrue, Some};
ghost use Rattle.der_asn1.specs.AnyRef.{any_contents};
ghost use Rattle.der_asn1.specs.Times.{time_order};

use crate::elements::any::AnyRef;
use crate::times::date_time::DateTime;
use std::cmp::Ordering;

/// Calls `==`. The contract of this function states that two elements are equal if and only if they
/// have the same tag and the same contents octets.
fn any_equality<'a>(a: &AnyRef<'a>, b: &AnyRef<'a>) -> bool
    ensures { IsTrue result
        ↔ ((a.now.tag ≡ b.now.tag) × (any_contents a.now ≡ any_contents b.now)) }
{
    a == b
}

/// Calls `==`. The contract of this function states that two times are equal if and only if they
/// have the same date and the same time of day.
fn date_time_equality(a: DateTime, b: DateTime) -> bool
    ensures { IsTrue result ↔ (a ≡ b) }
{
    a == b
}

/// Calls `Ord::cmp`. The contract of this function states that the earlier time is less.
fn date_time_ordering(a: DateTime, b: DateTime) -> Ordering
    ensures { result ≡ time_order a b }
{
    a.cmp(&b)
}

/// Calls `PartialOrd::partial_cmp`. The contract of this function states that any two times can be
/// compared, and that the earlier time is less.
fn date_time_partial_ordering(a: DateTime, b: DateTime) -> Option<Ordering>
    ensures { result ≡ Some (time_order a b) }
{
    a.partial_cmp(&b)
}
