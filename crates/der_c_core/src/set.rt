//! Sorting the elements of a SET OF, for C.
ghost use Rattle.std.specs.Prelude.{◌≡◌, IsPermutation, length};
ghost use Rattle.der_base.specs.Order.{byte_order};
ghost use Rattle.der_c_core.specs.SetOrder.{SpansAscend};

use crate::span::DerSpan;
use std::cmp::Ordering;

/// Sorts `elements` in ascending order of their octets. This is the order of a SET OF (X.690 11.6).
/// Each span must be the encoding of one element; this is not checked. Equal elements are all kept.
///
/// Cannot fail. Moves only the spans, not the octets that the spans point to.
pub fn der_sort_set(elements: &mut [DerSpan<'_>])
    ensures same { IsPermutation elements.old elements.new }
    ensures count { length elements.new ≡ length elements.old }
    ensures sorted { SpansAscend elements.new }
{
    elements.sort_unstable_by(octets_order);
}

// The order of two elements by their encodings.
#[inline(always)]
fn octets_order(a: &DerSpan<'_>, b: &DerSpan<'_>) -> Ordering
    ensures { result ≡ byte_order a.now.octets.now b.now.octets.now }
{
    a.octets.cmp(b.octets)
}
