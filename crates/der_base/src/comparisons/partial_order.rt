//! The derived partial orders. Each compares any two values, and agrees with the total order.
ghost use Rattle.std.specs.Prelude.{◌≡◌, Some};
ghost use Rattle.std.specs.Ordering.{nat_cmp};
ghost use Rattle.der_base.specs.Class.{class_number};
ghost use Rattle.der_base.specs.Compare.{length_order, tag_order, mode_index, rules_index};

use crate::encoding_rules::EncodingRules;
use crate::length::Length;
use crate::tag::{Class, Tag, TagMode, TagNumber};
use std::cmp::Ordering;

/// Calls `PartialOrd::partial_cmp`. The contract of this function states that any two values can be
/// compared, and that lengths are ordered by their numbers of octets. If the numbers are equal, a
/// definite length is less than an indefinite one.
fn length_partial_ordering(a: Length, b: Length) -> Option<Ordering>
    ensures { result ≡ Some (length_order a b) }
{
    a.partial_cmp(&b)
}

/// Calls `PartialOrd::partial_cmp`. The contract of this function states that any two values can be
/// compared, and that tags are ordered by their variants as declared, then by their constructed
/// bits (primitive first), then by their numbers.
fn tag_partial_ordering(tag: Tag, other: Tag) -> Option<Ordering>
    ensures { result ≡ Some (tag_order tag other) }
{
    tag.partial_cmp(&other)
}

/// Calls `PartialOrd::partial_cmp`. The contract of this function states that any two values can be
/// compared, and that tag numbers are ordered as numbers.
fn tag_number_partial_ordering(a: TagNumber, b: TagNumber) -> Option<Ordering>
    ensures { result ≡ Some (nat_cmp a.0 b.0) }
{
    a.partial_cmp(&b)
}

/// Calls `PartialOrd::partial_cmp`. The contract of this function states that any two values can be
/// compared, and that classes are ordered by the number in their two class bits: UNIVERSAL is the
/// least, then APPLICATION, CONTEXT-SPECIFIC and PRIVATE.
fn class_partial_ordering(a: Class, b: Class) -> Option<Ordering>
    ensures { result ≡ Some (nat_cmp (class_number a) (class_number b)) }
{
    a.partial_cmp(&b)
}

/// Calls `PartialOrd::partial_cmp`. The contract of this function states that any two values can be
/// compared, and that `Explicit` is less than `Implicit`.
fn mode_partial_ordering(a: TagMode, b: TagMode) -> Option<Ordering>
    ensures { result ≡ Some (nat_cmp (mode_index a) (mode_index b)) }
{
    a.partial_cmp(&b)
}

/// Calls `PartialOrd::partial_cmp`. The contract of this function states that any two values can be
/// compared, and that `Ber` is less than `Der`.
fn rules_partial_ordering(a: EncodingRules, b: EncodingRules) -> Option<Ordering>
    ensures { result ≡ Some (nat_cmp (rules_index a) (rules_index b)) }
{
    a.partial_cmp(&b)
}
