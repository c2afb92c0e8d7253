//! The derived total orders of lengths, tags, tag numbers, classes, tagging modes and encoding
//! rules.
ghost use Rattle.std.specs.Prelude.{◌≡◌};
ghost use Rattle.std.specs.Ordering.{nat_cmp};
ghost use Rattle.der_base.specs.Class.{class_number};
ghost use Rattle.der_base.specs.Compare.{length_order, tag_order, mode_index, rules_index};

use crate::encoding_rules::EncodingRules;
use crate::length::Length;
use crate::tag::{Class, Tag, TagMode, TagNumber};
use std::cmp::Ordering;

/// Calls `Ord::cmp`. The contract of this function states that lengths are ordered by their numbers
/// of octets. If the numbers are equal, a definite length is less than an indefinite one.
fn length_ordering(a: Length, b: Length) -> Ordering
    ensures { result ≡ length_order a b }
{
    a.cmp(&b)
}

/// Calls `Ord::cmp`. The contract of this function states that tags are ordered by their variants
/// as declared, then by their constructed bits (primitive first), then by their numbers.
fn tag_ordering(tag: Tag, other: Tag) -> Ordering
    ensures { result ≡ tag_order tag other }
{
    tag.cmp(&other)
}

/// Calls `Ord::cmp`. The contract of this function states that tag numbers are ordered as numbers.
fn tag_number_ordering(a: TagNumber, b: TagNumber) -> Ordering
    ensures { result ≡ nat_cmp a.0 b.0 }
{
    a.cmp(&b)
}

/// Calls `Ord::cmp`. The contract of this function states that classes are ordered by the number in
/// their two class bits: UNIVERSAL is the least, then APPLICATION, CONTEXT-SPECIFIC and PRIVATE.
fn class_ordering(a: Class, b: Class) -> Ordering
    ensures { result ≡ nat_cmp (class_number a) (class_number b) }
{
    a.cmp(&b)
}

/// Calls `Ord::cmp`. The contract of this function states that `Explicit` is less than `Implicit`.
fn mode_ordering(a: TagMode, b: TagMode) -> Ordering
    ensures { result ≡ nat_cmp (mode_index a) (mode_index b) }
{
    a.cmp(&b)
}

/// Calls `Ord::cmp`. The contract of this function states that `Ber` is less than `Der`.
fn rules_ordering(a: EncodingRules, b: EncodingRules) -> Ordering
    ensures { result ≡ nat_cmp (rules_index a) (rules_index b) }
{
    a.cmp(&b)
}
