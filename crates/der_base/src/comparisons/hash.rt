//! What each value feeds to a hasher.
ghost use Rattle.std.specs.Prelude.{◌≡◌, ◌++◌, fold, IsTrue};
ghost use Rattle.std.specs.Hash as fed;
ghost use Rattle.der_base.specs.Compare.{tag_writes};
ghost use Rattle.der_base.specs.Length.{number, is_indefinite};

use crate::length::Length;
use crate::tag::{Tag, TagNumber};
use std::hash::{Hash, Hasher};

/// Calls `Hash::hash`. The contract of this function states that a [`Length`] is hashed in two
/// parts: first the number of octets, then the flag for the indefinite form.
fn length_hash<H: Hasher>(length: Length, state: &mut H)
    ensures { state.new
        ≡ fold H.write state.old (fed.u32 (number length) ++ fed.bool (is_indefinite length)) }
{
    length.hash(state);
}

/// Hashes `a` with the hasher `state` and `b` with the hasher `other`, and returns whether `a`
/// equals `b`. The contract states that equal lengths hash equally: if `a` equals `b`, and the two
/// hashers are equal before the call, then the two hashers are equal after the call.
fn equal_lengths_hash_equally<H: Hasher>(a: Length, b: Length, state: &mut H, other: &mut H) -> bool
    ensures { IsTrue result → state.old ≡ other.old → state.new ≡ other.new }
{
    a.hash(state);
    b.hash(other);
    a == b
}

/// Calls `Hash::hash`. The contract of this function states that a [`TagNumber`] is hashed as its
/// number, a `u32`.
fn tag_number_hash<H: Hasher>(number: TagNumber, state: &mut H)
    ensures { state.new ≡ fold H.write state.old (fed.u32 number.0) }
{
    number.hash(state);
}

/// Calls `Hash::hash`. The contract of this function states that a [`Tag`] is hashed as the index
/// of its variant in the declaration. If the variant has the fields `constructed` and `number`,
/// they are hashed after the index, in this order.
fn tag_hash<H: Hasher>(tag: Tag, state: &mut H)
    ensures { state.new ≡ fold H.write state.old (tag_writes tag) }
{
    tag.hash(state);
}
