//! Which values the type's `Hash` passes to a hasher.
ghost use Rattle.std.specs.Prelude.{◌≡◌, fold};
ghost use Rattle.std.specs.Hash as fed;
ghost use Rattle.der.specs.OctetsOrder.{counted_writes};
ghost use Rattle.der.specs.BytesOwned.{owned_octets};
ghost use Rattle.der.specs.BytesRef.{reference_octets};
ghost use Rattle.der.specs.StringOwned.{owned_text};
ghost use Rattle.der.specs.StringRef.{reference_text};

use crate::bytes::{BytesOwned, BytesRef};
use crate::string::{StringOwned, StringRef};
use std::hash::{Hash, Hasher};

/// Calls `Hash::hash`. The contract of this function states that a [`BytesRef`] is hashed like the
/// slice of its octets.
fn bytes_ref_hash<H: Hasher>(bytes: &BytesRef<'_>, state: &mut H)
    ensures { state.new ≡ fold H.write state.old (fed.slice fed.u8 (reference_octets bytes.now)) }
{
    bytes.hash(state);
}

/// Calls `Hash::hash`. The contract of this function states that a [`BytesOwned`] is hashed in two
/// parts: first its number of octets as a [`Length`](der_base::Length), then the slice of its
/// octets.
fn bytes_owned_hash<H: Hasher>(bytes: &BytesOwned, state: &mut H)
    ensures { state.new ≡ fold H.write state.old (counted_writes (owned_octets bytes.now)) }
{
    bytes.hash(state);
}

/// Calls `Hash::hash`. The contract of this function states that a [`StringRef`] is hashed like a
/// `str` with its text.
fn string_ref_hash<H: Hasher>(text: &StringRef<'_>, state: &mut H)
    ensures { state.new ≡ fold H.write state.old (fed.str (reference_text text.now)) }
{
    text.hash(state);
}

/// Calls `Hash::hash`. The contract of this function states that a [`StringOwned`] is hashed like a
/// `str` with its text.
fn string_owned_hash<H: Hasher>(text: &StringOwned, state: &mut H)
    ensures { state.new ≡ fold H.write state.old (fed.str (owned_text text.now)) }
{
    text.hash(state);
}
