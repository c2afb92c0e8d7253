//! Numbers that are encoded as an INTEGER.
ghost use Rattle.std.specs.Prelude.{◌≡◌, ◌↔◌, ◌+◌, ◌^◌, ◌<◌, false, true, ℕ, Bool, List, drop, map};
ghost use Rattle.std.specs.Prelude.{IsSome, IfSome, OnSome};
ghost use Rattle.std.specs.Option.{SomeIff};
ghost use Rattle.std.specs.Int.Digits.{number_from_digits, AllBelowBase};
ghost use Rattle.der_asn1.specs.Integer.{integer_octets, signed_octets, is_negative, magnitude};
ghost use Rattle.der_asn1.specs.Integer.{signed_form, unsigned_form, turned};

use crate::contents::grammar::ContentsGrammar;
use crate::numbers::integer::IntegerGrammar;
use crate::numbers::integer_octets::{IntegerOctets, turned_octet};

/// Types of numbers that are encoded as an INTEGER (X.690 8.3): `u8`, `u32`, `u64`, `i64`, numbers
/// within bounds, and items of an enumeration.
///
/// Ghost members (for proofs only): `grammar` says which octets are the INTEGER contents of a
/// number of this type; `contents_of` gives the contents octets of each number.
pub trait IntegerNumber: Copy {
    ghost grammar: { List ℕ → Bool };

    ghost contents_of: { Self → List ℕ };

    /// The number whose INTEGER contents are `octets`; `None` if no number of this type has these
    /// contents.
    fn from_contents(octets: &[u8]) -> Option<Self>
        ensures some { IsSome result ↔ (grammar octets.now ≡ true) }
        ensures same { IfSome result (λ v. contents_of v ≡ octets.now) };

    /// The contents octets of the INTEGER that encodes `self`.
    fn to_contents(self) -> IntegerOctets
        ensures octets { drop result.start result.octets ≡ contents_of self }
        ensures formed { grammar (contents_of self) ≡ true };
}

impl IntegerNumber for u8 {
    ghost grammar = { unsigned_form (2 ^ 8) };

    ghost contents_of = { integer_octets false };

    fn from_contents(octets: &[u8]) -> Option<Self> {
        match read_number(octets, 0xFF) {
            Some((false, number)) => Some(number as u8),
            _ => None,
        }
    }

    fn to_contents(self) -> IntegerOctets {
        IntegerOctets::new(false, self as u64)
    }
}

impl IntegerNumber for u32 {
    ghost grammar = { unsigned_form (2 ^ 32) };

    ghost contents_of = { integer_octets false };

    fn from_contents(octets: &[u8]) -> Option<Self> {
        match read_number(octets, 0xFFFF_FFFF) {
            Some((false, number)) => Some(number as u32),
            _ => None,
        }
    }

    fn to_contents(self) -> IntegerOctets {
        IntegerOctets::new(false, self as u64)
    }
}

impl IntegerNumber for u64 {
    ghost grammar = { unsigned_form (2 ^ 64) };

    ghost contents_of = { integer_octets false };

    fn from_contents(octets: &[u8]) -> Option<Self> {
        match read_number(octets, 0xFFFF_FFFF_FFFF_FFFF) {
            Some((false, number)) => Some(number),
            _ => None,
        }
    }

    fn to_contents(self) -> IntegerOctets {
        IntegerOctets::new(false, self)
    }
}

impl IntegerNumber for i64 {
    ghost grammar = { signed_form (2 ^ 63) };

    ghost contents_of = { signed_octets };

    fn from_contents(octets: &[u8]) -> Option<Self> {
        match read_number(octets, 0x7FFF_FFFF_FFFF_FFFF) {
            Some((false, number)) => Some(number as i64),
            Some((true, number)) => Some(-1 - number as i64),
            None => None,
        }
    }

    fn to_contents(self) -> IntegerOctets {
        if self < 0 {
            IntegerOctets::new(true, (-1 - self) as u64)
        } else {
            IntegerOctets::new(false, self as u64)
        }
    }
}

// The sign and magnitude of INTEGER contents: `(false, n)` for n, `(true, n)` for -1 - n. `None` if
// n is above `most`, or if the octets are not valid contents of an INTEGER.
fn read_number(octets: &[u8], most: u64) -> Option<(bool, u64)>
    ensures some { IsSome result ↔ (signed_form (most + 1) octets.now ≡ true) }
    ensures value { IfSome result (λ p. (p.0 ≡ is_negative octets.now)
        × (p.1 ≡ magnitude octets.now)) }
    ensures same { IfSome result (λ p. integer_octets p.0 p.1 ≡ octets.now) }
{
    if !IntegerGrammar::matches_grammar(octets) {
        return None;
    }
    let negative = is_below_zero(octets);
    let number = magnitude_of(negative, octets)?;
    if number > most {
        return None;
    }
    Some((negative, number))
}

// Whether the first bit of the octets is one.
fn is_below_zero(octets: &[u8]) -> bool
    ensures { result ≡ is_negative octets.now }
{
    match octets {
        [] => false,
        [first, ..] => *first >= 0x80,
    }
}

// The octets as a number in base 256, with all bits inverted if `negative`; `None` from 2^64 on.
fn magnitude_of(negative: bool, octets: &[u8]) -> Option<u64>
    ensures value { SomeIff result
        (number_from_digits 256 (map (turned negative) octets.now) < 2 ^ 64)
        (number_from_digits 256 (map (turned negative) octets.now)) }
    ensures octets { OnSome result (AllBelowBase 256 octets.now) }
{
    let mut number: u64 = 0;
    for octet in octets {
        if number >= 0x100_0000_0000_0000 {
            return None;
        }
        number = number * 256 + turned_octet(negative, *octet) as u64;
    }
    Some(number)
}
