//! Properties of the values of extensions.
ghost use Rattle.std.specs.Prelude.{◌≡◌, ◌∷◌, ◌↔◌, ℕ, List, ◌<◌, EachIndex, false, length, true, IsTrue};
ghost use Rattle.der_asn1.specs.ContextSpecific.{context_tag};
ghost use Rattle.der_asn1.specs.NamedBits.{has_bit};
ghost use Rattle.x509_lint.specs.Values.{AreZero, BeginsWithTrue, HasAuthority, HasBoth, HasCertSign, HasMixedKinds, HasPart, HasUsage, IsLongNumber, IsNotNegative};

use crate::elements::{contents_with, each_of_sequence};
use crate::forms::context;
use crate::part_test::{PartTest, has_minus_sign};
use der::Tag;
use std::alloc::Global;

/// Whether `octets` are the encoding of a SEQUENCE with a component that has the tag `tag`.
pub fn has_part(alloc: Global, octets: &[u8], tag: Tag) -> bool
    ensures { IsTrue result ↔ HasPart tag octets.now }
{
    !each_of_sequence(alloc, octets, &PartTest::NotTagged(tag))
}

/// Whether `octets` are the value of a basicConstraints whose cA is true (RFC 5280, 4.2.1.9).
pub fn has_authority(alloc: Global, octets: &[u8]) -> bool
    ensures { IsTrue result ↔ HasAuthority octets.now }
{
    match contents_with(alloc, octets, Tag::Sequence) {
        Some(contents) => begins_with_true(contents),
        None => false,
    }
}

fn begins_with_true(contents: &[u8]) -> bool
    ensures { IsTrue result ↔ BeginsWithTrue contents.now }
{
    matches!(contents, [0x01, 0x01, 0xFF, ..])
}

/// Whether `octets` are the value of a keyUsage with the bit keyCertSign (RFC 5280, 4.2.1.3).
pub fn has_cert_sign(alloc: Global, octets: &[u8]) -> bool
    ensures { IsTrue result ↔ HasCertSign octets.now }
{
    match contents_with(alloc, octets, Tag::BitString) {
        Some(contents) => has_bit_5(contents),
        None => false,
    }
}

fn has_bit_5(contents: &[u8]) -> bool
    ensures { result ≡ has_bit 5 contents.now }
{
    match contents {
        [_, octet, ..] => *octet / 4 % 2 == 1,
        _ => false,
    }
}

/// Whether one of the bits of a BIT STRING is one, as a keyUsage requires (RFC 5280, 4.2.1.3).
/// `octets` are the encoding of the BIT STRING. Also true if `octets` are not the encoding of a BIT
/// STRING.
pub fn has_usage(alloc: Global, octets: &[u8]) -> bool
    ensures { IsTrue result ↔ HasUsage octets.now }
{
    match contents_with(alloc, octets, Tag::BitString) {
        Some(contents) => !are_zero(contents),
        None => true,
    }
}

// Whether all octets behind the first are zero.
fn are_zero(contents: &[u8]) -> bool
    ensures { IsTrue result ↔ AreZero contents.now }
{
    for at in 1..contents.len() {
        if contents[at] != 0 {
            return false;
        }
    }
    true
}

/// False if `octets` are the encoding of a negative INTEGER, otherwise true.
pub fn is_not_negative(alloc: Global, octets: &[u8]) -> bool
    ensures { IsTrue result ↔ IsNotNegative octets.now }
{
    match contents_with(alloc, octets, Tag::Integer) {
        Some(contents) => !has_minus_sign(contents),
        None => true,
    }
}

/// Whether `octets` are the encoding of an INTEGER with more than 20 contents octets (RFC 5280,
/// 5.2.3).
pub fn is_long_number(alloc: Global, octets: &[u8]) -> bool
    ensures { IsTrue result ↔ IsLongNumber octets.now }
{
    match contents_with(alloc, octets, Tag::Integer) {
        Some(contents) => is_longer_than_20(contents),
        None => false,
    }
}

fn is_longer_than_20(contents: &[u8]) -> bool
    ensures { IsTrue result ↔ (20 < length contents.now) }
{
    contents.len() > 20
}

/// Whether `octets` are the value of an issuingDistributionPoint with more than one of the fields
/// onlyContainsUserCerts, onlyContainsCACerts and onlyContainsAttributeCerts (RFC 5280, 5.2.5).
#[tactic(auto, unfolding(crate::specs::Values::HasMixedKinds))]
pub fn has_mixed_kinds(alloc: Global, octets: &[u8]) -> bool
    ensures { IsTrue result ↔ HasMixedKinds octets.now }
{
    has_both(alloc, octets, 1, 2) || has_both(alloc, octets, 1, 5) || has_both(alloc, octets, 2, 5)
}

// Whether a SEQUENCE has elements with both tags.
fn has_both(alloc: Global, octets: &[u8], first: u32, second: u32) -> bool
    ensures { IsTrue result ↔ HasBoth first second octets.now }
{
    has_field(alloc, octets, first) && has_field(alloc, octets, second)
}

fn has_field(alloc: Global, octets: &[u8], number: u32) -> bool
    ensures { IsTrue result ↔ HasPart (context_tag false number) octets.now }
{
    has_part(alloc, octets, context(false, number))
}
