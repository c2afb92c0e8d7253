//! Writing OBJECT IDENTIFIERs in dotted notation, for C.
ghost use Rattle.std.specs.Prelude.{◌≡◌, ◌↔◌, ◌+◌, ◌^◌, ◌-◌, ◌≤◌, true, ◌++◌, length, take, drop, min, IsSome, IfSome};
ghost use Rattle.der_asn1.specs.Arcs.{arc_items};
ghost use Rattle.der_c_values.specs.Dotted.{GivesOidText, items_text, all_fit};

use crate::decimal::Decimal;
use crate::refusal::{OVERFLOW, OVERLENGTH, value_error};
use der_asn1::{Arcs, ObjectIdentifierRef};
use der_c_core::DerError;

/// Converts an OBJECT IDENTIFIER to dotted notation, such as `2.5.29.17`. `oid` are the contents
/// octets (X.690 8.19). Writes the dotted notation and a final zero octet to the start of `text`.
/// Sets `count` to the number of octets of the dotted notation, without the zero octet.
///
/// A call that fails leaves `text` and `count` unchanged. Fails without a position with:
///
/// - `Value` with the tag OBJECT IDENTIFIER, if `oid` are not contents of an OBJECT IDENTIFIER;
/// - `Overflow`, if a subidentifier does not fit in 128 bits;
/// - `Overlength`, if `text` is too short.
pub fn der_oid_text(oid: &[u8], text: &mut [u8], count: &mut usize) -> DerError
    ensures { GivesOidText oid.now result text.old text.new count.old count.new }
{
    let Some(oid) = ObjectIdentifierRef::new(oid) else {
        return value_error(0x06);
    };
    let arcs = oid.arcs();
    let Ok(copy) = arcs.clone() else {
        unreachable!()
    };
    let Some(length) = text_length(copy) else {
        return OVERFLOW;
    };
    if length > text.len() as u128 {
        return OVERLENGTH;
    }
    let end = put_arcs(arcs, text);
    text[end - 1] = 0;
    *count = end - 1;
    DerError::NONE
}

// How many octets the arcs have in decimal, with a dot after each; `None` if one does not fit in
// 128 bits.
fn text_length(arcs: Arcs<'_>) -> Option<u128>
    ensures fits { IsSome result ↔ (all_fit (arc_items arcs.entry) ≡ true) }
    ensures count { IfSome result (λ n. n ≡ min (length (items_text (arc_items arcs.entry)))
        (2 ^ 128 - 1)) }
{
    let mut count: u128 = 0;
    for arc in arcs {
        let number = arc?;
        let octets = Decimal::new(number).as_slice().len() + 1;
        count = count.saturating_add(octets as u128);
    }
    Some(count)
}

// Writes the arcs in decimal, with a dot after each, to the start of `text`, and returns how many
// octets these are. An arc that does not fit in 128 bits is left out.
fn put_arcs(arcs: Arcs<'_>, text: &mut [u8]) -> usize
    requires { length (items_text (arc_items arcs)) ≤ length text.old }
    ensures count { result ≡ length (items_text (arc_items arcs.entry)) }
    ensures text { text.new ≡ items_text (arc_items arcs.entry) ++ drop result text.old }
{
    let mut at = 0;
    for arc in arcs {
        if let Some(number) = arc {
            at = put(text, at, Decimal::new(number).as_slice());
            at = put(text, at, b".");
        }
    }
    at
}

// Writes octets at a place, and returns the place after them.
fn put(text: &mut [u8], at: usize, octets: &[u8]) -> usize
    requires { at + length octets.now ≤ length text.old }
    ensures end { result ≡ at + length octets.now }
    ensures size { length text.new ≡ length text.old }
    ensures text { take result text.new ≡ take at text.old ++ octets.now }
    ensures following { drop result text.new ≡ drop result text.old }
{
    let end = at + octets.len();
    text[at..end].copy_from_slice(octets);
    end
}
