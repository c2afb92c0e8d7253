//! Listing the arcs of an OBJECT IDENTIFIER, for C.
ghost use Rattle.std.specs.Prelude.{◌≡◌, ◌↔◌, ◌≤◌, ◌^◌, ◌-◌, ◌++◌, true, length, map, min, drop, IsSome, IfSome};
ghost use Rattle.der_asn1.specs.Arcs.{arc_items};
ghost use Rattle.der_c_values.specs.Dotted.{all_fit};
ghost use Rattle.der_c_values.specs.OidArcs.{GivesArcs, narrow_item, item_numbers};

use crate::refusal::{OVERFLOW, OVERLENGTH, value_error};
use der_asn1::{Arcs, ObjectIdentifierRef};
use der_c_core::DerError;

/// Writes the arcs of an OBJECT IDENTIFIER to the start of `arcs`, for example 2, 5, 29 and 17 for
/// `2.5.29.17`. Sets `count` to the number of arcs. `oid` are the contents octets of the OBJECT
/// IDENTIFIER (X.690 8.19). There is at most one arc more than `oid` has octets.
///
/// A call that fails leaves `arcs` and `count` unchanged. Fails without a position with:
///
/// - `Value` with the tag OBJECT IDENTIFIER, if `oid` are not contents of an OBJECT IDENTIFIER;
/// - `Overflow`, if an arc does not fit in 64 bits;
/// - `Overlength`, if there are more arcs than `arcs` has items.
pub fn der_oid_arcs(oid: &[u8], arcs: &mut [u64], count: &mut usize) -> DerError
    ensures { GivesArcs oid.now result arcs.old arcs.new count.old count.new }
{
    let Some(oid) = ObjectIdentifierRef::new(oid) else {
        return value_error(0x06);
    };
    let all = oid.arcs();
    let Ok(copy) = all.clone() else {
        unreachable!()
    };
    let Some(number) = count_arcs(copy) else {
        return OVERFLOW;
    };
    if number > arcs.len() {
        return OVERLENGTH;
    }
    *count = put_numbers(all, arcs);
    DerError::NONE
}

// How many arcs there are; `None` if one does not fit in 64 bits.
fn count_arcs(arcs: Arcs<'_>) -> Option<usize>
    ensures fits { IsSome result ↔ (all_fit (map narrow_item (arc_items arcs.entry)) ≡ true) }
    ensures count { IfSome result (λ n. n ≡ min (length (arc_items arcs.entry)) (2 ^ 64 - 1)) }
{
    let mut count: usize = 0;
    for arc in arcs {
        narrow(arc)?;
        count = count.saturating_add(1);
    }
    Some(count)
}

// Writes the arcs to the start of `numbers`, and returns how many they are. An arc that does not
// fit in 64 bits is written as 0.
fn put_numbers(arcs: Arcs<'_>, numbers: &mut [u64]) -> usize
    requires { length (arc_items arcs) ≤ length numbers.old }
    ensures count { result ≡ length (arc_items arcs.entry) }
    ensures numbers { numbers.new ≡ item_numbers (arc_items arcs.entry)
        ++ drop result numbers.old }
{
    let mut at = 0;
    for arc in arcs {
        numbers[at] = narrow(arc).unwrap_or(0);
        at += 1;
    }
    at
}

// The arc, if it fits in 64 bits.
fn narrow(arc: Option<u128>) -> Option<u64>
    ensures { result ≡ narrow_item arc }
{
    match arc {
        Some(number) if number <= u64::MAX as u128 => Some(number as u64),
        _ => None,
    }
}
