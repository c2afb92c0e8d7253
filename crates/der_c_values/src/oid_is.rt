//! Comparing an OBJECT IDENTIFIER with dotted notation, for C.
ghost use Rattle.std.specs.Prelude.{◌≡◌, ◌+◌, ◌≤◌, ◌∷◌, [], ◌++◌, List, ℕ, true, false, length, drop, IfSome, IfNone};
ghost use Rattle.der_asn1.specs.Arcs.{arc_items};
ghost use Rattle.der_c_values.specs.Dotted.{ComparesOid, items_text, all_fit};

use crate::decimal::Decimal;
use der_asn1::{Arcs, ObjectIdentifierRef};

/// Whether `oid` is the OBJECT IDENTIFIER with the dotted notation `text`, such as `2.5.29.17`.
/// `oid` are the contents octets (X.690 8.19). `text` has no final zero octet, and no leading zeros
/// in its numbers.
///
/// The result is false if a subidentifier of `oid` does not fit in 128 bits.
pub fn der_oid_is(oid: &[u8], text: &[u8]) -> bool
    ensures { ComparesOid oid.now text.now result }
{
    match ObjectIdentifierRef::new(oid) {
        Some(oid) => are_arcs(oid.arcs(), text),
        None => false,
    }
}

// Whether the text is these arcs in decimal, with dots between them.
fn are_arcs(arcs: Arcs<'_>, text: &[u8]) -> bool
    ensures is { result ≡ true → (all_fit (arc_items arcs.entry) ≡ true)
        × (items_text (arc_items arcs.entry) ≡ text.now ++ 46 ∷ []) }
    ensures is_not { result ≡ false → all_fit (arc_items arcs.entry) ≡ true
        → items_text (arc_items arcs.entry) ≡ text.now ++ 46 ∷ [] → ⊥ }
{
    let mut at = 0;
    for arc in arcs {
        let Some(number) = arc else {
            return false;
        };
        match match_number(text, at, Decimal::new(number).as_slice()) {
            Some(end) => at = end,
            None => return false,
        }
    }
    at == text.len() + 1
}

// The place after these digits and a dot, if they are at this place; the end of the text counts as
// a dot.
fn match_number(text: &[u8], at: usize, digits: &[u8]) -> Option<usize>
    ensures some { IfSome result (λ end. (end ≤ length text.now + 1)
        × (drop at (text.now ++ 46 ∷ []) ≡ digits.now ++ 46 ∷ drop end (text.now ++ 46 ∷ []))) }
    ensures none { IfNone result ((more : List ℕ)
        → drop at (text.now ++ 46 ∷ []) ≡ digits.now ++ 46 ∷ more → ⊥) }
{
    if at > text.len() || digits.len() > text.len() - at {
        return None;
    }
    let end = at + digits.len();
    if &text[at..end] != digits {
        return None;
    }
    if end < text.len() && text[end] != b'.' {
        return None;
    }
    Some(end + 1)
}
