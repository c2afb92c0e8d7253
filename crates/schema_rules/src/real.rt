//! REAL.
ghost use Rattle.std.specs.Prelude.{◌≡◌};
ghost use Rattle.schema_rules.specs.Real.{is_special, special_form, base_form};
ghost use Rattle.schema_rules.specs.Real.{is_counted, exponent_size, after_count, exponent_of};
ghost use Rattle.schema_rules.specs.Real.{mantissa_of, has_exponent, exponent_form, is_nonzero};
ghost use Rattle.schema_rules.specs.Real.{nonzero_form, base_two_form, short_exponent_form};
ghost use Rattle.schema_rules.specs.Real.{is_odd, is_shortest_odd, odd_form};

use crate::decimal_text::{after_first, is_nonzero_decimal};
use der_asn1::{ContentsGrammar, IntegerGrammar};

// Whether the first octet announces a special value.
fn is_special(first: u8) -> bool
    ensures { result ≡ is_special first }
{
    0x40 <= first && first < 0x80
}

// Whether the octets of the exponent are counted by the octet before them.
fn is_counted(first: u8) -> bool
    ensures { result ≡ is_counted first }
{
    first % 4 == 3
}

// Whether a special value is one of the four.
pub(crate) fn has_special_form(contents: &[u8]) -> bool
    ensures { result ≡ special_form contents.now }
{
    match contents {
        [] => true,
        [first] => !is_special(*first) || *first < 0x44,
        [first, ..] => !is_special(*first),
    }
}

// Whether the base of the binary form is not the reserved one.
pub(crate) fn has_base(contents: &[u8]) -> bool
    ensures { result ≡ base_form contents.now }
{
    match contents {
        [] => true,
        [first, ..] => *first < 0x80 || *first / 16 % 4 != 3,
    }
}

// Whether the base of the binary form is 2, and its scaling factor zero.
pub(crate) fn has_base_two(contents: &[u8]) -> bool
    ensures { result ≡ base_two_form contents.now }
{
    match contents {
        [] => true,
        [first, ..] => *first < 0x80 || *first / 4 % 16 == 0,
    }
}

// The number of octets of the exponent.
fn exponent_size(first: u8, octets: &[u8]) -> usize
    ensures { result ≡ exponent_size first octets.now }
{
    if !is_counted(first) {
        return (first % 4) as usize + 1;
    }
    match octets {
        [] => 0,
        [count, ..] => *count as usize,
    }
}

// The octets after the first one and the number of octets of the exponent.
fn after_count(first: u8, octets: &[u8]) -> &[u8]
    ensures { result.now ≡ after_count first octets.now }
{
    if is_counted(first) {
        after_first(octets)
    } else {
        octets
    }
}

// The octets of the exponent, as far as they are there.
fn exponent_of(first: u8, octets: &[u8]) -> &[u8]
    ensures { result.now ≡ exponent_of first octets.now }
{
    let size = exponent_size(first, octets);
    let left = after_count(first, octets);
    if size < left.len() {
        &left[..size]
    } else {
        left
    }
}

// The octets of the mantissa.
fn mantissa_of(first: u8, octets: &[u8]) -> &[u8]
    ensures { result.now ≡ mantissa_of first octets.now }
{
    let size = exponent_size(first, octets);
    let left = after_count(first, octets);
    if size < left.len() {
        &left[size..]
    } else {
        &[]
    }
}

// Whether the exponent is whole, and has the fewest octets if these are counted.
fn has_exponent(first: u8, octets: &[u8]) -> bool
    ensures { result ≡ has_exponent first octets.now }
{
    let size = exponent_size(first, octets);
    size > 0
        && size <= after_count(first, octets).len()
        && (!is_counted(first) || IntegerGrammar::matches_grammar(exponent_of(first, octets)))
}

// The same of the binary form alone.
pub(crate) fn has_whole_exponent(contents: &[u8]) -> bool
    ensures { result ≡ exponent_form contents.now }
{
    match contents {
        [] => true,
        [first, octets @ ..] => *first < 0x80 || has_exponent(*first, octets),
    }
}

// Whether the exponent of the binary form has the fewest octets.
pub(crate) fn has_short_exponent(contents: &[u8]) -> bool
    ensures { result ≡ short_exponent_form contents.now }
{
    match contents {
        [] => true,
        [first, octets @ ..] => {
            *first < 0x80
                || IntegerGrammar::matches_grammar(exponent_of(*first, octets))
                    && (!is_counted(*first) || exponent_size(*first, octets) > 3)
        }
    }
}

// Whether the value is not zero, or is the special value minus zero.
pub(crate) fn has_value(contents: &[u8]) -> bool
    ensures { result ≡ nonzero_form contents.now }
{
    match contents {
        [] => true,
        [first, octets @ ..] if *first >= 0x80 => is_nonzero(mantissa_of(*first, octets)),
        [first, octets @ ..] => is_special(*first) || is_nonzero_decimal(octets),
    }
}

// Whether one of the octets is not zero.
fn is_nonzero(octets: &[u8]) -> bool
    ensures { result ≡ is_nonzero octets.now }
{
    for octet in octets {
        if *octet != 0 {
            return true;
        }
    }
    false
}

// Whether the mantissa of the binary form is odd, and has the fewest octets.
pub(crate) fn has_odd_mantissa(contents: &[u8]) -> bool
    ensures { result ≡ odd_form contents.now }
{
    match contents {
        [] => true,
        [first, octets @ ..] => *first < 0x80 || is_shortest_odd(mantissa_of(*first, octets)),
    }
}

// Whether the octets are an odd number in the fewest octets.
fn is_shortest_odd(octets: &[u8]) -> bool
    ensures { result ≡ is_shortest_odd octets.now }
{
    match octets {
        [] => false,
        [first, ..] => *first != 0 && is_odd(octets),
    }
}

// Whether the last octet is odd.
fn is_odd(octets: &[u8]) -> bool
    ensures { result ≡ is_odd octets.now }
{
    match octets {
        [] => false,
        [.., last] => *last % 2 == 1,
    }
}
