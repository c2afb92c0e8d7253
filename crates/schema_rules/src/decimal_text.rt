//! Numbers in decimal digits (ISO 6093).
ghost use Rattle.std.specs.Prelude.{◌≡◌, drop};
ghost use Rattle.schema_rules.specs.Decimal.{after_spaces, after_sign, is_number, after_fraction};
ghost use Rattle.schema_rules.specs.Decimal.{begins_with_mark, begins_with_fraction, is_exponent};
ghost use Rattle.schema_rules.specs.Decimal.{is_unsigned, decimal_form, is_nonzero_decimal};

use crate::digits::{after_digits, are_digits, digit_count};

// The octets from the first one that is no space.
fn after_spaces(octets: &[u8]) -> &[u8]
    ensures { result.now ≡ after_spaces octets.now }
{
    let mut left = octets;
    while let [b' ', others @ ..] = left {
        left = others;
    }
    left
}

// The octets without a sign at the front.
fn after_sign(octets: &[u8]) -> &[u8]
    ensures { result.now ≡ after_sign octets.now }
{
    match octets {
        [b'+' | b'-', others @ ..] => others,
        _ => octets,
    }
}

// Whether the octets are digits, one at least.
pub(crate) fn is_number(octets: &[u8]) -> bool
    ensures { result ≡ is_number octets.now }
{
    !octets.is_empty() && are_digits(octets, octets.len())
}

// The octets without the first one, if there is one.
pub(crate) fn after_first(octets: &[u8]) -> &[u8]
    ensures { result.now ≡ drop 1 octets.now }
{
    match octets {
        [] => octets,
        [_, others @ ..] => others,
    }
}

// The octets after a decimal mark and the digits after it.
pub(crate) fn after_fraction(octets: &[u8]) -> &[u8]
    ensures { result.now ≡ after_fraction octets.now }
{
    after_digits(after_first(octets))
}

// Whether the first octet is a decimal mark.
pub(crate) fn begins_with_mark(octets: &[u8]) -> bool
    ensures { result ≡ begins_with_mark octets.now }
{
    match octets {
        [] => false,
        [first, ..] => *first == b',' || *first == b'.',
    }
}

// Whether the octets begin with a number that has a decimal mark.
fn begins_with_fraction(octets: &[u8]) -> bool
    ensures { result ≡ begins_with_fraction octets.now }
{
    let rest = after_digits(octets);
    begins_with_mark(rest) && (digit_count(octets) > 0 || digit_count(after_first(rest)) > 0)
}

// Whether the octets are E and a number.
fn is_exponent(octets: &[u8]) -> bool
    ensures { result ≡ is_exponent octets.now }
{
    match octets {
        [] => false,
        [first, others @ ..] => (*first == b'E' || *first == b'e') && is_number(after_sign(others)),
    }
}

// Whether the octets are an unsigned number of the form NR1, NR2 or NR3.
fn is_unsigned(form: u8, octets: &[u8]) -> bool
    ensures { result ≡ is_unsigned form octets.now }
{
    if form == 1 {
        return is_number(octets);
    }
    if !begins_with_fraction(octets) {
        return false;
    }
    let rest = after_fraction(after_digits(octets));
    if form == 2 {
        return rest.is_empty();
    }
    form == 3 && is_exponent(rest)
}

// Whether the octets are a number of the form NR1, NR2 or NR3, after spaces.
pub(crate) fn is_decimal(form: u8, octets: &[u8]) -> bool
    ensures { result ≡ decimal_form form octets.now }
{
    is_unsigned(form, after_sign(after_spaces(octets)))
}

// Whether the number before the exponent has a digit other than 0.
pub(crate) fn is_nonzero_decimal(octets: &[u8]) -> bool
    ensures { result ≡ is_nonzero_decimal octets.now }
{
    for octet in octets {
        match *octet {
            b'E' | b'e' => return false,
            b'1'..=b'9' => return true,
            _ => {}
        }
    }
    false
}
