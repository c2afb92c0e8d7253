//! REAL values that are encoded in decimal digits.
ghost use Rattle.std.specs.Prelude.{◌≡◌, ◌&&◌, ◌==◌, not, slice_index_or};
ghost use Rattle.schema_rules.specs.Decimal.{after_minus, is_shortest_exponent, is_der_exponent};
ghost use Rattle.schema_rules.specs.Decimal.{is_der_unsigned, is_number};
ghost use Rattle.schema_rules.specs.Real.{decimal_field_form, nr3_form, short_decimal_form};

use crate::decimal_text::{is_decimal, is_number};
use crate::digits::{after_digits, digit_count};

// Whether the field of a decimal REAL has the form that the first octet says.
pub(crate) fn has_decimal_form(contents: &[u8]) -> bool
    ensures { result ≡ decimal_field_form contents.now }
{
    match contents {
        [] => true,
        [first, field @ ..] => *first >= 0x40 || is_decimal(*first, field),
    }
}

// Whether a decimal REAL has the form NR3.
pub(crate) fn has_nr3_form(contents: &[u8]) -> bool
    ensures { result ≡ nr3_form contents.now }
{
    match contents {
        [] => true,
        [first, ..] => *first >= 0x40 || *first == 3,
    }
}

// Whether the field of a decimal REAL has the shortest spelling.
pub(crate) fn has_short_decimal(contents: &[u8]) -> bool
    ensures { result ≡ short_decimal_form contents.now }
{
    match contents {
        [] => true,
        [first, field @ ..] => *first >= 0x40 || is_short(after_minus(field)),
    }
}

// The octets without a minus sign at the front.
fn after_minus(octets: &[u8]) -> &[u8]
    ensures { result.now ≡ after_minus octets.now }
{
    match octets {
        [b'-', others @ ..] => others,
        _ => octets,
    }
}

// Whether the octets are digits of which neither the first nor the last is 0, a full stop, and the
// exponent.
fn is_short(octets: &[u8]) -> bool
    ensures { result ≡ is_der_unsigned octets.now }
{
    let count = digit_count(octets);
    if count == 0 || octets[0] == b'0' || octets[count - 1] == b'0' {
        return false;
    }
    is_stop_and_exponent(after_digits(octets))
}

// Whether the octets are a full stop and the exponent.
fn is_stop_and_exponent(octets: &[u8]) -> bool
    ensures { result ≡ is_der_exponent octets.now }
{
    match octets {
        [b'.', b'E', exponent @ ..] => is_short_exponent(exponent),
        _ => false,
    }
}

// Whether the octets are `+0`, or a number that does not begin with 0 and may have a minus sign.
fn is_short_exponent(octets: &[u8]) -> bool
    ensures { result ≡ is_shortest_exponent octets.now }
{
    match octets {
        [] => false,
        [b'+', others @ ..] => matches!(others, [b'0']),
        _ => begins_without_zero(after_minus(octets)),
    }
}

// Whether the octets are a number that does not begin with 0.
fn begins_without_zero(octets: &[u8]) -> bool
    ensures { result ≡ (is_number octets.now && not (slice_index_or octets.now 0 0 == 48)) }
{
    is_number(octets) && octets[0] != b'0'
}
