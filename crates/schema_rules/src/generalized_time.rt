//! GeneralizedTime.
ghost use Rattle.std.specs.Prelude.{◌≡◌};
ghost use Rattle.schema_rules.specs.GeneralizedTime.{has_fraction, fraction_digits, zone_of, zone_form};
ghost use Rattle.schema_rules.specs.GeneralizedTime.{generalized_time_form, generalized_time_exists};
ghost use Rattle.schema_rules.specs.GeneralizedTime.{generalized_time_ends_in_z, generalized_time_has_seconds};
ghost use Rattle.schema_rules.specs.GeneralizedTime.{has_short_fraction, has_full_stop};

use crate::decimal_text::{after_first, after_fraction, begins_with_mark};
use crate::digits::{after_digits, digit_count};
use crate::zone::{exists_date, exists_offset, exists_time, is_offset, is_z, octet_at, two_at};

// Whether there is a fraction.
fn has_fraction(contents: &[u8]) -> bool
    ensures { result ≡ has_fraction contents.now }
{
    begins_with_mark(after_digits(contents))
}

// The number of digits of the fraction.
fn fraction_digits(contents: &[u8]) -> usize
    ensures { result ≡ fraction_digits contents.now }
{
    digit_count(after_first(after_digits(contents)))
}

// What comes after the digits and the fraction.
fn zone_of(contents: &[u8]) -> &[u8]
    ensures { result.now ≡ zone_of contents.now }
{
    let rest = after_digits(contents);
    if begins_with_mark(rest) {
        after_fraction(rest)
    } else {
        rest
    }
}

// Whether the octets are Z, a difference, or nothing.
fn is_zone(zone: &[u8]) -> bool
    ensures { result ≡ zone_form zone.now }
{
    zone.is_empty() || is_z(zone) || is_offset(zone, 2) || is_offset(zone, 4)
}

// Whether the octets have the form of a GeneralizedTime.
pub(crate) fn has_generalized_time_form(contents: &[u8]) -> bool
    ensures { result ≡ generalized_time_form contents.now }
{
    let count = digit_count(contents);
    (count == 10 || count == 12 || count == 14)
        && (!has_fraction(contents) || fraction_digits(contents) > 0)
        && is_zone(zone_of(contents))
}

// Whether the date, the time and the difference exist.
pub(crate) fn generalized_time_exists(contents: &[u8]) -> bool
    ensures { result ≡ generalized_time_exists contents.now }
{
    let year = two_at(contents, 0) as u16 * 100 + two_at(contents, 2) as u16;
    exists_date(year, two_at(contents, 4), two_at(contents, 6))
        && exists_time(contents, 8, digit_count(contents).saturating_sub(8))
        && exists_offset(zone_of(contents))
}

// Whether the octets end in Z.
pub(crate) fn generalized_time_ends_in_z(contents: &[u8]) -> bool
    ensures { result ≡ generalized_time_ends_in_z contents.now }
{
    is_z(zone_of(contents))
}

// Whether there are seconds.
pub(crate) fn generalized_time_has_seconds(contents: &[u8]) -> bool
    ensures { result ≡ generalized_time_has_seconds contents.now }
{
    digit_count(contents) == 14
}

// Whether a fraction does not end in 0.
pub(crate) fn has_short_fraction(contents: &[u8]) -> bool
    ensures { result ≡ has_short_fraction contents.now }
{
    !has_fraction(contents) || octet_at(after_digits(contents), fraction_digits(contents)) != b'0'
}

// Whether a fraction begins with a full stop.
pub(crate) fn has_full_stop(contents: &[u8]) -> bool
    ensures { result ≡ has_full_stop contents.now }
{
    !has_fraction(contents) || octet_at(after_digits(contents), 0) == b'.'
}
