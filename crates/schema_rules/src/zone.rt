//! Dates and times of day, and differences from UTC.
ghost use Rattle.std.specs.Prelude.{◌≡◌, ◌≤◌, slice_index_or};
ghost use Rattle.der_asn1.specs.Times.{two_at};
ghost use Rattle.schema_rules.specs.Zone.{is_z, is_offset, exists_offset, exists_date, exists_time};

use crate::digits::are_digits;
use der_asn1::days_in;

// Whether the octets are the letter Z.
pub(crate) fn is_z(octets: &[u8]) -> bool
    ensures { result ≡ is_z octets.now }
{
    matches!(octets, [b'Z'])
}

// Whether the octets are a sign and `count` digits.
pub(crate) fn is_offset(octets: &[u8], count: usize) -> bool
    ensures { result ≡ is_offset count octets.now }
{
    match octets {
        [] => false,
        [sign, digits @ ..] => (*sign == b'+' || *sign == b'-') && are_digits(digits, count),
    }
}

// Whether the hours and minutes of a difference exist.
pub(crate) fn exists_offset(zone: &[u8]) -> bool
    ensures { result ≡ exists_offset zone.now }
{
    zone.len() < 3 || two_at(zone, 1) < 24 && (zone.len() < 5 || two_at(zone, 3) < 60)
}

// Whether the date exists.
pub(crate) fn exists_date(year: u16, month: u8, day: u8) -> bool
    ensures { result ≡ exists_date year month day }
{
    0 < month && month < 13 && 0 < day && day <= days_in(year, month)
}

// Whether hours, minutes and seconds exist, of which some may be absent, in `count` digits.
pub(crate) fn exists_time(octets: &[u8], at: usize, count: usize) -> bool
    requires { at ≤ 8 }
    ensures { result ≡ exists_time count at octets.now }
{
    two_at(octets, at) < 24
        && (count < 4 || two_at(octets, at + 2) < 60)
        && (count < 6 || two_at(octets, at + 4) < 60)
}

/// The number that the two decimal digits at the index `at` stand for. A missing digit counts as 0.
pub fn two_at(octets: &[u8], at: usize) -> u8
    requires { at ≤ 12 }
    ensures { result ≡ two_at at octets.now }
{
    octet_at(octets, at) % 16 * 10 + octet_at(octets, at + 1) % 16
}

/// The octet at the index `at`, or 0 if there is none.
pub fn octet_at(octets: &[u8], at: usize) -> u8
    ensures { result ≡ slice_index_or octets.now at 0 }
{
    if at < octets.len() { octets[at] } else { 0 }
}
