//! UTCTime.
ghost use Rattle.std.specs.Prelude.{◌≡◌};
ghost use Rattle.der_asn1.specs.Times.{utc_year};
ghost use Rattle.schema_rules.specs.UtcTime.{utc_time_form, utc_time_exists, utc_time_ends_in_z, utc_time_has_seconds};

use crate::digits::{after_digits, digit_count};
use crate::zone::{exists_date, exists_offset, exists_time, is_offset, is_z, two_at};

// Whether the octets have the form of a UTCTime.
pub(crate) fn has_utc_time_form(contents: &[u8]) -> bool
    ensures { result ≡ utc_time_form contents.now }
{
    let count = digit_count(contents);
    let zone = after_digits(contents);
    (count == 10 || count == 12) && (is_z(zone) || is_offset(zone, 4))
}

// Whether the date, the time and the difference exist.
pub(crate) fn utc_time_exists(contents: &[u8]) -> bool
    ensures { result ≡ utc_time_exists contents.now }
{
    let year = utc_year(two_at(contents, 0));
    exists_date(year, two_at(contents, 2), two_at(contents, 4))
        && exists_time(contents, 6, digit_count(contents).saturating_sub(6))
        && exists_offset(after_digits(contents))
}

// The year from 1950 to 2049 with these last two digits.
fn utc_year(digits: u8) -> u16
    ensures { result ≡ utc_year digits }
{
    if digits < 50 {
        2000 + digits as u16
    } else {
        1900 + digits as u16
    }
}

// Whether the octets end in Z.
pub(crate) fn utc_time_ends_in_z(contents: &[u8]) -> bool
    ensures { result ≡ utc_time_ends_in_z contents.now }
{
    is_z(after_digits(contents))
}

// Whether there are seconds.
pub(crate) fn utc_time_has_seconds(contents: &[u8]) -> bool
    ensures { result ≡ utc_time_has_seconds contents.now }
{
    digit_count(contents) == 12
}
