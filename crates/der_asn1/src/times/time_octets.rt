//! The contents of a GeneralizedTime and of a UTCTime.
ghost use Rattle.std.specs.Prelude.{◌≡◌, ◌+◌, ◌*◌, ◌/◌, ◌%◌, ◌<◌, ◌≤◌, ◌↔◌, true, drop, length, IsSome, IfSome};
ghost use Rattle.der_asn1.specs.Times.{is_date_time, is_utc_time, generalized_octets, utc_octets};
ghost use Rattle.der_asn1.specs.Times.{generalized_form, utc_form, generalized_reading};
ghost use Rattle.der_asn1.specs.Times.{utc_reading, two_at, utc_year, time_from};

use crate::times::date_time::DateTime;

/// The contents octets of a GeneralizedTime or of a UTCTime. A GeneralizedTime begins with the four
/// digits of the year, a UTCTime with the last two digits of the year. After the year come two
/// digits each for month, day, hour, minute and second, and the letter Z.
#[derive(Drop)]
pub struct TimeOctets {
    octets: [u8; 15],
    start: usize,
    ghost inside: { start ≤ 15 },
}

impl TimeOctets {
    // The contents of a GeneralizedTime.
    pub(crate) fn generalized(time: &DateTime) -> Self
        requires { is_date_time time.now ≡ true }
        ensures { drop result.start result.octets ≡ generalized_octets time.now }
    {
        TimeOctets {
            octets: all_octets(time),
            start: 0,
        }
    }

    // The contents of a UTCTime, without the century.
    pub(crate) fn utc(time: &DateTime) -> Self
        requires { is_date_time time.now ≡ true }
        ensures { drop result.start result.octets ≡ utc_octets time.now }
    {
        TimeOctets {
            octets: all_octets(time),
            start: 2,
        }
    }

    /// The contents octets, as a slice.
    pub fn as_slice(&self) -> &[u8]
        ensures { result.now ≡ drop self.now.start self.now.octets }
    {
        &self.octets[self.start..]
    }
}

// The contents of a GeneralizedTime.
fn all_octets(time: &DateTime) -> [u8; 15]
    requires { is_date_time time.now ≡ true }
    ensures { result ≡ generalized_octets time.now }
{
    let century = (time.year / 100) as u8;
    let year = (time.year % 100) as u8;
    [
        tens(century),
        ones(century),
        tens(year),
        ones(year),
        tens(time.month),
        ones(time.month),
        tens(time.day),
        ones(time.day),
        tens(time.hour),
        ones(time.hour),
        tens(time.minute),
        ones(time.minute),
        tens(time.second),
        ones(time.second),
        b'Z',
    ]
}

// The first of the two decimal digits of a number, as a character.
fn tens(number: u8) -> u8
    ensures { result ≡ 48 + number / 10 }
{
    b'0' + number / 10
}

// The second of the two decimal digits of a number, as a character.
fn ones(number: u8) -> u8
    ensures { result ≡ 48 + number % 10 }
{
    b'0' + number % 10
}

// The time with these contents of a GeneralizedTime; `None` if there is none.
pub(crate) fn generalized_from(octets: &[u8]) -> Option<DateTime>
    ensures some { IsSome result ↔ (generalized_form octets.now ≡ true) }
    ensures same { IfSome result (λ v. (is_date_time v ≡ true)
        × (generalized_octets v ≡ octets.now)) }
{
    if octets.len() != 15 {
        return None;
    }
    let year = two_digits(octets, 0) as u16 * 100 + two_digits(octets, 2) as u16;
    let time = time_at(year, octets, 4);
    if time.is_valid() && TimeOctets::generalized(&time).as_slice() == octets {
        Some(time)
    } else {
        None
    }
}

// The time with these contents of a UTCTime; `None` if there is none.
pub(crate) fn utc_from(octets: &[u8]) -> Option<DateTime>
    ensures some { IsSome result ↔ (utc_form octets.now ≡ true) }
    ensures same { IfSome result (λ v. (is_utc_time v ≡ true)
        × (utc_octets v ≡ octets.now)) }
{
    if octets.len() != 13 {
        return None;
    }
    let time = time_at(full_year(two_digits(octets, 0)), octets, 2);
    if time.is_valid() && TimeOctets::utc(&time).as_slice() == octets {
        Some(time)
    } else {
        None
    }
}

// The year, from 1950 to 2049, with these last two digits.
fn full_year(digits: u8) -> u16
    ensures { result ≡ utc_year digits }
{
    if digits < 50 {
        2000 + digits as u16
    } else {
        1900 + digits as u16
    }
}

// Month, day, hour, minute and second from octet `at` on, with this year, without checks.
fn time_at(year: u16, octets: &[u8], at: usize) -> DateTime
    requires { at + 10 ≤ length octets.now }
    ensures { result ≡ time_from year at octets.now }
{
    DateTime {
        year,
        month: two_digits(octets, at),
        day: two_digits(octets, at + 2),
        hour: two_digits(octets, at + 4),
        minute: two_digits(octets, at + 6),
        second: two_digits(octets, at + 8),
    }
}

// The number whose two decimal digits are at `at`, without checks.
fn two_digits(octets: &[u8], at: usize) -> u8
    requires { at + 1 < length octets.now }
    ensures { result ≡ two_at at octets.now }
{
    octets[at] % 16 * 10 + octets[at + 1] % 16
}
