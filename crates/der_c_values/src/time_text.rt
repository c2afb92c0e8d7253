//! Writing times as text, for C.
ghost use Rattle.std.specs.Prelude.{◌≡◌, ◌+◌, ◌/◌, ◌%◌, ◌<◌, ◌∷◌, [], ◌++◌, true};
ghost use Rattle.der_asn1.specs.DateTimeText.{date_time_text};
ghost use Rattle.der_asn1.specs.Times.{is_date_time};
ghost use Rattle.der_c_values.specs.TimeText.{GivesTimeText};
ghost use Rattle.der_c_values.specs.TimeValues.{date_of};

use crate::refusal::{NO_TIME, OVERLENGTH};
use crate::time::DerTime;
use crate::write_time::date_time;
use der_asn1::DateTime;
use der_c_core::DerError;

// how many octets the text of a time and the zero octet after it are
const SIZE: usize = 21;

/// Writes a text and a zero octet after it to the start of `text`: `time` in UTC, in the format of
/// RFC 3339 (5.6), such as `2026-11-29T11:24:00Z`. Sets `count` to 20, the number of octets of the
/// text without the zero octet. `time.seconds` is ignored.
///
/// A call that fails leaves `text` and `count` unchanged. Fails without a position with:
///
/// - `DateTime`, if the date or the time of day does not exist, or if the year is above 9999;
/// - `Overlength`, if `text` has fewer than 21 octets.
pub fn der_time_text(time: &DerTime, text: &mut [u8], count: &mut usize) -> DerError
    ensures { GivesTimeText (date_of time.now) result text.old text.new count.old count.new }
{
    let date = date_time(time);
    if !date.is_valid() {
        return NO_TIME;
    }
    if text.len() < SIZE {
        return OVERLENGTH;
    }
    text[..SIZE].copy_from_slice(&terminated_text(&date));
    *count = SIZE - 1;
    DerError::NONE
}

// The text of a time, with a zero octet.
fn terminated_text(date: &DateTime) -> [u8; SIZE]
    requires { is_date_time date.now ≡ true }
    ensures { result ≡ date_time_text date.now ++ 0 ∷ [] }
{
    let century = (date.year / 100) as u8;
    let year = (date.year % 100) as u8;
    [
        tens(century),
        ones(century),
        tens(year),
        ones(year),
        b'-',
        tens(date.month),
        ones(date.month),
        b'-',
        tens(date.day),
        ones(date.day),
        b'T',
        tens(date.hour),
        ones(date.hour),
        b':',
        tens(date.minute),
        ones(date.minute),
        b':',
        tens(date.second),
        ones(date.second),
        b'Z',
        0,
    ]
}

// The first of the two decimal digits of a number, as a character.
fn tens(number: u8) -> u8
    requires { number < 100 }
    ensures { result ≡ 48 + number / 10 }
{
    b'0' + number / 10
}

// The second of the two decimal digits of a number, as a character.
fn ones(number: u8) -> u8
    ensures { result ≡ 48 + number % 10 }
{
    b'0' + number % 10
}
