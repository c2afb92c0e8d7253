//! Contents octets of a UTCTime.
ghost use Rattle.std.specs.Prelude.{◌≡◌, ◌==◌, ◌-ℤ◌, ℤ, true, drop, IfOk, IfSome, IfNone, if◌then◌else◌};
ghost use Rattle.schema_rules.specs.Digits.{digit_count};
ghost use Rattle.schema_write.specs.Instants.{IsUtcTimeInDer, HasUtcInstant};
ghost use Rattle.der_asn1.specs.Times.{is_utc_time, two_at, utc_year};
ghost use Rattle.der_asn1.specs.UnixTime.{unix_seconds};
ghost use Rattle.schema_rules.specs.WrittenTime.{IsUtcTime, IsZone};
ghost use Rattle.der_asn1.specs.declared.times.date_time.DateTime.{DateTime as ADateTime};

use crate::zone::{copy_of, in_utc};
use der_asn1::{DateTime, TimeFormat, UtcTimeFormat};
use schema_rules::{after_digits, digit_count, two_at};
use std::alloc::{AllocError, Global};

/// Rewrites the contents octets of a UTCTime from BER to DER (X.690 11.8). The result is in UTC,
/// and has seconds. A time that is before 1950 or after 2049 in UTC stays as it is.
pub(crate) fn utc_time(alloc: Global, contents: &[u8]) -> Result<Vec<u8>, AllocError>
    ensures { IfOk result (λ v. IsUtcTimeInDer contents.now v.items) }
{
    match time_in_utc(contents) {
        Some(time) => copy_of(alloc, UtcTimeFormat::to_contents(&time).as_slice()),
        None => copy_of(alloc, contents),
    }
}

// The time in UTC, if its year is from 1950 to 2049.
fn time_in_utc(contents: &[u8]) -> Option<DateTime>
    ensures time { IfSome result (λ u. (is_utc_time u ≡ true) × HasUtcInstant contents.now u) }
    ensures none { IfNone result ((t u : ADateTime) (d : ℤ) → IsUtcTime contents.now t d
        → is_utc_time u ≡ true → unix_seconds u ≡ unix_seconds t -ℤ d → ⊥) }
{
    let local = local_time(contents);
    if !local.is_valid() {
        return None;
    }
    match in_utc(&local, 0, after_digits(contents)) {
        Some(time) => {
            if UtcTimeFormat::can_hold(&time) {
                Some(time)
            } else {
                None
            }
        }
        None => None,
    }
}

// The date and time as they are written, in a year from 1950 to 2049.
fn local_time(contents: &[u8]) -> DateTime
    ensures { (t : ADateTime) (d : ℤ) → IsUtcTime contents.now t d → result ≡ t }
{
    let count = digit_count(contents);
    DateTime {
        year: utc_year(two_at(contents, 0)),
        month: two_at(contents, 2),
        day: two_at(contents, 4),
        hour: two_at(contents, 6),
        minute: two_at(contents, 8),
        second: if count == 12 { two_at(contents, 10) } else { 0 },
    }
}

// The year from 1950 to 2049 with these last two digits.
fn utc_year(digits: u8) -> u16
    ensures { result ≡ utc_year digits }
{
    if digits < 50 {
        2000 + digits as u16
    } else {
        1900 + digits as u16
    }
}
