//! Zones of times.
ghost use Rattle.std.specs.Prelude.{◌≡◌, ◌+◌, ◌*◌, ◌≤◌, ◌<ℤ◌, ◌≤ℤ◌, ◌<◌, ℤ, pos, negsuc, Some, slice_index_or, length};
ghost use Rattle.std.specs.Prelude.{◌+ℤ◌, ◌-ℤ◌, true, IfOk, IfSome, IfNone};
ghost use Rattle.der_asn1.specs.Times.{is_date_time};
ghost use Rattle.der_asn1.specs.UnixTime.{unix_seconds};
ghost use Rattle.der_asn1.specs.declared.times.date_time.DateTime.{DateTime as ADateTime};
ghost use Rattle.der_asn1.specs.Times.{two_at};
ghost use Rattle.schema_rules.specs.WrittenTime.{IsZone, IsAnyZone};

use der_asn1::DateTime;
use schema_rules::{octet_at, two_at};
use std::alloc::{AllocError, Global};

/// How many seconds a time is ahead of UTC. `zone` is `Z`, or a sign, two digits of hours, and
/// optionally two digits of minutes.
pub(crate) fn difference_of(zone: &[u8]) -> i64
    ensures value { (d : ℤ) → IsAnyZone (Some d) zone.now → result ≡ d }
    ensures least { negsuc 1000000 ≤ℤ result }
    ensures most { result ≤ℤ pos 1000000 }
{
    let sign = octet_at(zone, 0);
    if sign == b'+' {
        seconds_of(zone)
    } else if sign == b'-' {
        0 - seconds_of(zone)
    } else {
        0
    }
}

// The seconds in the hours and the minutes after a sign, which have two digits each.
fn seconds_of(zone: &[u8]) -> i64
    ensures value { result ≡ pos (3600 * two_at 1 zone.now + 60 * two_at 3 zone.now) }
    ensures most { result ≤ℤ pos 1000000 }
{
    two_at(zone, 1) as i64 * 3600 + two_at(zone, 3) as i64 * 60
}

/// The time in UTC that is `later` seconds after a local time; `None` if its year is not from 0 to
/// 9999. `zone` is the zone of the local time.
pub(crate) fn in_utc(local: &DateTime, later: u32, zone: &[u8]) -> Option<DateTime>
    requires valid { is_date_time local.now ≡ true }
    requires soon { later ≤ 3600 }
    ensures valid { IfSome result (λ u. is_date_time u ≡ true) }
    ensures time { IfSome result (λ u. (d : ℤ) → IsAnyZone (Some d) zone.now
        → unix_seconds u ≡ unix_seconds local.now +ℤ pos later -ℤ d) }
    ensures none { IfNone result ((u : ADateTime) (d : ℤ) → IsAnyZone (Some d) zone.now
        → is_date_time u ≡ true → unix_seconds u ≡ unix_seconds local.now +ℤ pos later -ℤ d → ⊥) }
{
    let seconds = local.unix_seconds() + later as i64 - difference_of(zone);
    match DateTime::from_unix_seconds(seconds) {
        Some(time) => Some(time),
        None => None,
    }
}

/// The same octets.
pub(crate) fn copy_of(alloc: Global, octets: &[u8]) -> Result<Vec<u8>, AllocError>
    ensures { IfOk result (λ v. v.items ≡ octets.now) }
{
    octets.to_vec(alloc)
}
