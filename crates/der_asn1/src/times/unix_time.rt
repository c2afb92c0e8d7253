//! Times as seconds since 1970.
ghost use Rattle.std.specs.Prelude.{◌≡◌, ◌≤◌, ◌<◌, ◌-◌, ◌+◌, ◌*◌, ◌⊎◌, ◌≤ℤ◌, ◌<ℤ◌, pos, negsuc, true, IfSome, IfNone};
ghost use Rattle.der_asn1.specs.Times.{days_of, is_date_time, is_leap_year};
ghost use Rattle.der_asn1.specs.UnixTime.{days_of_year, days_before_year, days_of_months, unix_seconds};

use crate::times::date_time::{DateTime, days_in, is_leap};

// the days from the first day of year 0 to the first day of 1970
const EPOCH: i64 = 719528;

const SECONDS_OF_DAY: i64 = 86400;

// the first second of year 0
const FIRST: i64 = -62167219200;

// the last second of year 9999
const LAST: i64 = 253402300799;

impl DateTime {
    /// The seconds from 1970-01-01T00:00:00Z to this time, without leap seconds, as POSIX counts
    /// them. The result is negative for a time before 1970.
    pub fn unix_seconds(&self) -> i64
        requires { is_date_time self.now ≡ true }
        ensures { result ≡ unix_seconds self.now }
    {
        let days = days_before(self.year)
            + days_before_month(self.year, self.month)
            + (self.day - 1) as u32;
        let seconds = self.hour as u32 * 3600 + self.minute as u32 * 60 + self.second as u32;
        (days as i64 - EPOCH) * SECONDS_OF_DAY + seconds as i64
    }

    /// The time that is `seconds` after 1970-01-01T00:00:00Z, or before it if `seconds` is
    /// negative. Returns `None` if the year of the time is not from 0 to 9999.
    pub fn from_unix_seconds(seconds: i64) -> Option<Self>
        ensures some { IfSome result (λ t. (is_date_time t ≡ true) × (unix_seconds t ≡ seconds)) }
        ensures none { IfNone result ((seconds <ℤ negsuc 62167219199)
            ⊎ (pos 253402300800 ≤ℤ seconds)) }
    {
        if seconds < FIRST || seconds > LAST {
            return None;
        }
        let number = (seconds - FIRST) as u64;
        let (days, second) = ((number / 86400) as u32, (number % 86400) as u32);
        let year = year_of(days);
        let (month, day) = month_and_day(year, days - days_before(year));
        Some(DateTime {
            year,
            month,
            day,
            hour: (second / 3600) as u8,
            minute: (second / 60 % 60) as u8,
            second: (second % 60) as u8,
        })
    }
}

// The year of the day with this number, which is before year 10000.
fn year_of(days: u32) -> u16
    requires { days < days_before_year 10000 }
    ensures from { days_before_year result ≤ days }
    ensures to { days < days_before_year (result + 1) }
    ensures few { result < 10000 }
{
    let (mut low, mut high) = (0u16, 10000u16);
    while low + 1 < high {
        let middle = (low + high) / 2;
        if days_before(middle) <= days {
            low = middle;
        } else {
            high = middle;
        }
    }
    low
}

// The month and the day of the month, of a day of the year that is counted from 0.
fn month_and_day(year: u16, days: u32) -> (u8, u8)
    requires { days < days_of_year year }
    ensures first { 1 ≤ result.0 }
    ensures last { result.0 ≤ 12 }
    ensures within { (1 ≤ result.1) × (result.1 ≤ days_of year result.0) }
    ensures value { days_of_months year (result.0 - 1) + (result.1 - 1) ≡ days }
{
    let mut month = 1;
    let mut left = days;
    while month < 12 && left >= days_in(year, month) as u32 {
        left -= days_in(year, month) as u32;
        month += 1;
    }
    (month, left as u8 + 1)
}

// The days of all years before this one.
fn days_before(year: u16) -> u32
    ensures value { result ≡ days_before_year year }
    ensures few { result ≤ 366 * 65536 }
{
    let year = year as u32;
    365 * year + (year + 3) / 4 - (year + 99) / 100 + (year + 399) / 400
}

// The days of the months of the year that are before this one.
fn days_before_month(year: u16, month: u8) -> u32
    requires first { 1 ≤ month }
    requires last { month ≤ 12 }
    ensures value { result ≡ days_of_months year (month - 1) }
    ensures few { result ≤ 366 }
{
    let february = if is_leap(year) { 29 } else { 28 };
    match month {
        1 => 0,
        2 => 31,
        3 => 31 + february,
        4 => 62 + february,
        5 => 92 + february,
        6 => 123 + february,
        7 => 153 + february,
        8 => 184 + february,
        9 => 215 + february,
        10 => 245 + february,
        11 => 276 + february,
        _ => 306 + february,
    }
}
