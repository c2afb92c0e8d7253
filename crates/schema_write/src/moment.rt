//! Minutes in the Gregorian calendar.

use der_asn1::days_in;
use std::alloc::AllocError;

/// A minute of a day in the Gregorian calendar.
#[derive(Clone, Copy)]
pub(crate) struct Moment {
    pub year: u32,
    pub month: u32,
    pub day: u32,
    /// The minute of the day, from 0 to 1439.
    pub minute: u32,
}

impl Moment {
    /// Converts a local time to UTC. `zone` is the zone of the local time: `Z`, or the difference
    /// from UTC. The difference is a sign, two digits for the hours, and optionally two digits for
    /// the minutes.
    pub fn in_utc(self, zone: &[u8]) -> Self {
        let minutes = minutes(
            two_at(zone, 1),
            if zone.len() > 3 { two_at(zone, 3) } else { 0 },
        );
        match zone.first() {
            Some(b'+') => self.earlier(minutes),
            Some(b'-') => self.later(minutes),
            _ => self,
        }
    }

    // So many minutes earlier, at most a day.
    fn earlier(self, minutes: u32) -> Self {
        if self.minute >= minutes {
            return Moment {
                minute: self.minute - minutes,
                ..self
            };
        }
        let minute = self.minute.saturating_add(1440).saturating_sub(minutes);
        Moment {
            minute,
            ..self.day_before()
        }
    }

    // So many minutes later, at most a day.
    fn later(self, minutes: u32) -> Self {
        let minute = self.minute.saturating_add(minutes);
        if minute < 1440 {
            return Moment { minute, ..self };
        }
        Moment {
            minute: minute - 1440,
            ..self.day_after()
        }
    }

    fn day_before(self) -> Self {
        if self.day > 1 {
            return Moment {
                day: self.day - 1,
                ..self
            };
        }
        if self.month > 1 {
            let month = self.month - 1;
            return Moment {
                month,
                day: days_of(self.year, month),
                ..self
            };
        }
        Moment {
            year: self.year.saturating_sub(1),
            month: 12,
            day: 31,
            ..self
        }
    }

    fn day_after(self) -> Self {
        if self.day < days_of(self.year, self.month) {
            return Moment {
                day: self.day.saturating_add(1),
                ..self
            };
        }
        if self.month < 12 {
            return Moment {
                month: self.month.saturating_add(1),
                day: 1,
                ..self
            };
        }
        Moment {
            year: self.year.saturating_add(1),
            month: 1,
            day: 1,
            ..self
        }
    }

    /// Appends the month, the day, the hour and the minute, each as two digits.
    pub fn put(self, out: &mut Vec<u8>) -> Result<(), AllocError> {
        put_two(out, self.month)?;
        put_two(out, self.day)?;
        put_two(out, self.minute / 60)?;
        put_two(out, self.minute % 60)
    }
}

/// The number of minutes in this many hours and minutes.
pub(crate) fn minutes(hours: u32, minutes: u32) -> u32 {
    hours.saturating_mul(60).saturating_add(minutes)
}

// The number of days of a month.
fn days_of(year: u32, month: u32) -> u32 {
    let year = u16::try_from(year).unwrap_or(u16::MAX);
    let month = u8::try_from(month).unwrap_or(0);
    days_in(year, month) as u32
}

/// The number that the two decimal digits at the index `at` stand for. A missing digit counts as 0.
pub(crate) fn two_at(octets: &[u8], at: usize) -> u32 {
    digit_at(octets, at)
        .saturating_mul(10)
        .saturating_add(digit_at(octets, at.saturating_add(1)))
}

fn digit_at(octets: &[u8], at: usize) -> u32 {
    match octets.get(at) {
        Some(octet) => octet.saturating_sub(b'0') as u32,
        None => 0,
    }
}

/// Appends the last two decimal digits of a number.
pub(crate) fn put_two(out: &mut Vec<u8>, number: u32) -> Result<(), AllocError> {
    put_digit(out, number / 10)?;
    put_digit(out, number)
}

// Appends the last digit of a number.
fn put_digit(out: &mut Vec<u8>, number: u32) -> Result<(), AllocError> {
    out.push(b'0'.saturating_add((number % 10) as u8))?;
    Ok(())
}
