//! Dates with a time of day, as text.
ghost use Rattle.std.specs.Prelude.{Some};
ghost use Rattle.der_asn1.specs.DateTimeText.{date_time_text, two_decimals};

use crate::times::date_time::DateTime;
use crate::times::time_format::TimeFormat;
use crate::times::time_of::TimeOf;
use std::fmt;

// A number below 100, which is printed with two digits.
#[derive(Drop)]
struct TwoDigits(u16);

impl fmt::Display for TwoDigits {
    ghost output = { λ n. Some (two_decimals n.0) };

    fn fmt<W: fmt::Write>(&self, f: &mut fmt::Formatter<W>) -> fmt::Result {
        let (tens, ones) = (self.0 / 10, self.0 % 10);
        write!(f, "{tens}{ones}")
    }
}

/// Prints the date and time as RFC 3339 writes them in UTC (5.6), such as `2026-11-29T03:26:17Z`.
impl fmt::Display for DateTime {
    ghost output = { λ t. Some (date_time_text t) };

    fn fmt<W: fmt::Write>(&self, f: &mut fmt::Formatter<W>) -> fmt::Result {
        let (century, year) = (TwoDigits(self.year / 100), TwoDigits(self.year % 100));
        let (month, day) = (TwoDigits(self.month.into()), TwoDigits(self.day.into()));
        let (hour, minute) = (TwoDigits(self.hour.into()), TwoDigits(self.minute.into()));
        let second = TwoDigits(self.second.into());
        write!(f, "{century}{year}-{month}-{day}T{hour}:{minute}:{second}Z")
    }
}

/// Prints the date and time as [`DateTime`] does.
impl<F: TimeFormat> fmt::Display for TimeOf<F> {
    ghost output = { λ v. Some (date_time_text v.time) };

    fn fmt<W: fmt::Write>(&self, f: &mut fmt::Formatter<W>) -> fmt::Result {
        let time = self.date_time();
        write!(f, "{time}")
    }
}
