//! Dates with a time of day.
ghost use Rattle.std.specs.Prelude.{◌≡◌};
ghost use Rattle.der_asn1.specs.Times.{is_date_time, is_leap_year, days_of};

/// A date of the Gregorian calendar with a time of day, in UTC.
#[derive(Clone, Copy, Debug, PartialEq, Eq, PartialOrd, Ord)]
pub struct DateTime {
    /// The year, from 0 to 9999.
    pub year: u16,
    /// The month, from 1 to 12.
    pub month: u8,
    /// The day of the month; the first day is 1.
    pub day: u8,
    /// The hour, from 0 to 23.
    pub hour: u8,
    /// The minute, from 0 to 59.
    pub minute: u8,
    /// The second, from 0 to 59.
    pub second: u8,
}

impl DateTime {
    /// Whether the year is at most 9999, the date exists, and the time of day exists. Second 60, a
    /// leap second, is not valid.
    pub fn is_valid(&self) -> bool
        ensures { result ≡ is_date_time self.now }
    {
        self.year < 10000
            && 0 < self.month
            && self.month < 13
            && 0 < self.day
            && self.day <= days_in(self.year, self.month)
            && self.hour < 24
            && self.minute < 60
            && self.second < 60
    }
}

/// The number of days of the month with this number, from 1 to 12.
pub fn days_in(year: u16, month: u8) -> u8
    ensures { result ≡ days_of year month }
{
    match month {
        2 => { if is_leap(year) { 29 } else { 28 } }
        4 | 6 | 9 | 11 => 30,
        _ => 31,
    }
}

// Whether the year has 366 days.
pub(crate) fn is_leap(year: u16) -> bool
    ensures { result ≡ is_leap_year year }
{
    year % 4 == 0 && (year % 100 != 0 || year % 400 == 0)
}
