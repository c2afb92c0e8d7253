//! DATE, TIME-OF-DAY and DATE-TIME.
ghost use Rattle.std.specs.Prelude.{◌≡◌, ◌≤◌};
ghost use Rattle.schema_rules.specs.UsefulTimes.{date_exists, is_midnight, time_exists_at, date_time_exists};

use crate::zone::{exists_date, exists_time, two_at};

// Whether the date exists, in a year from 1582 on.
pub(crate) fn date_exists(contents: &[u8]) -> bool
    ensures { result ≡ date_exists contents.now }
{
    let year = two_at(contents, 0) as u16 * 100 + two_at(contents, 2) as u16;
    1582 <= year && exists_date(year, two_at(contents, 4), two_at(contents, 6))
}

// Whether the six digits at a place are the end of a day.
fn is_midnight(contents: &[u8], at: usize) -> bool
    requires { at ≤ 8 }
    ensures { result ≡ is_midnight at contents.now }
{
    two_at(contents, at) == 24 && two_at(contents, at + 2) == 0 && two_at(contents, at + 4) == 0
}

// Whether the time of the six digits at a place exists.
pub(crate) fn time_exists_at(contents: &[u8], at: usize) -> bool
    requires { at ≤ 8 }
    ensures { result ≡ time_exists_at at contents.now }
{
    exists_time(contents, at, 6) || is_midnight(contents, at)
}

// Whether the date and the time exist.
pub(crate) fn date_time_exists(contents: &[u8]) -> bool
    ensures { result ≡ date_time_exists contents.now }
{
    date_exists(contents) && time_exists_at(contents, 8)
}
