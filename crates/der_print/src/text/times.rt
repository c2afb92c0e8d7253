//! Prints times.

use crate::text::output::Output;
use crate::text::target::Target;
use der::Tag;
use der_asn1::{DateTime, GeneralizedTimeFormat, TimeFormat, UtcTimeFormat};
use std::fmt::Write;

// The time of an element with this tag and these contents.
fn time_of(tag: Tag, contents: &[u8]) -> Option<DateTime> {
    match tag {
        Tag::UtcTime => UtcTimeFormat::from_contents(contents),
        Tag::GeneralizedTime => GeneralizedTimeFormat::from_contents(contents),
        _ => None,
    }
}

/// Prints a UTCTime or a GeneralizedTime in the form `Jan  2 03:04:05 2006 GMT`, and returns true.
/// If the tag is of another type, or if the contents are not valid in DER, prints nothing and
/// returns false.
pub fn put_time<T: Target>(out: &mut Output<T>, tag: Tag, contents: &[u8]) -> bool {
    let Some(at) = time_of(tag, contents) else {
        return false;
    };
    let month = month_name(at.month);
    let _ = write!(
        out,
        "{month} {:>2} {:02}:{:02}:{:02} {} GMT",
        at.day, at.hour, at.minute, at.second, at.year
    );
    true
}

/// Prints a time in the form `Jan  2 03:04:05.678 2006 GMT`. `milliseconds` is the number of
/// milliseconds since the start of 1970. For a time after the year 9999, prints this number
/// instead.
pub fn put_unix_time<T: Target>(out: &mut Output<T>, milliseconds: u64) {
    let Some(at) = DateTime::from_unix_seconds((milliseconds / 1000) as i64) else {
        out.put_number(milliseconds);
        return;
    };
    let month = month_name(at.month);
    let _ = write!(
        out,
        "{month} {:>2} {:02}:{:02}:{:02}.{:03} {} GMT",
        at.day,
        at.hour,
        at.minute,
        at.second,
        milliseconds % 1000,
        at.year
    );
}

/// Prints a UTCTime or a GeneralizedTime in the form `2006-01-02T03:04:05Z`, and returns true. If
/// the tag is of another type, or if the contents are not valid in DER, prints nothing and returns
/// false.
pub fn put_iso_time<T: Target>(out: &mut Output<T>, tag: Tag, contents: &[u8]) -> bool {
    let Some(at) = time_of(tag, contents) else {
        return false;
    };
    let _ = write!(
        out,
        "{:04}-{:02}-{:02}T{:02}:{:02}:{:02}Z",
        at.year, at.month, at.day, at.hour, at.minute, at.second
    );
    true
}

fn month_name(month: u8) -> &'static str {
    match month {
        1 => "Jan",
        2 => "Feb",
        3 => "Mar",
        4 => "Apr",
        5 => "May",
        6 => "Jun",
        7 => "Jul",
        8 => "Aug",
        9 => "Sep",
        10 => "Oct",
        11 => "Nov",
        _ => "Dec",
    }
}
