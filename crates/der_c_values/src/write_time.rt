//! Writing times, for C.
ghost use Rattle.std.specs.Prelude.{◌≡◌};
ghost use Rattle.der_c_core.specs.CWriter.{KeepsOpen, writer_state};
ghost use Rattle.der_c_values.specs.TimeValues.{date_of, is_time_of, time_contents, WritesSeconds};
ghost use Rattle.der_c_values.specs.WriteCalls.{WritesValue};

use crate::time::DerTime;
use crate::time_type::{contents_of, has_time};
use crate::write_refusal::refuse_no_value;
use der_asn1::DateTime;
use der_c_core::{DerError, DerWriter, der_write_element};

/// Writes a time of the type `time_type` with the tag word `tag` (see `DerElement::tag`).
/// `time_type` is one of the two tag words that `der_read_time` names. Writes the date and the time
/// of day, and ignores `time.seconds`.
///
/// After an error, `writer` has failed. Fails with:
///
/// - `Value` with the tag `tag`, without a position, if the date or the time of day does not exist,
///   if the year is above 9999, if the type is UTCTime and the year is not from 1950 to 2049, or if
///   `time_type` is not the tag word of a time type;
/// - the errors of `der_write_element`.
#[inline(always)]
pub fn der_write_time(
    writer: &mut DerWriter<'_>,
    tag: u64,
    time_type: u64,
    time: &DerTime,
) -> DerError
    ensures writes { WritesValue (is_time_of time_type (date_of time.now))
        (time_contents time_type (date_of time.now)) tag (writer_state writer.old) result
        (writer_state writer.new) }
    ensures keeps_open { KeepsOpen writer.old writer.new }
{
    let date = date_time(time);
    if !has_time(time_type, &date) {
        return refuse_no_value(writer, tag);
    }
    der_write_element(writer, tag, contents_of(time_type, &date).as_slice())
}

/// Writes a time as [`der_write_time`] does. The time is `seconds` after 1970-01-01T00:00:00Z, or
/// before it if `seconds` is negative.
///
/// After an error, `writer` has failed. Fails with:
///
/// - `Value` with the tag `tag`, without a position, if the year of the time is not from 0 to 9999,
///   if the type is UTCTime and the year is not from 1950 to 2049, or if `time_type` is not the tag
///   word of a time type;
/// - the errors of `der_write_element`.
#[inline(always)]
pub fn der_write_time_seconds(
    writer: &mut DerWriter<'_>,
    tag: u64,
    time_type: u64,
    seconds: i64,
) -> DerError
    ensures writes { WritesSeconds time_type seconds tag (writer_state writer.old) result
        (writer_state writer.new) }
    ensures keeps_open { KeepsOpen writer.old writer.new }
{
    let Some(date) = DateTime::from_unix_seconds(seconds) else {
        return refuse_no_value(writer, tag);
    };
    if !has_time(time_type, &date) {
        return refuse_no_value(writer, tag);
    }
    der_write_element(writer, tag, contents_of(time_type, &date).as_slice())
}

/// The date and the time of day of `time`, without `time.seconds`.
pub(crate) fn date_time(time: &DerTime) -> DateTime
    ensures { result ≡ date_of time.now }
{
    DateTime {
        year: time.year,
        month: time.month,
        day: time.day,
        hour: time.hour,
        minute: time.minute,
        second: time.second,
    }
}
