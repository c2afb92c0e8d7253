//! Reading times, for C.
ghost use Rattle.std.specs.Prelude.{◌≡◌, true};
ghost use Rattle.der_core.specs.ReaderState.{Same};
ghost use Rattle.der_asn1.specs.Times.{is_date_time};
ghost use Rattle.der_asn1.specs.UnixTime.{unix_seconds};
ghost use Rattle.der_c_core.specs.CReader.{reader_state};
ghost use Rattle.der_c_values.specs.ValueCalls.{ReadsTyped};
ghost use Rattle.der_c_values.specs.TimeValues.{is_time_type as is_known_type, time_form, IsTimeOf, date_of};

use crate::contents::read_octets;
use crate::refusal::{refuse_type, refuse_value};
use crate::time_type::{is_time_type, time_from};
use der_asn1::DateTime;
use der_c_core::{DerError, DerReader};

/// A date of the Gregorian calendar with a time of day, in UTC.
#[repr(C)]
#[derive(Clone, Copy)]
pub struct DerTime {
    /// The number of seconds from 1970-01-01T00:00:00Z to this time, without leap seconds. It is
    /// negative for a time before 1970.
    pub seconds: i64,
    /// The year, from 0 to 9999.
    pub year: u16,
    /// The month, from 1 to 12.
    pub month: u8,
    /// The day of the month, from 1 on.
    pub day: u8,
    /// The hour, from 0 to 23.
    pub hour: u8,
    /// The minute, from 0 to 59.
    pub minute: u8,
    /// The second, from 0 to 59.
    pub second: u8,
}

/// Reads a time of the type `time_type` into `time`. `time_type` is the tag word of the universal
/// tag of one of these types:
///
/// - UTCTime (X.690 11.8), whose years are 1950 to 2049 (RFC 5280, 4.1.2.5.1);
/// - GeneralizedTime (X.690 11.7), without a fraction of a second.
///
/// Both are in UTC. The next element must have the tag word `tag` (see `DerElement::tag`). `tag`
/// differs from `time_type` if the time has an implicit tag.
///
/// A call that fails leaves `time` unchanged. Fails with:
///
/// - `TagNumberInvalid` without a position, if `time_type` is not one of these tag words;
/// - the errors of `der_expect`;
/// - `Value` with the tag `tag`, at the position after the element, if the contents do not have the
///   form of the type, or if the time does not exist.
#[inline(always)]
pub fn der_read_time(
    reader: &mut DerReader<'_>,
    tag: u64,
    time_type: u64,
    time: &mut DerTime,
) -> DerError
    ensures same { Same (reader_state reader.old) (reader_state reader.new) }
    ensures reads { ReadsTyped (is_known_type time_type) (time_form time_type) (IsTimeOf time_type)
        tag (reader_state reader.old) result time.old time.new (reader_state reader.new) }
{
    if !is_time_type(time_type) {
        return refuse_type(reader);
    }
    let octets = match read_octets(reader, tag) {
        Ok(octets) => octets,
        Err(error) => return error,
    };
    let Some(date) = time_from(time_type, octets) else {
        return refuse_value(reader, tag);
    };
    *time = c_time(date);
    DerError::NONE
}

// The time as C sees it.
fn c_time(date: DateTime) -> DerTime
    requires { is_date_time date ≡ true }
    ensures date { date_of result ≡ date }
    ensures seconds { result.seconds ≡ unix_seconds date }
{
    DerTime {
        seconds: date.unix_seconds(),
        year: date.year,
        month: date.month,
        day: date.day,
        hour: date.hour,
        minute: date.minute,
        second: date.second,
    }
}
