//! Writing the validity of a certificate, for C.
ghost use Rattle.std.specs.Prelude.{◌≡◌};
ghost use Rattle.der_c_x509.specs.Validities.{WritesValidity, is_utc_validity, validity_size, validity_type};
ghost use Rattle.der_c_core.specs.CWriter.{KeepsOpen, writer_state};

use der_c_core::{DerError, DerWriter, der_write_header};
use der_c_values::der_write_time_seconds;

/// Writes a Validity (RFC 5280, 4.1.2.5), which is a SEQUENCE of two times. `not_before` and
/// `not_after` are these times, in seconds since 1970-01-01T00:00:00Z. A time from 1950 to 2049 is
/// written as a UTCTime, and any other time as a GeneralizedTime. Does not check that `not_before`
/// is before `not_after`.
///
/// After an error, `writer` has failed, and the octets that were already written remain. Fails
/// with:
///
/// - the errors of `der_write_header`;
/// - the errors of `der_write_time_seconds` for each time.
pub fn der_write_validity(writer: &mut DerWriter<'_>, not_before: i64, not_after: i64) -> DerError
    ensures writes { WritesValidity not_before not_after (writer_state writer.old) result
        (writer_state writer.new) }
    ensures keeps_open { KeepsOpen writer.old writer.new }
{
    let (first, last) = (time_type(not_before), time_type(not_after));
    let header = der_write_header(writer, 0x30, time_size(not_before) + time_size(not_after));
    if header.kind != 0 {
        return header;
    }
    let error = der_write_time_seconds(writer, first, first, not_before);
    if error.kind != 0 {
        return error;
    }
    der_write_time_seconds(writer, last, last, not_after)
}

// The word of the type of a time.
fn time_type(seconds: i64) -> u64
    ensures { result ≡ validity_type seconds }
{
    if is_utc(seconds) { 0x17 } else { 0x18 }
}

// How many octets a time has, with its header.
fn time_size(seconds: i64) -> u32
    ensures { result ≡ validity_size seconds }
{
    if is_utc(seconds) { 15 } else { 17 }
}

// Whether the year of a time is from 1950 to 2049.
fn is_utc(seconds: i64) -> bool
    ensures { result ≡ is_utc_validity seconds }
{
    -631152000 <= seconds && seconds < 2524608000
}
