//! Converting decoded times to seconds from 1970-01-01T00:00:00Z.
ghost use Rattle.std.specs.Prelude.{◌≡◌};
ghost use Rattle.der_c_x509.specs.Times.{IsOptionalTimeOf, time_seconds};

use der_asn1::Optional;
use x509::Time;

// The seconds from 1970-01-01T00:00:00Z to a time.
pub(crate) fn seconds_of(time: &Time) -> i64
    ensures { result ≡ time_seconds time.now }
{
    match time {
        Time::UtcTime(time) => time.date_time().unix_seconds(),
        Time::GeneralTime(time) => time.date_time().unix_seconds(),
    }
}

// The seconds of a time that may be absent; 0 if it is.
pub(crate) fn optional_seconds_of(time: &Optional<Time>) -> i64
    ensures { IsOptionalTimeOf time.now.0 result }
{
    match &time.0 {
        Some(time) => seconds_of(time),
        None => 0,
    }
}
