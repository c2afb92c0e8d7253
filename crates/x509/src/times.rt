//! The date and time of a Time, which is a UTCTime or a GeneralizedTime (RFC 5280, 4.1.2.5).
ghost use Rattle.std.specs.Prelude.{◌≡◌};
ghost use Rattle.x509.specs.CertificateTimes.{date_time_of};

use crate::asn1::Time;
use der_asn1::DateTime;

impl Time {
    /// The date and the time of day.
    pub fn date_time(&self) -> DateTime
        ensures { result ≡ date_time_of self.now }
    {
        match self {
            Time::UtcTime(time) => time.date_time(),
            Time::GeneralTime(time) => time.date_time(),
        }
    }
}
