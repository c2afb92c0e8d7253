//! Checks of the times of a certificate (RFC 5280, 4.1.2.5).
ghost use Rattle.std.specs.Prelude.{◌↔◌, IsTrue};
ghost use Rattle.x509_lint.specs.ValidityChecks.{HasFormOfYear, HasFormsOfYears, IsOrdered};

use std::cmp::Ordering;
use x509::{Time, Validity};

/// Whether the time has the form that its year requires: UTCTime for the year 2049 and earlier
/// years, GeneralizedTime from 2050 on (RFC 5280, 4.1.2.5). Decoding does not check this.
pub fn has_form_of_year(time: &Time) -> bool
    ensures { IsTrue result ↔ HasFormOfYear time.now }
{
    match time {
        Time::UtcTime(time) => time.date_time().year < 2050,
        Time::GeneralTime(time) => time.date_time().year >= 2050,
    }
}

/// Whether both times have the form that their years require (RFC 5280, 4.1.2.5).
pub fn has_forms_of_years(validity: &Validity) -> bool
    ensures { IsTrue result ↔ HasFormsOfYears validity.now }
{
    has_form_of_year(&validity.not_before) && has_form_of_year(&validity.not_after)
}

/// Whether the period of validity does not end before it begins (RFC 5280, 4.1.2.5). Also true if
/// it ends when it begins.
pub fn is_ordered(validity: &Validity) -> bool
    ensures { IsTrue result ↔ IsOrdered validity.now }
{
    match validity
        .not_before
        .date_time()
        .cmp(&validity.not_after.date_time())
    {
        Ordering::Less | Ordering::Equal => true,
        Ordering::Greater => false,
    }
}
