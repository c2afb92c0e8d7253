//! The validity period of a certificate (RFC 5280, 6.1.3 (a) (2)).
ghost use Rattle.std.specs.Prelude.{◌≢◌, ◌↔◌, IsTrue};
ghost use Rattle.std.specs.declared.cmp.Ordering.TheVariants.{Greater};
ghost use Rattle.der_asn1.specs.Times.{time_order};
ghost use Rattle.x509_path.specs.Validity.{IsCurrent};

use der_asn1::DateTime;
use std::cmp::Ordering;
use x509::Validity;

// Whether the time is within the period. Its first and its last second belong to it.
pub(crate) fn is_current(validity: &Validity, time: DateTime) -> bool
    ensures { IsTrue result ↔ IsCurrent validity.now time }
{
    is_not_after(validity.not_before.date_time(), time)
        && is_not_after(time, validity.not_after.date_time())
}

fn is_not_after(first: DateTime, second: DateTime) -> bool
    ensures { IsTrue result ↔ (time_order first second ≢ Greater) }
{
    match first.cmp(&second) {
        Ordering::Less | Ordering::Equal => true,
        Ordering::Greater => false,
    }
}
