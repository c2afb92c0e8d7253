//! The fraction of a second in a time.
ghost use Rattle.std.specs.Prelude.{◌≡◌, ◌↔◌, ◌^◌, ◌<◌, true, false, drop, IsSome, IfSome};
ghost use Rattle.der_asn1.specs.FractionalTime.{digit_at, ends_fraction, ends_seconds};
ghost use Rattle.der_asn1.specs.FractionalTime.{nanoseconds_of, whole_seconds};
ghost use Rattle.der_asn1.specs.Times.{generalized_form, generalized_reading};

use crate::times::date_time::DateTime;
use crate::times::time_octets::generalized_from;

// The date and time without the fraction, with which the contents begin; `None` if there is none.
pub(crate) fn seconds_from(octets: &[u8]) -> Option<DateTime>
    ensures some { IsSome result ↔ (generalized_form (whole_seconds octets.now) ≡ true) }
    ensures same { IfSome result (λ v. v ≡ generalized_reading (whole_seconds octets.now)) }
{
    match octets {
        [a, b, c, d, e, f, g, h, i, j, k, l, m, n, ..] => {
            let whole = [*a, *b, *c, *d, *e, *f, *g, *h, *i, *j, *k, *l, *m, *n, b'Z'];
            generalized_from(&whole)
        }
        _ => None,
    }
}

// The octets after the seconds.
pub(crate) fn after_seconds(octets: &[u8]) -> &[u8]
    ensures { result.now ≡ drop 14 octets.now }
{
    octets.get(14..).unwrap_or(&[])
}

// Whether the octets after the seconds are Z, or a fraction and Z.
pub(crate) fn ends_seconds(octets: &[u8]) -> bool
    ensures { result ≡ ends_seconds octets.now }
{
    match octets {
        [b'.', digits @ ..] => ends_fraction(digits),
        [first, rest @ ..] => *first == b'Z' && rest.is_empty(),
        [] => false,
    }
}

// Whether the octets are digits, the last of which is not 0, and Z.
fn ends_fraction(octets: &[u8]) -> bool
    ensures { result ≡ ends_fraction false octets.now }
{
    let mut may_end = false;
    let mut rest = octets;
    'digits: while let [octet, more @ ..] = rest {
        if *octet == b'Z' {
            return may_end && more.is_empty();
        }
        if *octet < b'0' || b'9' < *octet {
            return false;
        }
        may_end = *octet != b'0';
        rest = more;
    }
    false
}

// The nanoseconds of a time with these contents: the first nine digits of its fraction.
pub(crate) fn nanoseconds(octets: &[u8]) -> u32
    ensures value { result ≡ nanoseconds_of octets.now }
    ensures bounded { result < 10 ^ 9 }
{
    100_000_000 * digit_at(octets, 15)
        + 10_000_000 * digit_at(octets, 16)
        + 1_000_000 * digit_at(octets, 17)
        + 100_000 * digit_at(octets, 18)
        + 10_000 * digit_at(octets, 19)
        + 1_000 * digit_at(octets, 20)
        + 100 * digit_at(octets, 21)
        + 10 * digit_at(octets, 22)
        + digit_at(octets, 23)
}

// The digit at a place, or 0 if there is none.
fn digit_at(octets: &[u8], at: usize) -> u32
    ensures value { result ≡ digit_at at octets.now }
    ensures bounded { result < 10 }
{
    match octets.get(at) {
        Some(octet) if octet.is_ascii_digit() => u32::from(*octet - b'0'),
        _ => 0,
    }
}
