//! The time types UTCTime and GeneralizedTime. Each is given by the tag word of its universal tag.
ghost use Rattle.std.specs.Prelude.{◌≡◌, ◌↔◌, true, drop, IsSome, IfSome};
ghost use Rattle.der_c_values.specs.TimeValues.{is_time_type as is_known_type, is_time_of, time_contents, time_form};

use der_asn1::{DateTime, GeneralizedTimeFormat, TimeFormat, TimeOctets, UtcTimeFormat};

// Whether the word is that of UTCTime or GeneralizedTime.
pub(crate) fn is_time_type(time_type: u64) -> bool
    ensures { result ≡ is_known_type time_type }
{
    match time_type {
        0x17 | 0x18 => true,
        _ => false,
    }
}

// The time of this type with these contents; `None` if there is none.
pub(crate) fn time_from(time_type: u64, octets: &[u8]) -> Option<DateTime>
    ensures some { IsSome result ↔ (time_form time_type octets.now ≡ true) }
    ensures same { IfSome result (λ t. (is_time_of time_type t ≡ true)
        × (time_contents time_type t ≡ octets.now)) }
{
    match time_type {
        0x17 => UtcTimeFormat::from_contents(octets),
        0x18 => GeneralizedTimeFormat::from_contents(octets),
        _ => None,
    }
}

// Whether there is this time in the type.
pub(crate) fn has_time(time_type: u64, time: &DateTime) -> bool
    ensures { result ≡ is_time_of time_type time.now }
{
    match time_type {
        0x17 => UtcTimeFormat::can_hold(time),
        0x18 => GeneralizedTimeFormat::can_hold(time),
        _ => false,
    }
}

// The contents of the time in the type.
pub(crate) fn contents_of(time_type: u64, time: &DateTime) -> TimeOctets
    requires { is_time_of time_type time.now ≡ true }
    ensures { drop result.start result.octets ≡ time_contents time_type time.now }
{
    if time_type == 0x17 {
        UtcTimeFormat::to_contents(time)
    } else {
        GeneralizedTimeFormat::to_contents(time)
    }
}
