//! UTCTime.
ghost use Rattle.std.proofs.Common.{arith};
ghost use Rattle.der.specs.Prelude.{UtcTime as UtcTag};
ghost use Rattle.der_asn1.specs.Times.{utc_octets, utc_form, is_utc_time};

use crate::times::date_time::DateTime;
use crate::times::time_format::TimeFormat;
use crate::times::time_octets::{TimeOctets, utc_from};
use crate::times::time_of::TimeOf;
use der::Tag;

/// Describes the contents of a UTCTime: the format YYMMDDHHMMSSZ, for the years 1950 to 2049 (X.690
/// 11.8; RFC 5280, 4.1.2.5.1).
#[derive(Clone, Copy)]
pub struct UtcTimeFormat;

/// A UTCTime, as a date with a time of day.
pub type UtcTime = TimeOf<UtcTimeFormat>;

impl TimeFormat for UtcTimeFormat {
    ghost tag_is = { UtcTag };

    const TAG: Tag = Tag::UtcTime;

    #[inline(always)]
    fn fixed_tag() -> Tag {
        Self::TAG
    }

    ghost grammar = { utc_form };

    ghost holds = { is_utc_time };

    ghost contents_of = { utc_octets };

    fn can_hold(time: &DateTime) -> bool {
        1950 <= time.year && time.year < 2050 && time.is_valid()
    }

    #[inline(always)]
    fn from_contents(octets: &[u8]) -> Option<DateTime> {
        utc_from(octets)
    }

    fn to_contents(time: &DateTime) -> TimeOctets {
        TimeOctets::utc(time)
    }

    ghost numbered = { Prim.omega arith };
}
