//! GeneralizedTime.
ghost use Rattle.std.proofs.Common.{arith};
ghost use Rattle.der.specs.Prelude.{GeneralizedTime as GeneralizedTag};
ghost use Rattle.der_asn1.specs.Times.{generalized_octets, generalized_form, is_date_time};

use crate::times::date_time::DateTime;
use crate::times::time_format::TimeFormat;
use crate::times::time_octets::{TimeOctets, generalized_from};
use crate::times::time_of::TimeOf;
use der::Tag;

/// Describes the contents of a GeneralizedTime: the format YYYYMMDDHHMMSSZ, for the years 0 to
/// 9999, without a fraction of a second (X.690 11.7; RFC 5280, 4.1.2.5.2).
#[derive(Clone, Copy)]
pub struct GeneralizedTimeFormat;

/// A GeneralizedTime, as a date with a time of day.
pub type GeneralizedTime = TimeOf<GeneralizedTimeFormat>;

impl TimeFormat for GeneralizedTimeFormat {
    ghost tag_is = { GeneralizedTag };

    const TAG: Tag = Tag::GeneralizedTime;

    #[inline(always)]
    fn fixed_tag() -> Tag {
        Self::TAG
    }

    ghost grammar = { generalized_form };

    ghost holds = { is_date_time };

    ghost contents_of = { generalized_octets };

    fn can_hold(time: &DateTime) -> bool {
        time.is_valid()
    }

    #[inline(always)]
    fn from_contents(octets: &[u8]) -> Option<DateTime> {
        generalized_from(octets)
    }

    fn to_contents(time: &DateTime) -> TimeOctets {
        TimeOctets::generalized(time)
    }

    ghost numbered = { Prim.omega arith };
}
