//! GeneralizedTime with a fraction of a second.
ghost use Rattle.std.specs.Prelude.{◌≡◌, ◌^◌, ◌<◌};
ghost use Rattle.std.proofs.Common.{arith};
ghost use Rattle.der.specs.Prelude.{GeneralizedTime as GeneralizedTag};
ghost use Rattle.der_asn1.specs.FractionalTime.{fractional_form, fractional_reading, nanoseconds_of};

use crate::contents::checked::Checked;
use crate::contents::grammar::ContentsGrammar;
use crate::times::date_time::DateTime;
use crate::times::fraction::{after_seconds, ends_seconds, nanoseconds, seconds_from};
use der::Tag;

/// Describes the contents of a GeneralizedTime that may have a fraction of a second (X.690 11.7).
/// The format is YYYYMMDDHHMMSSZ, or YYYYMMDDHHMMSS.fZ, where `f` stands for one or more digits of
/// which the last is not 0.
pub struct FractionalTimeGrammar;

/// A GeneralizedTime that may have a fraction of a second, borrowed from the input. The time in a
/// timestamp is an example (RFC 3161, 2.4.2).
pub type FractionalTimeRef<'a> = Checked<'a, FractionalTimeGrammar>;

impl ContentsGrammar for FractionalTimeGrammar {
    ghost tag_is = { GeneralizedTag };

    const TAG: Tag = Tag::GeneralizedTime;

    fn fixed_tag() -> Tag {
        Self::TAG
    }

    ghost grammar = { fractional_form };

    fn matches_grammar(octets: &[u8]) -> bool {
        seconds_from(octets).is_some() && ends_seconds(after_seconds(octets))
    }

    ghost numbered = { Prim.omega arith };
}

impl<'a> Checked<'a, FractionalTimeGrammar> {
    /// The date and time, without the fraction.
    pub fn date_time(&self) -> DateTime
        ensures { result ≡ fractional_reading self.now.octets.now }
    {
        match seconds_from(self.octets()) {
            Some(time) => time,
            None => unreachable!(),
        }
    }

    /// The fraction in nanoseconds, from 0 to 999999999. Digits after the ninth are left out.
    pub fn nanoseconds(&self) -> u32
        ensures value { result ≡ nanoseconds_of self.now.octets.now }
        ensures bounded { result < 10 ^ 9 }
    {
        nanoseconds(self.octets())
    }
}
