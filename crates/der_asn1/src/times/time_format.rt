//! Formats of the contents octets of UTCTime and GeneralizedTime.
ghost use Rattle.std.specs.Prelude.{◌≡◌, ◌↔◌, ◌^◌, ◌<◌, ℕ, Bool, true, List, drop, IsSome, IfSome};
ghost use Rattle.der.specs.Prelude.{Tag as ATag};
ghost use Rattle.der.specs.Tag.{label};

use crate::times::date_time::DateTime;
use crate::times::time_octets::TimeOctets;
use der::Tag;

/// Types that describe an ASN.1 time type by its tag and by the format of its contents octets.
///
/// Ghost members (for proofs only): `tag_is` is the tag; `grammar` says which octets are the
/// contents of a time in this format; `holds` says which times can be written in this format;
/// `contents_of` gives the contents octets of each time; `numbered` proves that the number of the
/// tag fits in 32 bits.
pub trait TimeFormat {
    ghost use Rattle.der_asn1.specs.declared.times.date_time.DateTime.{DateTime};

    ghost tag_is: { ATag };

    /// The tag of the type.
    const TAG: Tag;

    /// Returns `Self::TAG`. Generic code calls this function, because it cannot name the constant
    /// in a contract.
    ///
    /// The implementor must ensure that the result is `Self::TAG`.
    fn fixed_tag() -> Tag
        ensures { result ≡ tag_is };

    ghost grammar: { List ℕ → Bool };

    ghost holds: { DateTime → Bool };

    ghost contents_of: { DateTime → List ℕ };

    /// Whether `time` can be written in this format.
    fn can_hold(time: &DateTime) -> bool
        ensures { result ≡ holds time.now };

    /// The time whose contents in this format are `octets`; `None` if no time has these contents.
    fn from_contents(octets: &[u8]) -> Option<DateTime>
        ensures some { IsSome result ↔ (grammar octets.now ≡ true) }
        ensures same { IfSome result (λ v. (holds v ≡ true) × (contents_of v ≡ octets.now)) };

    /// The contents octets of `time` in this format. The caller must ensure that `time` can be
    /// written in this format (see [`TimeFormat::can_hold`]).
    fn to_contents(time: &DateTime) -> TimeOctets
        requires { holds time.now ≡ true }
        ensures octets { drop result.start result.octets ≡ contents_of time.now }
        ensures formed { grammar (contents_of time.now) ≡ true };

    // The tag number fits in 32 bits.
    ghost numbered: { (label tag_is).number < 2 ^ 32 };
}
