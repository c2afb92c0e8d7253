//! Elements that have a default value.
ghost use Rattle.std.specs.Prelude.{◌≡◌, ℕ, List};
ghost use Rattle.der.specs.Prelude.{EncodingRules as Rules, Head};
ghost use Rattle.der_asn1.specs.CheckedLemmas.{one_element};
ghost use Rattle.der_asn1.specs.ContextSpecific.{retagged};

use crate::defaults::defaulted::{DefaultValue, HasDefault};
use crate::fields::explicit::Explicit;
use crate::fields::implicit::Implicit;
use der::{DecodeValue, FixedTag, Lends, ReadValue};

/// Types with a fixed tag that have a default value. Such a type can be the type of a DEFAULT field
/// (see [`Defaulted`](crate::Defaulted)).
///
/// Ghost member (for proofs only): `decided` proves that, if two values can be read from the same
/// contents, both are the default or neither is.
pub trait DefaultElement: ReadValue + DefaultValue {
    // If two values can be read from the same contents, both are the default or neither is.
    ghost decided: { (v w : Self) (rules : Rules) (h : Head) (octets : List ℕ)
        → Self.takes v rules h octets → Self.takes w rules h octets
        → Self.is_default v ≡ Self.is_default w };
}

impl<R: Lends, T: DecodeValue<R> + FixedTag + DefaultElement> HasDefault<R> for T {
    ghost reported = { λ v w rules octets m n one two. one_element T.decided one two };
}

/// The default value is the default of `T`, with the EXPLICIT tag.
impl<T: DefaultValue, const N: u32> DefaultValue for Explicit<T, N> {
    ghost is_default = { λ v. T.is_default v.0 };

    fn default_value() -> Self {
        Explicit(T::default_value())
    }

    #[inline(always)]
    fn has_default(&self) -> bool {
        self.0.has_default()
    }
}

impl<T: DefaultElement + FixedTag, const N: u32> DefaultElement for Explicit<T, N> {
    ghost decided = { λ v w rules h octets one two. one_element T.decided one two };
}

/// The default value is the default of `T`, with the IMPLICIT tag.
impl<T: DefaultValue, const N: u32> DefaultValue for Implicit<T, N> {
    ghost is_default = { λ v. T.is_default v.0 };

    fn default_value() -> Self {
        Implicit(T::default_value())
    }

    #[inline(always)]
    fn has_default(&self) -> bool {
        self.0.has_default()
    }
}

impl<T: DefaultElement + FixedTag, const N: u32> DefaultElement for Implicit<T, N> {
    ghost decided = { λ v w rules h octets one two. T.decided v.0 w.0 rules (retagged T.tag_is h)
        octets one two };
}
