//! The values of OPTIONAL fields, without their EXPLICIT or IMPLICIT tags.
ghost use Rattle.std.specs.Prelude.{◌≡◌};
ghost use Rattle.std.specs.Option.{option_map};

use crate::fields::explicit::Explicit;
use crate::fields::implicit::Implicit;
use crate::fields::in_class::InClass;
use crate::fields::optional::Optional;

/// Types of values with an EXPLICIT or IMPLICIT tag: [`Explicit`], [`Implicit`], and [`InClass`] of
/// one of these two.
///
/// Ghost member (for proofs only): `untagged` gives the value without the EXPLICIT or IMPLICIT tag.
pub trait TaggedField {
    /// The type of the value without the EXPLICIT or IMPLICIT tag.
    type Untagged;

    ghost untagged: { Self → Self.Untagged };

    /// The value without the EXPLICIT or IMPLICIT tag.
    fn untagged(&self) -> Self::Untagged
        ensures { result ≡ untagged self.now };
}

impl<T: Copy, const N: u32> TaggedField for Explicit<T, N> {
    type Untagged = T;

    ghost untagged = { λ v. v.0 };

    #[inline(always)]
    fn untagged(&self) -> T {
        self.0
    }
}

impl<T: Copy, const N: u32> TaggedField for Implicit<T, N> {
    type Untagged = T;

    ghost untagged = { λ v. v.0 };

    #[inline(always)]
    fn untagged(&self) -> T {
        self.0
    }
}

impl<T: TaggedField, const PRIVATE: bool> TaggedField for InClass<T, PRIVATE> {
    type Untagged = T::Untagged;

    ghost untagged = { λ v. T.untagged v.0 };

    #[inline(always)]
    fn untagged(&self) -> T::Untagged {
        self.0.untagged()
    }
}

impl<T: TaggedField> Optional<T> {
    /// The value without its EXPLICIT or IMPLICIT tag, or `None` if the field is absent. This
    /// function exists only for fields with an EXPLICIT or IMPLICIT tag. The value of any other
    /// OPTIONAL field is the member `0` of [`Optional`].
    #[inline(always)]
    pub fn value(&self) -> Option<T::Untagged>
        ensures { result ≡ option_map T.untagged self.now.0 }
    {
        match &self.0 {
            Some(field) => Some(field.untagged()),
            None => None,
        }
    }
}
