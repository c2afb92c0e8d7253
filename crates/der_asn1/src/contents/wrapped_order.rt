//! Comparison of values that are wrapped in a tag (such as [`Explicit`]) or in [`WithDefault`].
ghost use Rattle.std.specs.Prelude.{◌≡◌};
ghost use Rattle.std.proofs.Common.{refl};
ghost use Rattle.der.specs.DerOrd.{element_order};
ghost use Rattle.der.specs.OctetsOrder.{octets_order};
ghost use Rattle.der_asn1.specs.AnyRef.{any_contents, any_size};

use crate::defaults::with_default::WithDefault;
use crate::fields::explicit::Explicit;
use crate::fields::explicit_any::ExplicitAny;
use crate::fields::implicit::Implicit;
use crate::fields::in_class::InClass;
use der::{DerOrd, Error, FixedTag, Orderly, ValueOrd};
use std::cmp::Ordering;

/// Compares the contents of the wrapped values.
///
/// # Errors
///
/// The errors of [`ValueOrd::value_cmp`] for the wrapped values.
impl<T: ValueOrd, const N: u32> ValueOrd for Implicit<T, N> {
    ghost value_order = { λ v w. T.value_order v.0 w.0 };

    #[inline(always)]
    fn value_cmp(&self, other: &Self) -> Result<Ordering, Error> {
        self.0.value_cmp(&other.0)
    }
}

impl<T: Orderly + FixedTag, const N: u32> Orderly for Implicit<T, N> {
    ghost orderly = { λ v w _ as_long. T.orderly v.0 w.0 refl as_long };
}

/// Compares the contents of the wrapped values.
///
/// # Errors
///
/// The errors of [`ValueOrd::value_cmp`] for the wrapped values.
impl<T: ValueOrd, const PRIVATE: bool> ValueOrd for InClass<T, PRIVATE> {
    ghost value_order = { λ v w. T.value_order v.0 w.0 };

    #[inline(always)]
    fn value_cmp(&self, other: &Self) -> Result<Ordering, Error> {
        let (wrapped, others) = (&self.0, &other.0);
        wrapped.value_cmp(others)
    }
}

impl<T: Orderly + FixedTag, const PRIVATE: bool> Orderly for InClass<T, PRIVATE> {
    ghost orderly = { λ v w _ as_long. T.orderly v.0 w.0 refl as_long };
}

/// Compares the contents of the two wrapped values of type `T`. The default `D` has no effect.
///
/// # Errors
///
/// The errors of [`ValueOrd::value_cmp`] for the wrapped values.
impl<T: ValueOrd + Copy, D> ValueOrd for WithDefault<T, D> {
    ghost value_order = { λ v w. T.value_order v.value w.value };

    #[inline(always)]
    fn value_cmp(&self, other: &Self) -> Result<Ordering, Error> {
        self.value.value_cmp(&other.value)
    }
}

/// Compares the inner elements, which are the elements of the wrapped values of type `T`.
///
/// # Errors
///
/// The errors of [`DerOrd::der_cmp`] for the wrapped values. The comparison fails if the length of
/// an inner element cannot be computed, so this type is not [`Orderly`].
impl<T: DerOrd, const N: u32> ValueOrd for Explicit<T, N> {
    ghost value_order = { λ v w. T.order v.0 w.0 };

    #[inline(always)]
    fn value_cmp(&self, other: &Self) -> Result<Ordering, Error> {
        self.0.der_cmp(&other.0)
    }
}

/// Compares the two inner elements.
///
/// # Errors
///
/// The errors of [`DerOrd::der_cmp`] for the inner elements.
impl<'a, const N: u32> ValueOrd for ExplicitAny<'a, N> {
    ghost value_order = { λ v w. element_order v.0.tag w.0.tag (any_size v.0) (any_size w.0)
        (octets_order any_contents v.0 w.0) };

    #[inline(always)]
    fn value_cmp(&self, other: &Self) -> Result<Ordering, Error> {
        let (element, others) = (&self.0, &other.0);
        element.der_cmp(others)
    }
}
