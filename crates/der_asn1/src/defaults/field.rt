//! The values of DEFAULT fields, without their EXPLICIT or IMPLICIT tags.
ghost use Rattle.std.specs.Prelude.{◌≡◌};

use crate::contents::checked::Checked;
use crate::contents::grammar::ContentsGrammar;
use crate::defaults::defaulted::Defaulted;
use crate::defaults::with_default::WithDefault;
use crate::fields::explicit::Explicit;
use crate::fields::implicit::Implicit;
use crate::fields::in_class::InClass;

/// Types of DEFAULT fields from which the plain value can be taken. The plain value is what remains
/// without the wrappers [`Explicit`], [`Implicit`], [`InClass`] and [`WithDefault`]. A [`Checked`]
/// is its own plain value.
///
/// Ghost member (for proofs only): `plain` gives the plain value.
pub trait DefaultField {
    /// The type of the value without the wrappers [`Explicit`], [`Implicit`], [`InClass`] and
    /// [`WithDefault`].
    type Plain;

    ghost plain: { Self → Self.Plain };

    /// The value without the wrappers [`Explicit`], [`Implicit`], [`InClass`] and [`WithDefault`].
    fn plain(&self) -> Self::Plain
        ensures { result ≡ plain self.now };
}

impl<'a, F: ContentsGrammar> DefaultField for Checked<'a, F> {
    type Plain = Checked<'a, F>;

    ghost plain = { λ v. v };

    #[inline(always)]
    fn plain(&self) -> Checked<'a, F> {
        *self
    }
}

impl<T: Copy, D> DefaultField for WithDefault<T, D> {
    type Plain = T;

    ghost plain = { λ v. v.value };

    #[inline(always)]
    fn plain(&self) -> T {
        self.value
    }
}

impl<T: DefaultField, const N: u32> DefaultField for Explicit<T, N> {
    type Plain = T::Plain;

    ghost plain = { λ v. T.plain v.0 };

    #[inline(always)]
    fn plain(&self) -> T::Plain {
        self.0.plain()
    }
}

impl<T: DefaultField, const N: u32> DefaultField for Implicit<T, N> {
    type Plain = T::Plain;

    ghost plain = { λ v. T.plain v.0 };

    #[inline(always)]
    fn plain(&self) -> T::Plain {
        self.0.plain()
    }
}

impl<T: DefaultField, const PRIVATE: bool> DefaultField for InClass<T, PRIVATE> {
    type Plain = T::Plain;

    ghost plain = { λ v. T.plain v.0 };

    #[inline(always)]
    fn plain(&self) -> T::Plain {
        self.0.plain()
    }
}

impl<T: DefaultField> Defaulted<T> {
    /// The value of the field, without the EXPLICIT or IMPLICIT tag that the field may have. If the
    /// field is absent, the value is the default.
    #[inline(always)]
    pub fn value(&self) -> T::Plain
        ensures { result ≡ T.plain self.now.0 }
    {
        self.0.plain()
    }
}
