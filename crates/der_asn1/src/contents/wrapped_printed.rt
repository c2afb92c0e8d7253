//! Wrapped values as text, for engineers: values with a tag, OPTIONAL and DEFAULT fields, and the
//! alternatives of a CHOICE.
ghost use Rattle.std.specs.Fmt.{debug_option, debug_variant};
ghost use Rattle.std.specs.Prelude.{Some, true};
ghost use Rattle.der.specs.Text.{tag_text};
ghost use Rattle.der.specs.Tag.{label};
ghost use Rattle.der_asn1.specs.AnyRef.{any_contents};
ghost use Rattle.der_asn1.specs.ContextSpecific.{context_tag};
ghost use Rattle.der_asn1.specs.Printed.{either_text, value_text};
ghost use Rattle.der_asn1.specs.TagClasses.{reclassed};

use crate::defaults::defaulted::Defaulted;
use crate::defaults::with_default::WithDefault;
use crate::fields::either::Either;
use crate::fields::explicit::Explicit;
use crate::fields::explicit_any::ExplicitAny;
use crate::fields::implicit::Implicit;
use crate::fields::in_class::InClass;
use crate::fields::optional::Optional;
use der::FixedTag;
use std::fmt;

/// Prints the tag as its `Display` does, then the wrapped value in parentheses, such as
/// `CONTEXT-SPECIFIC [0] (constructed)(INTEGER(2A))`.
impl<T: fmt::Debug, const N: u32> fmt::Debug for Explicit<T, N> {
    ghost debug_output = { λ v. debug_variant (tag_text (context_tag true N))
        (T.debug_output v.0) };

    fn fmt<W: fmt::Write>(&self, f: &mut fmt::Formatter<W>) -> fmt::Result {
        let (outer, value) = (<Self as FixedTag>::fixed_tag(), &self.0);
        write!(f, "{outer}({value:?})")
    }
}

/// Prints the tag of the outer element as its `Display` does, then the inner element in
/// parentheses, such as `CONTEXT-SPECIFIC [0] (constructed)(INTEGER(2A))`.
impl<'a, const N: u32> fmt::Debug for ExplicitAny<'a, N> {
    ghost debug_output = { λ v. debug_variant (tag_text (context_tag true N))
        (Some (value_text v.0.tag (any_contents v.0))) };

    fn fmt<W: fmt::Write>(&self, f: &mut fmt::Formatter<W>) -> fmt::Result {
        let (outer, element) = (<Self as FixedTag>::fixed_tag(), &self.0);
        write!(f, "{outer}({element:?})")
    }
}

/// Prints the IMPLICIT tag as its `Display` does, then the wrapped value in parentheses. The
/// wrapped value is printed with the name of its own type, such as `CONTEXT-SPECIFIC [0]
/// (primitive)(INTEGER(2A))`.
impl<T: fmt::Debug + FixedTag, const N: u32> fmt::Debug for Implicit<T, N> {
    ghost debug_output = { λ v. debug_variant
        (tag_text (context_tag (label T.tag_is).constructed N)) (T.debug_output v.0) };

    fn fmt<W: fmt::Write>(&self, f: &mut fmt::Formatter<W>) -> fmt::Result {
        let (tag, value) = (<Self as FixedTag>::fixed_tag(), &self.0);
        write!(f, "{tag}({value:?})")
    }
}

/// Prints the tag with the changed class as its `Display` does, then the wrapped value in
/// parentheses. The wrapped value is printed with the name of its own type, such as `APPLICATION
/// [2] (primitive)(INTEGER(2A))`.
impl<T: fmt::Debug + FixedTag, const PRIVATE: bool> fmt::Debug for InClass<T, PRIVATE> {
    ghost debug_output = { λ v. debug_variant (tag_text (reclassed PRIVATE T.tag_is))
        (T.debug_output v.0) };

    fn fmt<W: fmt::Write>(&self, f: &mut fmt::Formatter<W>) -> fmt::Result {
        let (tag, wrapped) = (<Self as FixedTag>::fixed_tag(), &self.0);
        write!(f, "{tag}({wrapped:?})")
    }
}

/// Prints the name of the alternative, then its value in parentheses, such as
/// `First(INTEGER(2A))`.
impl<A: fmt::Debug, B: fmt::Debug> fmt::Debug for Either<A, B> {
    ghost debug_output = { either_text A.debug_output B.debug_output };

    fn fmt<W: fmt::Write>(&self, f: &mut fmt::Formatter<W>) -> fmt::Result {
        match self {
            Either::First(value) => write!(f, "First({value:?})"),
            Either::Second(value) => write!(f, "Second({value:?})"),
        }
    }
}

/// Prints `None` if the field is absent, otherwise `Some` and the value, such as
/// `Some(INTEGER(2A))`.
impl<T: fmt::Debug> fmt::Debug for Optional<T> {
    ghost debug_output = { λ v. debug_option T.debug_output v.0 };

    fn fmt<W: fmt::Write>(&self, f: &mut fmt::Formatter<W>) -> fmt::Result {
        let Optional(option) = self;
        fmt::Debug::fmt(option, f)
    }
}

/// Prints the value of the field, even if the value is the default.
impl<T: fmt::Debug> fmt::Debug for Defaulted<T> {
    ghost debug_output = { λ v. T.debug_output v.0 };

    fn fmt<W: fmt::Write>(&self, f: &mut fmt::Formatter<W>) -> fmt::Result {
        fmt::Debug::fmt(&self.0, f)
    }
}

/// Prints the wrapped value of type `T`. The default `D` is not printed.
impl<T: fmt::Debug + Copy, D> fmt::Debug for WithDefault<T, D> {
    ghost debug_output = { λ v. T.debug_output v.value };

    fn fmt<W: fmt::Write>(&self, f: &mut fmt::Formatter<W>) -> fmt::Result {
        fmt::Debug::fmt(&self.value, f)
    }
}
