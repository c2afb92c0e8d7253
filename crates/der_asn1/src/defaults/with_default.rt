//! Values of DEFAULT fields whose default is given for one field, and not by the type of the field.
ghost use Rattle.std.specs.Prelude.{◌≡◌, ℕ, List, ⊤, bytes_eq};
ghost use Rattle.std.proofs.Common.{ap};
ghost use Rattle.der.specs.Prelude.{map_ok};
ghost use Rattle.der_asn1.specs.Meaning.{renamed, seen_lawful};

use crate::defaults::defaulted::DefaultValue;
use crate::defaults::element::DefaultElement;
use crate::elements::equal_contents::EqualContents;
use crate::fields::described::Described;
use crate::fields::explicit::Nestable;
use der::{
    DecodeValue, EncodeValue, Error, FixedTag, Header, IsValue, Lawful, Lends, Length, ReadValue,
    Reader, Tag, Writer, WrittenValue,
};
use std::alloc::{AllocError, Global};
use std::marker::PhantomData;

/// Types that stand for a value of `T`: the default value of a DEFAULT field (see [`WithDefault`]).
///
/// Ghost member (for proofs only): `default_contents` gives the contents octets of that value.
pub trait DefaultOf<T: WrittenValue> {
    ghost default_contents: { List ℕ };

    /// The default value.
    fn default_value() -> T
        ensures { T.contents result ≡ default_contents };
}

/// The value of a DEFAULT field whose default is given by `D` (see [`DefaultOf`]) and not by the
/// type `T`. The type of the field is `Defaulted<WithDefault<T, D>>`. The value is encoded like a
/// value of type `T`.
pub struct WithDefault<T: Copy, D> {
    /// The value, which may be the default.
    pub value: T,
    default: PhantomData<D>,
}

/// A clone has the same value; cloning does not allocate.
impl<T: Copy, D> Clone for WithDefault<T, D> {
    ghost is_clone = { λ p q. q ≡ p };

    ghost is_infallible = { λ _. ⊤ };

    fn clone(&self) -> Result<Self, AllocError> {
        Ok(WithDefault::new(self.value))
    }
}

impl<T: Copy, D> Copy for WithDefault<T, D> {}

/// Two values are equal if their fields `value` are equal.
impl<T: PartialEq + Copy, D> PartialEq for WithDefault<T, D> {
    ghost use Rattle.std.specs.Cmp.{on_per};

    ghost eq = { λ v w. T.eq v.value w.value };

    ghost laws = { on_per (λ v. v.value) T.laws };

    fn eq(&self, other: &Self) -> bool {
        self.value == other.value
    }
}

impl<T: Eq + Copy, D> Eq for WithDefault<T, D> {
    ghost use Rattle.std.specs.Cmp.{on_equiv};

    ghost laws = { on_equiv (λ v. v.value) T.Eq.laws };
}

impl<T: Copy, D> WithDefault<T, D> {
    /// Wraps `value`, which may be the default.
    #[inline(always)]
    pub fn new(value: T) -> Self
        ensures { result.value ≡ value }
    {
        WithDefault {
            value,
            default: PhantomData,
        }
    }
}

impl<T: EqualContents + Copy, D: DefaultOf<T>> DefaultValue for WithDefault<T, D> {
    ghost is_default = { λ v. bytes_eq (T.contents v.value) D.default_contents };

    fn default_value() -> Self {
        WithDefault::new(D::default_value())
    }

    fn has_default(&self) -> bool {
        self.value == D::default_value()
    }
}

impl<T: EqualContents + Copy, D: DefaultOf<T>> DefaultElement for WithDefault<T, D> {
    ghost decided = { λ v w rules h octets one two. ap (λ c. bytes_eq c D.default_contents)
        (T.one_contents v.value w.value rules h octets one two) };
}

impl<T: FixedTag + Copy, D> FixedTag for WithDefault<T, D> {
    ghost tag_is = { T.tag_is };

    const TAG: Tag = T::TAG;

    #[inline(always)]
    fn fixed_tag() -> Tag
        ensures { result ≡ T.tag_is }
    {
        T::fixed_tag()
    }
}

impl<T: ReadValue + Copy, D> ReadValue for WithDefault<T, D> {
    ghost valid = { λ v. T.valid v.value };

    ghost takes = { λ v. T.takes v.value };

    ghost value_levels = { T.value_levels };

    ghost allocates = { T.allocates };

    ghost takes_valid = { λ v. T.takes_valid v.value };
}

/// Decodes a value of type `T`. The default value is decoded like any other value.
///
/// # Errors
///
/// The errors of [`DecodeValue::decode_value`] for the type `T`.
impl<R: Lends, T: DecodeValue<R> + Copy, D> DecodeValue<R> for WithDefault<T, D> {
    type Error = <T as DecodeValue<R>>::Error;

    ghost decode_value_answers = { λ h s result t. T.decode_value_answers h s
        (map_ok (λ v. v.value) result) t };

    #[inline(always)]
    fn decode_value(
        alloc: Global,
        reader: &mut R,
        header: Header,
    ) -> Result<Self, <T as DecodeValue<R>>::Error>
    where
        R: Reader,
    {
        Ok(WithDefault::new(T::decode_value(alloc, reader, header)?))
    }
}

impl<T: IsValue + Copy, D> IsValue for WithDefault<T, D> {
    fn is_value(&self) {
        self.value.is_value()
    }
}

impl<T: WrittenValue + Copy, D> WrittenValue for WithDefault<T, D> {
    ghost contents = { λ v. T.contents v.value };

    ghost writable = { λ v. T.writable v.value };
}

/// Writes the contents of the value of type `T`.
///
/// # Errors
///
/// The errors of `value_len` and `encode_value` for the value of type `T`.
impl<T: EncodeValue + Copy, D> EncodeValue for WithDefault<T, D> {
    ghost value_size = { λ v. T.value_size v.value };

    ghost encode_value_answers = { λ v. T.encode_value_answers v.value };

    #[inline(always)]
    fn value_len(&self) -> Result<Length, Error> {
        self.value.value_len()
    }

    #[inline(always)]
    fn encode_value<W: Writer>(&self, writer: &mut W) -> Result<(), Error> {
        self.value.encode_value(writer)
    }

    #[inline(always)]
    fn value_len_before(&self) -> Option<u32> {
        self.value.value_len_before()
    }

    #[inline(always)]
    fn encode_value_before(&self, buf: &mut [u8], end: u32) -> u32 {
        self.value.encode_value_before(buf, end)
    }
}

impl<T: Lawful + Copy, D> Lawful for WithDefault<T, D> {
    ghost lawful = { seen_lawful (λ v. v.value) T.lawful };
}

impl<T: Nestable + Copy, D> Nestable for WithDefault<T, D> {
    ghost nestable = { T.nestable };
}

impl<T: Described + Copy, D> Described for WithDefault<T, D> {
    ghost element = { renamed T.element (λ v. v.value) };
}
