//! Tags of the classes application and private.
ghost use Rattle.std.specs.Prelude.{◌≡◌, ℕ};
ghost use Rattle.der.specs.Prelude.{map_ok};
ghost use Rattle.der_asn1.specs.ContextSpecific.{retagged, TakesImplicit};
ghost use Rattle.der_asn1.specs.Item.{decodes_same, element_is_item, element_item};
ghost use Rattle.der_asn1.specs.TagClasses.{class_tag, reclassed, reclassed_lawful, in_class};

use crate::defaults::defaulted::DefaultValue;
use crate::defaults::element::DefaultElement;
use crate::fields::described::Described;
use crate::fields::explicit::Nestable;
use crate::lists::item::{DecodeItem, Item};
use der::{
    DecodeValue, EncodeValue, Error, FixedTag, Header, IsValue, Lawful, Lends, Length, ReadValue,
    Reader, Tag, TagNumber, Writer, WrittenValue,
};
use std::alloc::Global;

/// A value whose tag has another class in place of its own: private if `PRIVATE` is true, otherwise
/// application (X.690 8.1.2.2). The tag keeps its number, and is constructed if and only if the
/// value's own tag is constructed. See [`Application`] and [`Private`].
#[derive(Clone, Copy, Drop, PartialEq, Eq)]
pub struct InClass<T, const PRIVATE: bool>(pub T);

/// A value whose tag has the class application in place of its own class: `[APPLICATION 5] IMPLICIT T`
/// is `Application<Implicit<T, 5>>`, and `[APPLICATION 5] EXPLICIT T` is
/// `Application<Explicit<T, 5>>`.
pub type Application<T> = InClass<T, false>;

/// A value whose tag has the class private in place of its own class: `[PRIVATE 5] IMPLICIT T` is
/// `Private<Implicit<T, 5>>`, and `[PRIVATE 5] EXPLICIT T` is `Private<Explicit<T, 5>>`.
pub type Private<T> = InClass<T, true>;

// The tag of the class private or application.
const fn class_tag(is_private: bool, constructed: bool, number: TagNumber) -> Tag
    ensures { result ≡ class_tag is_private constructed number.0 }
{
    if is_private {
        number.private(constructed)
    } else {
        number.application(constructed)
    }
}

impl<T: FixedTag, const PRIVATE: bool> FixedTag for InClass<T, PRIVATE> {
    ghost tag_is = { reclassed PRIVATE T.tag_is };

    const TAG: Tag = class_tag(PRIVATE, Tag::is_constructed(T::TAG), Tag::number(T::TAG));

    #[inline(always)]
    fn fixed_tag() -> Tag
        ensures { result ≡ reclassed PRIVATE T.tag_is }
    {
        let tag = T::fixed_tag();
        class_tag(PRIVATE, tag.is_constructed(), tag.number())
    }
}

impl<T: ReadValue + FixedTag, const PRIVATE: bool> ReadValue for InClass<T, PRIVATE> {
    ghost valid = { λ v. T.valid v.0 };

    ghost takes = { TakesImplicit T.tag_is T.takes (λ v. v.0) };

    ghost value_levels = { T.value_levels };

    ghost allocates = { T.allocates };

    ghost takes_valid = { λ v rules h octets taken. T.takes_valid v.0 rules (retagged T.tag_is h)
        octets taken };
}

/// Decodes the contents as the contents of a value of type `T`.
///
/// # Errors
///
/// The errors of [`DecodeValue::decode_value`] for the type `T`.
impl<R: Lends, T: DecodeValue<R> + FixedTag, const PRIVATE: bool> DecodeValue<R>
    for InClass<T, PRIVATE> {
    type Error = <T as DecodeValue<R>>::Error;

    ghost decode_value_answers = { λ h s result t. T.decode_value_answers (retagged T.tag_is h) s
        (map_ok (λ v. v.0) result) t };

    #[inline(always)]
    fn decode_value(
        alloc: Global,
        reader: &mut R,
        header: Header,
    ) -> Result<Self, <T as DecodeValue<R>>::Error>
    where
        R: Reader,
    {
        let own = Header::new(T::fixed_tag(), header.length());
        Ok(InClass(T::decode_value(alloc, reader, own)?))
    }
}

impl<T: IsValue + FixedTag, const PRIVATE: bool> IsValue for InClass<T, PRIVATE> {
    fn is_value(&self) {
        self.0.is_value()
    }
}

impl<T: WrittenValue, const PRIVATE: bool> WrittenValue for InClass<T, PRIVATE> {
    ghost contents = { λ v. T.contents v.0 };

    ghost writable = { λ v. T.writable v.0 };
}

/// Writes the contents of the wrapped value of type `T`.
///
/// # Errors
///
/// The errors of `value_len` and `encode_value` for the wrapped value.
impl<T: EncodeValue, const PRIVATE: bool> EncodeValue for InClass<T, PRIVATE> {
    ghost value_size = { λ v. T.value_size v.0 };

    ghost encode_value_answers = { λ v. T.encode_value_answers v.0 };

    #[inline(always)]
    fn value_len(&self) -> Result<Length, Error> {
        self.0.value_len()
    }

    #[inline(always)]
    fn encode_value<W: Writer>(&self, writer: &mut W) -> Result<(), Error> {
        self.0.encode_value(writer)
    }

    #[inline(always)]
    fn value_len_before(&self) -> Option<u32> {
        self.0.value_len_before()
    }

    #[inline(always)]
    fn encode_value_before(&self, buf: &mut [u8], end: u32) -> u32 {
        self.0.encode_value_before(buf, end)
    }
}

impl<T: Lawful, const PRIVATE: bool> Lawful for InClass<T, PRIVATE> {
    ghost lawful = { reclassed_lawful PRIVATE (λ v. v.0) T.lawful };
}

impl<T: Nestable + FixedTag, const PRIVATE: bool> Nestable for InClass<T, PRIVATE> {
    ghost nestable = { T.nestable };
}

impl<T: Described, const PRIVATE: bool> Described for InClass<T, PRIVATE> {
    ghost element = { in_class PRIVATE T.element (λ v. v.0) };
}

/// The default value is the default of `T`, with the new class in the tag.
impl<T: DefaultValue, const PRIVATE: bool> DefaultValue for InClass<T, PRIVATE> {
    ghost is_default = { λ v. T.is_default v.0 };

    fn default_value() -> Self {
        InClass(T::default_value())
    }

    #[inline(always)]
    fn has_default(&self) -> bool {
        self.0.has_default()
    }
}

impl<T: DefaultElement + FixedTag, const PRIVATE: bool> DefaultElement for InClass<T, PRIVATE> {
    ghost decided = { λ v w rules h octets one two. T.decided v.0 w.0 rules (retagged T.tag_is h)
        octets one two };
}

impl<T: ReadValue + WrittenValue + FixedTag, const PRIVATE: bool> Item for InClass<T, PRIVATE> {
    ghost item = { element_item (reclassed PRIVATE T.tag_is) (TakesImplicit T.tag_is T.takes
        (λ v. v.0)) (λ v. T.valid v.0) (λ v. T.contents v.0) T.value_levels T.allocates };
}

impl<R: Lends, T: Lawful + DecodeValue<R>, const PRIVATE: bool> DecodeItem<R>
    for InClass<T, PRIVATE> {
    ghost is_item = { element_is_item (reclassed_lawful PRIVATE (λ v. v.0) T.lawful) T.allocates };

    ghost decodes_items = { decodes_same (element_item (reclassed PRIVATE T.tag_is)
        (TakesImplicit T.tag_is T.takes (λ v. v.0)) (λ v. T.valid v.0) (λ v. T.contents v.0)
        T.value_levels T.allocates) };
}
