//! SETs with components, which are read like a SEQUENCE with the tag of a SET.
ghost use Rattle.std.specs.Prelude.{◌≡◌};
ghost use Rattle.der.specs.Prelude.{map_ok, Set as SetTag};
ghost use Rattle.der_asn1.specs.ContextSpecific.{retagged, TakesImplicit};
ghost use Rattle.der_asn1.specs.Item.{decodes_same, element_is_item, element_item};
ghost use Rattle.der_asn1.specs.AsSet.{as_set, as_set_lawful};

use crate::fields::described::Described;
use crate::fields::explicit::Nestable;
use crate::lists::item::{DecodeItem, Item};
use der::{
    DecodeValue, EncodeValue, Error, FixedTag, Header, IsValue, Lawful, Lends, Length, ReadValue,
    Reader, Tag, Writer, WrittenValue,
};
use std::alloc::Global;

/// A value with the tag of a SET in place of its own tag. Under DER the components of a SET are in
/// ascending order of their tags (X.690 10.3). So a SET with components is an `AsSet<T>`, where `T`
/// is the SEQUENCE of the same components in this order.
#[derive(Clone, Copy, Drop, PartialEq, Eq)]
pub struct AsSet<T>(pub T);

impl<T: FixedTag> FixedTag for AsSet<T> {
    ghost tag_is = { SetTag };

    const TAG: Tag = Tag::Set;

    #[inline(always)]
    fn fixed_tag() -> Tag
        ensures { result ≡ SetTag }
    {
        Tag::Set
    }
}

impl<T: ReadValue + FixedTag> ReadValue for AsSet<T> {
    ghost valid = { λ v. T.valid v.0 };

    ghost takes = { TakesImplicit T.tag_is T.takes (λ v. v.0) };

    ghost value_levels = { T.value_levels };

    ghost allocates = { T.allocates };

    ghost takes_valid = { λ v rules h octets taken. T.takes_valid v.0 rules (retagged T.tag_is h)
        octets taken };
}

/// Decodes the contents as the contents of a value of type `T`.
///
/// # Errors
///
/// The errors of [`DecodeValue::decode_value`] for the type `T`.
impl<R: Lends, T: DecodeValue<R> + FixedTag> DecodeValue<R> for AsSet<T> {
    type Error = <T as DecodeValue<R>>::Error;

    ghost decode_value_answers = { λ h s result t. T.decode_value_answers (retagged T.tag_is h) s
        (map_ok (λ v. v.0) result) t };

    #[inline(always)]
    fn decode_value(
        alloc: Global,
        reader: &mut R,
        header: Header,
    ) -> Result<Self, <T as DecodeValue<R>>::Error>
    where
        R: Reader,
    {
        let own = Header::new(T::fixed_tag(), header.length());
        Ok(AsSet(T::decode_value(alloc, reader, own)?))
    }
}

impl<T: IsValue + FixedTag> IsValue for AsSet<T> {
    fn is_value(&self) {
        self.0.is_value()
    }
}

impl<T: WrittenValue> WrittenValue for AsSet<T> {
    ghost contents = { λ v. T.contents v.0 };

    ghost writable = { λ v. T.writable v.0 };
}

/// Writes the contents of the wrapped value of type `T`.
///
/// # Errors
///
/// The errors of `value_len` and `encode_value` for the wrapped value.
impl<T: EncodeValue> EncodeValue for AsSet<T> {
    ghost value_size = { λ v. T.value_size v.0 };

    ghost encode_value_answers = { λ v. T.encode_value_answers v.0 };

    #[inline(always)]
    fn value_len(&self) -> Result<Length, Error> {
        self.0.value_len()
    }

    #[inline(always)]
    fn encode_value<W: Writer>(&self, writer: &mut W) -> Result<(), Error> {
        self.0.encode_value(writer)
    }

    #[inline(always)]
    fn value_len_before(&self) -> Option<u32> {
        self.0.value_len_before()
    }

    #[inline(always)]
    fn encode_value_before(&self, buf: &mut [u8], end: u32) -> u32 {
        self.0.encode_value_before(buf, end)
    }
}

impl<T: Lawful> Lawful for AsSet<T> {
    ghost lawful = { as_set_lawful (λ v. v.0) T.lawful };
}

impl<T: Nestable + FixedTag> Nestable for AsSet<T> {
    ghost nestable = { T.nestable };
}

impl<T: Described> Described for AsSet<T> {
    ghost element = { as_set T.element (λ v. v.0) };
}

impl<T: ReadValue + WrittenValue + FixedTag> Item for AsSet<T> {
    ghost item = { element_item SetTag (TakesImplicit T.tag_is T.takes (λ v. v.0)) (λ v. T.valid v.0)
        (λ v. T.contents v.0) T.value_levels T.allocates };
}

impl<R: Lends, T: Lawful + DecodeValue<R>> DecodeItem<R> for AsSet<T> {
    ghost is_item = { element_is_item (as_set_lawful (λ v. v.0) T.lawful) T.allocates };

    ghost decodes_items = { decodes_same (element_item SetTag (TakesImplicit T.tag_is T.takes
        (λ v. v.0)) (λ v. T.valid v.0) (λ v. T.contents v.0) T.value_levels T.allocates) };
}
