//! Elements that a type with an extension mark does not know.
ghost use Rattle.std.specs.Prelude.{◌≡◌, ◌↔◌, false, IsTrue, ⊤};
ghost use Rattle.std.proofs.Common.{refl};
ghost use Rattle.der.specs.Prelude.{element_levels};
ghost use Rattle.der_asn1.specs.AnyElement.{AnyElementNext, AnyElementRead};
ghost use Rattle.der_asn1.specs.AnyRef.{AnyRead, AnyWritten, IsAny, TakesAny, any_contents, any_size};
ghost use Rattle.der_asn1.specs.Item.{decodes_same};
ghost use Rattle.der_asn1.specs.Meaning.{choice_is_item, choice_item};
ghost use Rattle.der_asn1.specs.TagSets.{all_but, IsOf, is_among};
ghost use Rattle.der_asn1.specs.UnknownElement.{UnknownRead, unknown_element};

use crate::elements::any::AnyRef;
use crate::fields::choice::{Choice, DecodeChoice};
use crate::fields::described_choice::DescribedChoice;
use crate::fields::known_tags::KnownTags;
use crate::lists::item::{DecodeItem, Item};
use crate::lists::iter::BorrowedItem;
use der::{
    Decode, EncodeValue, Error, ErrorKind, IsValue, Lends, Length, Reader, Tag, Tagged, Writer,
    WrittenValue,
};
use std::alloc::{AllocError, Global};
use std::marker::PhantomData;

/// An element whose tag a type with an extension mark does not know. A later version of the type
/// may define the element, as an alternative of a CHOICE or as a component of a SEQUENCE (X.680
/// 25.1, 29.1). The element is kept, and written back unchanged. `K` gives the known tags.
#[derive_where(Debug, PartialEq, Eq)]
pub struct UnknownElement<'a, K: KnownTags> {
    element: AnyRef<'a>,
    of: PhantomData<K>,
    ghost unknown: { is_among K.known element.tag ≡ false },
}

/// A clone has the same element; cloning does not allocate.
impl<'a, K: KnownTags> Clone for UnknownElement<'a, K> {
    ghost is_clone = { λ p q. q ≡ p };

    ghost is_infallible = { λ _. ⊤ };

    fn clone(&self) -> Result<Self, AllocError> {
        Ok(*self)
    }
}

impl<'a, K: KnownTags> Copy for UnknownElement<'a, K> {}

impl<'a, K: KnownTags> UnknownElement<'a, K> {
    ghost use Rattle.std.specs.Prelude.{◌↔◌, IsSome, IfSome};

    /// Wraps `element`; `None` if its tag is one of the known tags.
    pub fn new(element: AnyRef<'a>) -> Option<Self>
        ensures some { IsSome result ↔ (is_among K.known element.entry.tag ≡ false) }
        ensures same { IfSome result (λ v. v.element ≡ element.entry) }
    {
        if K::is_known(element.tag) {
            return None;
        }
        Some(UnknownElement {
            element,
            of: PhantomData,
        })
    }

    /// Does nothing. For use in proofs, the contract of this function states that `self` is a valid
    /// value.
    pub fn is_value(&self)
        ensures { IsAny self.now.element }
    {
        self.element.is_value();
    }

    /// The element, whose tag is none of the known tags.
    #[inline(always)]
    pub fn element(&self) -> AnyRef<'a>
        ensures value { result ≡ self.now.element }
        ensures unknown { is_among K.known result.tag ≡ false }
    {
        self.element
    }
}

/// Decodes the next element, which must not have one of the known tags.
///
/// # Errors
///
/// - The errors of [`decode_element`](crate::decode_element).
/// - `TagUnexpected` without an expected tag, at the position after the element, if its tag is
///   known. The reader has failed then.
impl<'a, R: Lends<Borrowed = &'a [u8]>, K: KnownTags> Decode<R> for UnknownElement<'a, K> {
    type Error = Error;

    ghost is_next = { λ v. AnyElementNext TakesAny v.element };

    ghost decode_levels = { element_levels (λ _. 0) };

    ghost allocates = { false };

    ghost decode_answers = { UnknownRead K.known (λ v. v.element) (λ e f. f ≡ e)
        (AnyElementRead (λ e f. f ≡ e) AnyRead) };

    #[inline(always)]
    fn decode(alloc: Global, reader: &mut R) -> Result<Self, Error>
    where
        R: Reader,
    {
        let element = AnyRef::decode(alloc, reader)?;
        if K::is_known(element.tag) {
            let kind = ErrorKind::TagUnexpected {
                expected: None,
                actual: element.tag,
            };
            return Err(reader.error(kind));
        }
        Ok(UnknownElement {
            element,
            of: PhantomData,
        })
    }
}

impl<'a, K: KnownTags> Choice for UnknownElement<'a, K> {
    ghost chooses = { IsOf (all_but K.known) };

    #[inline(always)]
    fn can_decode(tag: Tag) -> bool
        ensures { IsTrue result ↔ IsOf (all_but K.known) tag }
    {
        !K::is_known(tag)
    }
}

impl<'a, R: Lends<Borrowed = &'a [u8]>, K: KnownTags> DecodeChoice<R> for UnknownElement<'a, K> {
    ghost begins = { (unknown_element K.known (λ v. v.element) (λ v. v.unknown)).begins };
}

impl<'a, K: KnownTags> Tagged for UnknownElement<'a, K> {
    ghost tag_of = { λ v. v.element.tag };

    fn tag(&self) -> Tag {
        self.element.tag
    }
}

impl<'a, K: KnownTags> WrittenValue for UnknownElement<'a, K> {
    ghost contents = { λ v. any_contents v.element };

    ghost writable = { λ v. IsAny v.element };
}

/// Writes the contents octets unchanged.
///
/// # Errors
///
/// The errors of writing an [`AnyRef`].
impl<'a, K: KnownTags> EncodeValue for UnknownElement<'a, K> {
    ghost value_size = { λ v. any_size v.element };

    ghost encode_value_answers = { λ v. AnyWritten v.element };

    #[inline(always)]
    fn value_len(&self) -> Result<Length, Error> {
        self.element.value_len()
    }

    #[inline(always)]
    fn encode_value<W: Writer>(&self, writer: &mut W) -> Result<(), Error> {
        self.element.encode_value(writer)
    }

    #[inline(always)]
    fn value_len_before(&self) -> Option<u32> {
        self.element.value_len_before()
    }

    #[inline(always)]
    fn encode_value_before(&self, buf: &mut [u8], end: u32) -> u32 {
        self.element.encode_value_before(buf, end)
    }
}

impl<'a, K: KnownTags> DescribedChoice for UnknownElement<'a, K> {
    ghost alternative = { unknown_element K.known (λ v. v.element) (λ v. v.unknown) };
}

impl<'a, K: KnownTags> Item for UnknownElement<'a, K> {
    ghost item = { choice_item (unknown_element K.known (λ v. v.element) (λ v. v.unknown)) };
}

impl<'a, R: Lends<Borrowed = &'a [u8]>, K: KnownTags> DecodeItem<R> for UnknownElement<'a, K> {
    ghost is_item = { choice_is_item (unknown_element K.known (λ v. v.element) (λ v. v.unknown))
        refl };

    ghost decodes_items = { decodes_same (choice_item
        (unknown_element K.known (λ v. v.element) (λ v. v.unknown))) };
}

impl<'a, K: KnownTags> BorrowedItem for UnknownElement<'a, K> {
    ghost borrowed = { refl };
}
