//! EXPLICIT context-specific tags.
ghost use Rattle.std.specs.Prelude.{◌≡◌, ◌≤◌, true};
ghost use Rattle.std.proofs.Common.{arith};
ghost use Rattle.der.specs.Prelude.{Der, ElementNext, ElementRead, element_levels, map_ok};
ghost use Rattle.der.specs.Prelude.{element_octets, element_size, ElementWritten, TakesWhole};
ghost use Rattle.der_asn1.specs.ContextSpecific.{context_tag, explicit_lawful, explicit_holds};
ghost use Rattle.der_asn1.specs.Meaning.{explicit};

use crate::fields::described::Described;
use der::{
    DecodeValue, Encode, EncodeValue, Error, FixedTag, Header, IsValue, Lawful, Lends, Length,
    ReadValue, Reader, Tag, TagNumber, Writer, WrittenValue, decode_contents,
};
use std::alloc::Global;

/// Types that can be tagged EXPLICIT (see [`Explicit`]): the element of a value becomes the
/// contents of an outer element. A reader allows 64 levels of nesting. The outer element and the
/// element of the value take one level each, so the contents of the value may nest at most 62
/// levels deep under DER.
///
/// Ghost member (for proofs only): `nestable` proves that the contents nest at most 62 levels deep.
pub trait Nestable: ReadValue {
    // A value needs at most 62 levels of nesting: the element around it leaves 63, and the value's
    // own element needs one.
    ghost nestable: { Self.value_levels Der ≤ 62 };
}

/// A value that is encoded inside another element (X.690 8.14.2). The outer element has the
/// context-specific tag number `N`. The contents of the outer element are the element of the value.
#[derive(Clone, Copy, Drop, PartialEq, Eq)]
pub struct Explicit<T, const N: u32>(pub T);

impl<T, const N: u32> FixedTag for Explicit<T, N> {
    ghost tag_is = { context_tag true N };

    const TAG: Tag = Tag::ContextSpecific {
        constructed: true,
        number: TagNumber(N),
    };

    #[inline(always)]
    fn fixed_tag() -> Tag
        ensures { result ≡ context_tag true N }
    {
        Tag::ContextSpecific {
            constructed: true,
            number: TagNumber(N),
        }
    }
}

impl<T: ReadValue + FixedTag, const N: u32> ReadValue for Explicit<T, N> {
    ghost valid = { λ v. T.valid v.0 };

    ghost takes = { λ v. TakesWhole (ElementNext T.tag_is T.takes) v.0 };

    ghost value_levels = { element_levels T.value_levels };

    ghost allocates = { T.allocates };

    ghost takes_valid = { explicit_holds (λ v. v.0) T.takes_valid };
}

/// Decodes the inner element, which must be all of the contents of the outer element.
///
/// # Errors
///
/// The errors of [`decode_tlv`](der::decode_tlv) for the inner element, which is the element of the
/// value of type `T`.
impl<R: Lends, T: DecodeValue<R> + FixedTag, const N: u32> DecodeValue<R> for Explicit<T, N> {
    type Error = <T as DecodeValue<R>>::Error;

    ghost decode_value_answers = { λ h s result t. ElementRead T.tag_is T.Error.from_gives
        T.decode_value_answers s (map_ok (λ v. v.0) result) t };

    #[inline(always)]
    fn decode_value(
        alloc: Global,
        reader: &mut R,
        header: Header,
    ) -> Result<Self, <T as DecodeValue<R>>::Error>
    where
        R: Reader,
    {
        let value = decode_contents::<R, T>(alloc, reader, header)?;
        Ok(Explicit(value))
    }
}

impl<T: IsValue + FixedTag, const N: u32> IsValue for Explicit<T, N> {
    fn is_value(&self) {
        self.0.is_value()
    }
}

impl<T: WrittenValue + FixedTag, const N: u32> WrittenValue for Explicit<T, N> {
    ghost contents = { λ v. element_octets T.tag_is (T.contents v.0) };

    ghost writable = { λ v. T.writable v.0 };
}

/// Writes the inner element as the contents of the outer element.
///
/// # Errors
///
/// The errors of encoding the inner element, which is the element of the value of type `T`.
impl<T: EncodeValue + FixedTag, const N: u32> EncodeValue for Explicit<T, N> {
    ghost value_size = { λ v. element_size T.tag_is (T.value_size v.0) };

    ghost encode_value_answers = { λ v. ElementWritten T.tag_is (T.value_size v.0)
        (T.encode_value_answers v.0) };

    #[inline(always)]
    fn value_len(&self) -> Result<Length, Error> {
        self.0.encoded_len()
    }

    #[inline(always)]
    fn encode_value<W: Writer>(&self, writer: &mut W) -> Result<(), Error> {
        self.0.encode(writer)
    }

    #[inline(always)]
    fn value_len_before(&self) -> Option<u32> {
        self.0.len_before()
    }

    #[inline(always)]
    fn encode_value_before(&self, buf: &mut [u8], end: u32) -> u32 {
        self.0.encode_before(buf, end)
    }
}

impl<T: Lawful + Nestable, const N: u32> Lawful for Explicit<T, N> {
    ghost lawful = { explicit_lawful (context_tag true N) (λ v. v.0) (Prim.omega arith) T.lawful
        T.nestable };
}

impl<T: Described, const N: u32> Described for Explicit<T, N> {
    ghost element = { explicit N T.element (λ v. v.0) };
}
