//! Elements of any tag inside an EXPLICIT context-specific tag.
ghost use Rattle.std.specs.Prelude.{◌≡◌, false, true};
ghost use Rattle.std.proofs.Common.{arith, refl};
ghost use Rattle.der.specs.Prelude.{TakesWhole, element_levels, element_octets, map_ok};
ghost use Rattle.der_asn1.specs.AnyElement.{AnyElementNext, AnyElementRead};
ghost use Rattle.der_asn1.specs.AnyRef.{AnyRead, IsAny, TakesAny, any_contents};
ghost use Rattle.der_asn1.specs.ContextSpecific.{context_tag};
ghost use Rattle.der_asn1.specs.AnyLaws.{explicit_any_holds, explicit_any_lawful};
ghost use Rattle.der_asn1.specs.Item.{decodes_same, element_is_item, element_item};
ghost use Rattle.der_asn1.specs.Meaning.{any_element, explicit_choice};

use crate::elements::any::AnyRef;
use crate::fields::described::Described;
use crate::lists::item::{DecodeItem, Item};
use crate::lists::iter::BorrowedItem;
use der::{
    DecodeValue, Encode, EncodeValue, Error, FixedTag, FromFields, Header, IsValue, Lawful, Lends,
    Length, ReadValue, Reader, Tag, TagNumber, Writer, WrittenValue, decode_sequence,
};
use std::alloc::Global;

/// An element of any tag that is encoded inside another element (X.690 8.14.2). The outer element
/// has the context-specific tag number `N`. The contents of the outer element are the inner
/// element.
#[derive(Clone, Copy, Drop, PartialEq, Eq)]
pub struct ExplicitAny<'a, const N: u32>(pub AnyRef<'a>);

impl<'a, const N: u32> FromFields<AnyRef<'a>> for ExplicitAny<'a, N> {
    ghost fields = { λ v. v.0 };

    fn from_fields(value: AnyRef<'a>) -> Self {
        ExplicitAny(value)
    }
}

impl<'a, const N: u32> FixedTag for ExplicitAny<'a, N> {
    ghost tag_is = { context_tag true N };

    const TAG: Tag = Tag::ContextSpecific {
        constructed: true,
        number: TagNumber(N),
    };

    #[inline(always)]
    fn fixed_tag() -> Tag
        ensures { result ≡ context_tag true N }
    {
        Tag::ContextSpecific {
            constructed: true,
            number: TagNumber(N),
        }
    }
}

impl<'a, const N: u32> ReadValue for ExplicitAny<'a, N> {
    ghost valid = { λ v. IsAny v.0 };

    ghost takes = { λ v. TakesWhole (AnyElementNext TakesAny) v.0 };

    ghost value_levels = { element_levels (λ _. 0) };

    ghost allocates = { false };

    ghost takes_valid = { explicit_any_holds (λ v. v.0) };
}

/// Decodes the inner element, which must be all of the contents of the outer element.
///
/// # Errors
///
/// The errors of [`decode_element`](crate::decode_element) for the inner element.
impl<'a, R: Lends<Borrowed = &'a [u8]>, const N: u32> DecodeValue<R> for ExplicitAny<'a, N> {
    type Error = Error;

    ghost decode_value_answers = { λ h s result t. AnyElementRead (λ e f. f ≡ e) AnyRead s
        (map_ok (λ v. v.0) result) t };

    #[inline(always)]
    fn decode_value(alloc: Global, reader: &mut R, header: Header) -> Result<Self, Error>
    where
        R: Reader,
    {
        decode_sequence::<R, AnyRef<'a>, Self>(alloc, reader, header)
    }
}

impl<'a, const N: u32> IsValue for ExplicitAny<'a, N> {
    fn is_value(&self) {
        self.0.is_value();
    }
}

impl<'a, const N: u32> WrittenValue for ExplicitAny<'a, N> {
    ghost contents = { λ v. element_octets v.0.tag (any_contents v.0) };

    ghost writable = { λ v. IsAny v.0 };
}

/// Writes the inner element as the contents of the outer element.
///
/// # Errors
///
/// The errors of encoding an [`AnyRef`].
impl<'a, const N: u32> EncodeValue for ExplicitAny<'a, N> {
    ghost value_size = { λ v. ⟦<AnyRef<'a> as Encode>⟧.size v.0 };

    ghost encode_value_answers = { λ v. ⟦<AnyRef<'a> as Encode>⟧.encode_answers v.0 };

    #[inline(always)]
    fn value_len(&self) -> Result<Length, Error> {
        self.0.encoded_len()
    }

    #[inline(always)]
    fn encode_value<W: Writer>(&self, writer: &mut W) -> Result<(), Error> {
        self.0.encode(writer)
    }

    #[inline(always)]
    fn value_len_before(&self) -> Option<u32> {
        self.0.len_before()
    }

    #[inline(always)]
    fn encode_value_before(&self, buf: &mut [u8], end: u32) -> u32 {
        self.0.encode_before(buf, end)
    }
}

impl<'a, const N: u32> Lawful for ExplicitAny<'a, N> {
    ghost lawful = { explicit_any_lawful (context_tag true N) (λ v. v.0) (Prim.omega arith) };
}

impl<'a, const N: u32> Described for ExplicitAny<'a, N> {
    ghost element = { explicit_choice N any_element (λ v. v.0) };
}

impl<'a, const N: u32> Item for ExplicitAny<'a, N> {
    ghost item = { element_item (context_tag true N) (λ v. TakesWhole (AnyElementNext TakesAny) v.0)
        (λ v. IsAny v.0) (λ v. element_octets v.0.tag (any_contents v.0))
        (element_levels (λ _. 0)) false };
}

impl<'a, R: Lends<Borrowed = &'a [u8]>, const N: u32> DecodeItem<R> for ExplicitAny<'a, N> {
    ghost is_item = { element_is_item (explicit_any_lawful (context_tag true N) (λ v. v.0)
        (Prim.omega arith)) false };

    ghost decodes_items = { decodes_same (element_item (context_tag true N)
        (λ v. TakesWhole (AnyElementNext TakesAny) v.0) (λ v. IsAny v.0)
        (λ v. element_octets v.0.tag (any_contents v.0)) (element_levels (λ _. 0)) false) };
}

impl<'a, const N: u32> BorrowedItem for ExplicitAny<'a, N> {
    ghost borrowed = { refl };
}
