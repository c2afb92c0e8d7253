//! OCTET STRINGs that contain a value.
ghost use Rattle.std.specs.Prelude.{◌≡◌};
ghost use Rattle.std.proofs.Common.{arith};
ghost use Rattle.der.specs.Prelude.{ElementNext, ElementRead, element_levels, map_ok};
ghost use Rattle.der.specs.Prelude.{element_octets, element_size, ElementWritten, TakesWhole};
ghost use Rattle.der.specs.Prelude.{OctetString as OctetTag};
ghost use Rattle.der_asn1.specs.ContextSpecific.{explicit_lawful, explicit_holds};
ghost use Rattle.der_asn1.specs.HeaderForm.{FormedRead, TakesFormed, formed_lawful};
ghost use Rattle.der_asn1.specs.Item.{decodes_same, element_is_item, element_item};
ghost use Rattle.der_asn1.specs.Meaning.{containing, of_own_form};

use crate::contents::form::check_form;
use crate::fields::described::Described;
use crate::fields::explicit::Nestable;
use crate::lists::item::{DecodeItem, Item};
use der::{
    DecodeValue, Encode, EncodeValue, Error, FixedTag, Header, IsValue, Lawful, Lends, Length,
    ReadValue, Reader, Tag, Writer, WrittenValue, decode_contents,
};
use std::alloc::Global;

/// An `OCTET STRING (CONTAINING T)` (X.682 11): the contents octets are the whole encoding of a
/// value of `T`. The OCTET STRING has one more level of nesting than its contained value, so `T`
/// must be [`Nestable`]. The OCTET STRING must be primitive, also under BER.
#[derive(Clone, Copy, Debug, Drop, PartialEq, Eq)]
pub struct OctetStringOf<T>(pub T);

impl<T> FixedTag for OctetStringOf<T> {
    ghost tag_is = { OctetTag };

    const TAG: Tag = Tag::OctetString;

    #[inline(always)]
    fn fixed_tag() -> Tag
        ensures { result ≡ OctetTag }
    {
        Tag::OctetString
    }
}

impl<T: ReadValue + FixedTag> ReadValue for OctetStringOf<T> {
    ghost valid = { λ v. T.valid v.0 };

    ghost takes = { TakesFormed OctetTag (λ v. TakesWhole (ElementNext T.tag_is T.takes) v.0) };

    ghost value_levels = { element_levels T.value_levels };

    ghost allocates = { T.allocates };

    ghost takes_valid = { λ v rules h octets taken. explicit_holds (λ x. x.0) T.takes_valid v rules
        h octets taken.1 };
}

/// Decodes the inner element. If octets are left after it, the function leaves them unread and
/// returns `Ok`; the caller must report them, as [`decode_tlv`](der::decode_tlv) does.
///
/// # Errors
///
/// - `Noncanonical` with the header's tag, at the last octet of the header, if the header is
///   constructed, as that of an OCTET STRING in segments. The reader is unchanged then.
/// - The errors of [`decode_tlv`](der::decode_tlv) for the inner element, which is the element of
///   the value of type `T`.
impl<R: Lends, T: DecodeValue<R> + FixedTag> DecodeValue<R> for OctetStringOf<T> {
    type Error = <T as DecodeValue<R>>::Error;

    ghost decode_value_answers = { FormedRead OctetTag T.Error.from_gives (λ h s result t.
        ElementRead T.tag_is T.Error.from_gives T.decode_value_answers s
        (map_ok (λ v. v.0) result) t) };

    #[inline(always)]
    fn decode_value(
        alloc: Global,
        reader: &mut R,
        header: Header,
    ) -> Result<Self, <T as DecodeValue<R>>::Error>
    where
        R: Reader,
    {
        check_form(reader, &header, Tag::OctetString)?;
        let value = decode_contents::<R, T>(alloc, reader, header)?;
        Ok(OctetStringOf(value))
    }
}

impl<T: IsValue + FixedTag> IsValue for OctetStringOf<T> {
    fn is_value(&self) {
        self.0.is_value()
    }
}

impl<T: WrittenValue + FixedTag> WrittenValue for OctetStringOf<T> {
    ghost contents = { λ v. element_octets T.tag_is (T.contents v.0) };

    ghost writable = { λ v. T.writable v.0 };
}

/// Writes the inner element as the contents.
///
/// # Errors
///
/// The errors of encoding the inner element, which is the element of the value of type `T`.
impl<T: EncodeValue + FixedTag> EncodeValue for OctetStringOf<T> {
    ghost value_size = { λ v. element_size T.tag_is (T.value_size v.0) };

    ghost encode_value_answers = { λ v. ElementWritten T.tag_is (T.value_size v.0)
        (T.encode_value_answers v.0) };

    #[inline(always)]
    fn value_len(&self) -> Result<Length, Error> {
        self.0.encoded_len()
    }

    #[inline(always)]
    fn encode_value<W: Writer>(&self, writer: &mut W) -> Result<(), Error> {
        self.0.encode(writer)
    }

    #[inline(always)]
    fn value_len_before(&self) -> Option<u32> {
        self.0.len_before()
    }

    #[inline(always)]
    fn encode_value_before(&self, buf: &mut [u8], end: u32) -> u32 {
        self.0.encode_before(buf, end)
    }
}

impl<T: Lawful + Nestable> Lawful for OctetStringOf<T> {
    ghost lawful = { formed_lawful (explicit_lawful OctetTag (λ v. v.0) (Prim.omega arith) T.lawful
        T.nestable) };
}

impl<T: Described> Described for OctetStringOf<T> {
    ghost element = { of_own_form (containing OctetTag T.element (λ v. v.0)) };
}

impl<T: ReadValue + WrittenValue + FixedTag> Item for OctetStringOf<T> {
    ghost item = { element_item OctetTag
        (TakesFormed OctetTag (λ v. TakesWhole (ElementNext T.tag_is T.takes) v.0))
        (λ v. T.valid v.0) (λ v. element_octets T.tag_is (T.contents v.0))
        (element_levels T.value_levels) T.allocates };
}

impl<R: Lends, T: Lawful + Nestable + DecodeValue<R>> DecodeItem<R> for OctetStringOf<T> {
    ghost is_item = { element_is_item (formed_lawful (explicit_lawful OctetTag (λ v. v.0)
        (Prim.omega arith) T.lawful T.nestable)) T.allocates };

    ghost decodes_items = { decodes_same (element_item OctetTag
        (TakesFormed OctetTag (λ v. TakesWhole (ElementNext T.tag_is T.takes) v.0))
        (λ v. T.valid v.0) (λ v. element_octets T.tag_is (T.contents v.0))
        (element_levels T.value_levels) T.allocates) };
}
