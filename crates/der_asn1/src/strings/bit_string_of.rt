//! BIT STRINGs that contain a value.
ghost use Rattle.std.specs.Prelude.{◌≡◌, ℕ, ◌∷◌, [], false, Ok as AnOk};
ghost use Rattle.der.specs.Prelude.{ElementRead, FieldsRead, FieldsWritten, Gives, Writes};
ghost use Rattle.der.specs.Prelude.{ElementWritten, element_octets, element_size, fields_size};
ghost use Rattle.der.specs.Prelude.{BitString as BitTag, definite_length, map_ok, write_outcome};
ghost use Rattle.der_asn1.specs.BitStringOf.{TakesBitsOf, bits_of_hold, bits_of_lawful};
ghost use Rattle.der_asn1.specs.BitStringOf.{bits_containing, bits_of_levels};
ghost use Rattle.der_asn1.specs.Item.{decodes_same, element_is_item, element_item};
ghost use Rattle.der_asn1.specs.ZeroOctet.{zero_octet_outcome};
ghost use Rattle.der_asn1.specs.declared.strings.no_unused_bits.NoUnusedBits.TheVariants.{Zero};

use crate::fields::described::Described;
use crate::fields::explicit::Nestable;
use crate::lists::item::{DecodeItem, Item};
use crate::strings::no_unused_bits::NoUnusedBits;
use der::{
    DecodeValue, Encode, EncodeRef, EncodeValue, Error, FixedTag, Header, IsValue, Lawful, Lends,
    Length, ReadValue, Reader, Tag, Writer, WrittenValue, decode_contents,
};
use std::alloc::Global;

/// A `BIT STRING (CONTAINING T)` (X.682 11): the bits are the whole encoding of a value of `T`, so
/// no bits are unused. The BIT STRING has one more level of nesting than its contained value, so
/// `T` must be [`Nestable`]. The BIT STRING must be primitive, also under BER.
#[derive(Clone, Copy, Debug, Drop, PartialEq, Eq)]
pub struct BitStringOf<T>(pub T);

impl<T> FixedTag for BitStringOf<T> {
    ghost tag_is = { BitTag };

    const TAG: Tag = Tag::BitString;

    #[inline(always)]
    fn fixed_tag() -> Tag
        ensures { result ≡ BitTag }
    {
        Tag::BitString
    }
}

impl<T: ReadValue + FixedTag> ReadValue for BitStringOf<T> {
    ghost valid = { λ v. T.valid v.0 };

    ghost takes = { TakesBitsOf T.tag_is T.takes (λ v. v.0) };

    ghost value_levels = { bits_of_levels T.value_levels };

    ghost allocates = { T.allocates };

    ghost takes_valid = { bits_of_hold (λ v. v.0) T.takes_valid };
}

/// Reads the number of unused bits, and then the inner element. If octets are left after the inner
/// element, the function leaves them unread and returns `Ok`; the caller must report them, as
/// [`decode_tlv`](der::decode_tlv) does.
///
/// # Errors
///
/// - The errors of [`ReaderExt::read_byte`](der::ReaderExt::read_byte), which reads the first
///   octet.
/// - `Value` with the tag BIT STRING, at the position after the first octet, if the first octet is
///   not zero. The reader has failed then.
/// - The errors of [`decode_tlv`](der::decode_tlv) for the inner element, which is the element of
///   the value of type `T`.
impl<R: Lends, T: DecodeValue<R, Error = Error> + FixedTag> DecodeValue<R> for BitStringOf<T> {
    type Error = Error;

    ghost decode_value_answers = { λ h s result t. FieldsRead
        (λ r answer u. Gives zero_octet_outcome r (map_ok (λ _. tt) answer) u)
        (ElementRead T.tag_is (λ e f. f ≡ e) T.decode_value_answers) s
        (map_ok (λ v. (Zero, v.0)) result) t };

    #[inline(always)]
    fn decode_value(alloc: Global, reader: &mut R, header: Header) -> Result<Self, Error>
    where
        R: Reader,
    {
        let (_, value) = decode_contents::<R, (NoUnusedBits, T)>(alloc, reader, header)?;
        Ok(BitStringOf(value))
    }
}

impl<T: IsValue + FixedTag> IsValue for BitStringOf<T> {
    fn is_value(&self) {
        self.0.is_value()
    }
}

impl<T: WrittenValue + FixedTag> WrittenValue for BitStringOf<T> {
    ghost contents = { λ v. 0 ∷ element_octets T.tag_is (T.contents v.0) };

    ghost writable = { λ v. T.writable v.0 };
}

/// Writes a zero octet, and then the inner element.
///
/// # Errors
///
/// - The errors of encoding the inner element, which is the element of the value of type `T`.
/// - `value_len` returns `Overflow` without a position, if there are more than 4294967295 contents
///   octets.
impl<T: EncodeValue + FixedTag> EncodeValue for BitStringOf<T> {
    ghost value_size = { λ v. fields_size (AnOk (definite_length 1))
        (element_size T.tag_is (T.value_size v.0)) };

    ghost encode_value_answers = { λ v. FieldsWritten
        (λ s result t. Writes (write_outcome (0 ∷ []) s) result t)
        (ElementWritten T.tag_is (T.value_size v.0) (T.encode_value_answers v.0)) };

    #[inline(always)]
    fn value_len(&self) -> Result<Length, Error> {
        (NoUnusedBits::Zero, EncodeRef(&self.0)).encoded_len()
    }

    #[inline(always)]
    fn encode_value<W: Writer>(&self, writer: &mut W) -> Result<(), Error> {
        (NoUnusedBits::Zero, EncodeRef(&self.0)).encode(writer)
    }

    #[inline(always)]
    fn value_len_before(&self) -> Option<u32> {
        (NoUnusedBits::Zero, EncodeRef(&self.0)).len_before()
    }

    #[inline(always)]
    fn encode_value_before(&self, buf: &mut [u8], end: u32) -> u32 {
        (NoUnusedBits::Zero, EncodeRef(&self.0)).encode_before(buf, end)
    }
}

impl<T: Lawful + Nestable> Lawful for BitStringOf<T> {
    ghost lawful = { bits_of_lawful (λ v. v.0) T.lawful T.nestable };
}

impl<T: Described> Described for BitStringOf<T> {
    ghost element = { bits_containing T.element (λ v. v.0) };
}

impl<T: ReadValue + WrittenValue + FixedTag> Item for BitStringOf<T> {
    ghost item = { element_item BitTag (TakesBitsOf T.tag_is T.takes (λ v. v.0))
        (λ v. T.valid v.0) (λ v. 0 ∷ element_octets T.tag_is (T.contents v.0))
        (bits_of_levels T.value_levels) T.allocates };
}

impl<R: Lends, T: Lawful + Nestable + DecodeValue<R, Error = Error>> DecodeItem<R>
    for BitStringOf<T> {
    ghost is_item = { element_is_item (bits_of_lawful (λ v. v.0) T.lawful T.nestable)
        T.allocates };

    ghost decodes_items = { decodes_same (element_item BitTag
        (TakesBitsOf T.tag_is T.takes (λ v. v.0)) (λ v. T.valid v.0)
        (λ v. 0 ∷ element_octets T.tag_is (T.contents v.0)) (bits_of_levels T.value_levels)
        T.allocates) };
}
