//! Elements of any tag.
ghost use Rattle.std.specs.Prelude.{◌≡◌, false};
ghost use Rattle.der.specs.Prelude.{element_levels};
ghost use Rattle.der_asn1.specs.AnyRef.{IsAny, TakesAny, AnyRead, any_contents, any_size};
ghost use Rattle.der_asn1.specs.AnyRef.{AnyWritten};
ghost use Rattle.der_asn1.specs.AnyElement.{AnyElementNext, AnyElementRead};

use crate::contents::form::check_form;
use crate::elements::element::decode_element;
use der::{
    Decode, DecodeValue, EncodeValue, Error, Header, IsValue, Lends, Length, ReadValue, Reader,
    Tag, Tagged, Writer, WrittenValue, octets_len, place_before,
};
use std::alloc::Global;

/// An element of any tag: its tag, and its contents borrowed from the input. The type is used for
/// ANY in older ASN.1 modules, and for values of an open type.
///
/// Some universal tags, such as the tag of UniversalString, have no variant of [`Tag`]. Decoding an
/// element with one of these tags fails. So does decoding an OCTET STRING in segments, which the
/// Basic Encoding Rules allow (X.690 8.7.3): as an `AnyRef` it would be written in one piece, with
/// the headers of the segments in its contents.
#[derive(Clone, Copy, PartialEq, Eq)]
pub struct AnyRef<'a> {
    /// The tag of the element.
    pub tag: Tag,
    /// The contents octets of the element.
    pub contents: &'a [u8],
}

impl<'a> Tagged for AnyRef<'a> {
    ghost tag_of = { λ v. v.tag };

    fn tag(&self) -> Tag {
        self.tag
    }
}

impl<'a> ReadValue for AnyRef<'a> {
    ghost valid = { IsAny };

    ghost takes = { TakesAny };

    ghost value_levels = { λ _. 0 };

    ghost allocates = { false };

    ghost takes_valid = { λ v rules h octets taken. taken.numbered };
}

/// Takes the tag and the length from the header, and borrows the contents from the input.
///
/// # Errors
///
/// - `Noncanonical` with the header's tag, at the last octet of the header, if the header is
///   constructed and its tag is not, as that of an OCTET STRING in segments. The reader is
///   unchanged then.
/// - The errors of [`Reader::read_slice`].
impl<'a, R: Lends<Borrowed = &'a [u8]>> DecodeValue<R> for AnyRef<'a> {
    type Error = Error;

    ghost decode_value_answers = { AnyRead };

    #[inline(always)]
    fn decode_value(_alloc: Global, reader: &mut R, header: Header) -> Result<Self, Error>
    where
        R: Reader,
    {
        let tag = header.tag();
        check_form(reader, &header, tag)?;
        let contents = reader.read_slice(header.length())?;
        Ok(AnyRef { tag, contents })
    }
}

impl<'a> IsValue for AnyRef<'a> {
    fn is_value(&self) {
        let _number = self.tag.number().value();
    }
}

/// Decodes the next element, whatever tag the element has.
///
/// # Errors
///
/// The errors of [`decode_element`].
impl<'a, R: Lends<Borrowed = &'a [u8]>> Decode<R> for AnyRef<'a> {
    type Error = Error;

    ghost is_next = { AnyElementNext TakesAny };

    ghost decode_levels = { element_levels (λ _. 0) };

    ghost allocates = { false };

    ghost decode_answers = { AnyElementRead (λ e f. f ≡ e) AnyRead };

    #[inline(always)]
    fn decode(alloc: Global, reader: &mut R) -> Result<Self, Error>
    where
        R: Reader,
    {
        decode_element::<R, AnyRef<'a>>(alloc, reader)
    }
}

impl<'a> WrittenValue for AnyRef<'a> {
    ghost contents = { any_contents };

    ghost writable = { IsAny };
}

/// Writes the contents octets unchanged.
///
/// # Errors
///
/// - `value_len` returns `Overflow` without a position, if there are more than 4294967295 contents
///   octets.
/// - `encode_value` returns the errors of [`Writer::write`].
impl<'a> EncodeValue for AnyRef<'a> {
    ghost value_size = { any_size };

    ghost encode_value_answers = { AnyWritten };

    #[inline(always)]
    fn value_len(&self) -> Result<Length, Error> {
        Length::new_usize(self.contents.len())
    }

    #[inline(always)]
    fn encode_value<W: Writer>(&self, writer: &mut W) -> Result<(), Error> {
        writer.write(self.contents)
    }

    #[inline(always)]
    fn value_len_before(&self) -> Option<u32> {
        // read for its range alone
        let _number = self.tag.number().value();
        octets_len(self.contents)
    }

    #[inline(always)]
    fn encode_value_before(&self, buf: &mut [u8], end: u32) -> u32 {
        place_before(self.contents, buf, end)
    }
}
