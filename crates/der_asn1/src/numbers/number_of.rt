//! INTEGERs and ENUMERATEDs as numbers of a fixed type.
ghost use Rattle.std.specs.Prelude.{◌≡◌, ◌↔◌, true, false, IsSome, IfSome};
ghost use Rattle.std.proofs.Common.{arith, refl, subst, sym};
ghost use Rattle.der_asn1.specs.Checked.{HasCheckedContents, AcceptsCheckedContents, CheckedContentsRead, contents_size};
ghost use Rattle.der_asn1.specs.Checked.{ContentsWritten, checked_contents_lawful};
ghost use Rattle.der_asn1.specs.Item.{decodes_same, element_is_item, element_item};
ghost use Rattle.der_asn1.specs.Meaning.{of_form};
ghost use Rattle.der_asn1.specs.NumberTag.{number_tag, number_tag_fits};

use crate::contents::form::check_form;
use crate::fields::described::Described;
use crate::fields::explicit::Nestable;
use crate::lists::item::{DecodeItem, Item};
use crate::lists::iter::BorrowedItem;
use crate::numbers::integer::IntRef;
use crate::numbers::integer_number::IntegerNumber;
use der::{
    DecodeValue, EncodeValue, Error, FixedTag, Header, IsValue, Lawful, Lends, Length, ReadValue,
    Reader, Tag, Writer, WrittenValue, octets_len, place_before,
};
use std::alloc::Global;

/// An INTEGER, or an ENUMERATED if `ENUMERATED` is true, whose value is a number of type `N`. The
/// type `N` is `u8`, `u32`, `u64`, `i64`, a number within bounds (see [`InRange`](crate::InRange)),
/// or an item of an enumeration (see [`Enumerated`](crate::Enumerated)). [`IntegerOf`] and
/// [`EnumeratedOf`] are shorter names.
#[derive(Clone, Copy)]
pub struct NumberOf<N: IntegerNumber, const ENUMERATED: bool> {
    /// The number that the INTEGER or ENUMERATED encodes.
    pub number: N,
}

/// An INTEGER whose value is a number of type `N`. Decoding fails if the value does not fit in `N`.
pub type IntegerOf<N> = NumberOf<N, false>;

/// An ENUMERATED whose value is a number of type `N`. Decoding fails if the value does not fit in
/// `N`.
pub type EnumeratedOf<N> = NumberOf<N, true>;

// The tag INTEGER or ENUMERATED.
pub(crate) const fn number_tag(is_enumerated: bool) -> Tag
    ensures { result ≡ number_tag is_enumerated }
{
    if is_enumerated {
        Tag::Enumerated
    } else {
        Tag::Integer
    }
}

impl<'a> IntRef<'a> {
    /// The number that the INTEGER encodes; `None` if this number does not fit in the type `N`.
    pub fn to_number<N: IntegerNumber>(&self) -> Option<N>
        ensures some { IsSome result ↔ (N.grammar self.now.octets.now ≡ true) }
        ensures same { IfSome result (λ v. N.contents_of v ≡ self.now.octets.now) }
    {
        N::from_contents(self.octets())
    }
}

impl<N: IntegerNumber, const ENUMERATED: bool> FixedTag for NumberOf<N, ENUMERATED> {
    ghost tag_is = { number_tag ENUMERATED };

    const TAG: Tag = number_tag(ENUMERATED);

    fn fixed_tag() -> Tag
        ensures { result ≡ number_tag ENUMERATED }
    {
        number_tag(ENUMERATED)
    }
}

impl<N: IntegerNumber, const ENUMERATED: bool> ReadValue for NumberOf<N, ENUMERATED> {
    ghost valid = { HasCheckedContents N.grammar (λ v. N.contents_of v.number) };

    ghost takes = { AcceptsCheckedContents (number_tag ENUMERATED) N.grammar (λ v. N.contents_of v.number) };

    ghost value_levels = { λ _. 0 };

    ghost allocates = { false };

    ghost takes_valid = { λ v rules h octets taken.
        subst (λ x. N.grammar x ≡ true) (sym taken.2) taken.1 };
}

/// Reads the number from the contents. Accepts only the shortest contents for a number, also under
/// BER (X.690 8.3.2, 8.4).
///
/// # Errors
///
/// - `Noncanonical` with the header's tag, at the last octet of the header, if the header is
///   constructed. The reader is unchanged then.
/// - The errors of [`Reader::read_slice`], which reads the contents.
/// - `Value` with the tag of the type, at the position after the contents, if the contents are
///   empty, are not the shortest, or encode a number that is not one of `N`. The reader has failed
///   then.
impl<'a, N: IntegerNumber, const ENUMERATED: bool, R: Lends<Borrowed = &'a [u8]>> DecodeValue<R>
    for NumberOf<N, ENUMERATED> {
    type Error = Error;

    ghost decode_value_answers = { CheckedContentsRead N.grammar (number_tag ENUMERATED) (λ v. N.contents_of v.number) };

    fn decode_value(_alloc: Global, reader: &mut R, header: Header) -> Result<Self, Error>
    where
        R: Reader,
    {
        let tag = number_tag(ENUMERATED);
        check_form(reader, &header, tag)?;
        let octets = reader.read_slice(header.length())?;
        match N::from_contents(octets) {
            Some(number) => Ok(NumberOf { number }),
            None => Err(reader.error(tag.value_error())),
        }
    }
}

impl<N: IntegerNumber, const ENUMERATED: bool> IsValue for NumberOf<N, ENUMERATED> {
    fn is_value(&self) {
        let _contents = self.number.to_contents();
    }
}

impl<N: IntegerNumber, const ENUMERATED: bool> WrittenValue for NumberOf<N, ENUMERATED> {
    ghost contents = { λ v. N.contents_of v.number };

    ghost writable = { HasCheckedContents N.grammar (λ v. N.contents_of v.number) };
}

/// Writes the number in the fewest octets.
///
/// # Errors
///
/// `value_len` never fails. `encode_value` returns the errors of [`Writer::write`].
impl<N: IntegerNumber, const ENUMERATED: bool> EncodeValue for NumberOf<N, ENUMERATED> {
    ghost value_size = { λ v. contents_size (N.contents_of v.number) };

    ghost encode_value_answers = { λ v. ContentsWritten (N.contents_of v.number) };

    fn value_len(&self) -> Result<Length, Error> {
        Length::new_usize(self.number.to_contents().as_slice().len())
    }

    fn encode_value<W: Writer>(&self, writer: &mut W) -> Result<(), Error> {
        writer.write(self.number.to_contents().as_slice())
    }

    fn value_len_before(&self) -> Option<u32> {
        octets_len(self.number.to_contents().as_slice())
    }

    fn encode_value_before(&self, buf: &mut [u8], end: u32) -> u32 {
        place_before(self.number.to_contents().as_slice(), buf, end)
    }
}

impl<N: IntegerNumber, const ENUMERATED: bool> Lawful for NumberOf<N, ENUMERATED> {
    ghost lawful = { checked_contents_lawful (number_tag ENUMERATED) N.grammar (λ v. N.contents_of v.number)
        (number_tag_fits ENUMERATED) };
}

impl<N: IntegerNumber, const ENUMERATED: bool> Nestable for NumberOf<N, ENUMERATED> {
    ghost nestable = { Prim.omega arith };
}

impl<N: IntegerNumber, const ENUMERATED: bool> Described for NumberOf<N, ENUMERATED> {
    ghost element = { of_form (number_tag ENUMERATED) N.grammar (λ v. N.contents_of v.number) };
}

impl<N: IntegerNumber, const ENUMERATED: bool> Item for NumberOf<N, ENUMERATED> {
    ghost item = { element_item (number_tag ENUMERATED) (AcceptsCheckedContents (number_tag ENUMERATED) N.grammar
        (λ v. N.contents_of v.number)) (HasCheckedContents N.grammar
        (λ v. N.contents_of v.number)) (λ v. N.contents_of v.number) (λ _. 0) false };
}

impl<'a, N: IntegerNumber, const ENUMERATED: bool, R: Lends<Borrowed = &'a [u8]>> DecodeItem<R>
    for NumberOf<N, ENUMERATED> {
    ghost is_item = { element_is_item (checked_contents_lawful (number_tag ENUMERATED) N.grammar
        (λ v. N.contents_of v.number) (number_tag_fits ENUMERATED)) false };

    ghost decodes_items = { decodes_same (element_item (number_tag ENUMERATED) (AcceptsCheckedContents
        (number_tag ENUMERATED) N.grammar (λ v. N.contents_of v.number)) (HasCheckedContents N.grammar
        (λ v. N.contents_of v.number)) (λ v. N.contents_of v.number) (λ _. 0) false) };
}

impl<N: IntegerNumber, const ENUMERATED: bool> BorrowedItem for NumberOf<N, ENUMERATED> {
    ghost borrowed = { refl };
}
