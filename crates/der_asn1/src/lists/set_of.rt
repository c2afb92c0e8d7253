//! SET OF, borrowed from the input. Decoding checks the encodings of all elements and their order.
//! A later iteration over the elements can fail only if an allocation fails.
ghost use Rattle.std.specs.Prelude.{◌≡◌, ◌^◌, ◌<◌, ◌≤◌, [], length, IfOk, IsErrAnd, ⊤};
ghost use Rattle.std.proofs.Common.{arith};
ghost use Rattle.der.specs.Prelude.{Set as SetTag, rest_of, slice_state, error_of_kind, map_ok};
ghost use Rattle.der.specs.ErrorKinds.{Overflow};
ghost use Rattle.der.specs.Decode.{SucceedsOrLacks};
ghost use Rattle.der_asn1.specs.Checked.{contents_size, ContentsWritten};
ghost use Rattle.der_asn1.specs.Item.{decodes_same, element_is_item, element_item};
ghost use Rattle.der_asn1.specs.SetOf.{AreAscending};
ghost use Rattle.der_asn1.specs.OctetsWith.{AcceptsOctetsWith, HasOctetsWith, octets_with_lawful, octets_with_accepts_valid};
ghost use Rattle.der_asn1.specs.ListAnswers.{ListRead, SetWalkAnswer, SetWalked};
ghost use Rattle.der_asn1.specs.Meaning.{octets_with};

use crate::fields::described::Described;
use crate::fields::explicit::Nestable;
use crate::lists::item::{DecodeItem, Item};
use crate::lists::item_walk::read_part;
use crate::lists::items::Items;
use crate::lists::iter::Iter;
use crate::lists::sequence_of::SequenceOf;
use crate::lists::set_walk::{check_set, read_set};
use der::{
    Decode, DecodeValue, EncodeValue, Error, FixedTag, Header, IsValue, Lawful, Lends, Length,
    ReadValue, Reader, SliceReader, Tag, Writer, WrittenValue, octets_len, place_before,
};
use std::alloc::{AllocError, Global};

/// A SET OF borrowed from the input. Its contents have been checked: they are encodings of values
/// of `T`, one after the other. No encoding is less than the encoding before it, compared octet by
/// octet (X.690 11.6).
pub struct SetOf<'a, T: Item> {
    elements: SequenceOf<'a, T>,
    ghost short: { length elements.octets.now < 2 ^ 32 },
    ghost ascending: { ∥ AreAscending T.item.valid T.item.octets elements.octets.now ∥₁ },
}

/// A clone has the same elements; cloning does not allocate.
impl<'a, T: Item> Clone for SetOf<'a, T> {
    ghost is_clone = { λ p q. q ≡ p };

    ghost is_infallible = { λ _. ⊤ };

    fn clone(&self) -> Result<Self, AllocError> {
        Ok(*self)
    }
}

impl<'a, T: Item> Copy for SetOf<'a, T> {}

impl<'a, T: Item> FixedTag for SetOf<'a, T> {
    ghost tag_is = { SetTag };

    const TAG: Tag = Tag::Set;

    #[inline(always)]
    fn fixed_tag() -> Tag
        ensures { result ≡ SetTag }
    {
        Tag::Set
    }
}

impl<'a, T: Item> ReadValue for SetOf<'a, T> {
    ghost valid = { HasOctetsWith (AreAscending T.item.valid T.item.octets)
        (λ v. v.elements.octets.now) };

    ghost takes = { AcceptsOctetsWith (AreAscending T.item.valid T.item.octets)
        (λ v. v.elements.octets.now) };

    ghost value_levels = { λ _. 0 };

    ghost allocates = { T.item.allocates };

    ghost takes_valid = { octets_with_accepts_valid (AreAscending T.item.valid T.item.octets)
        (λ v. v.elements.octets.now) };
}

/// Borrows the contents from the input, and checks every element in them once. Even if the reader
/// reads BER, the elements must be encoded under DER, and their encodings must be in ascending
/// order, compared octet by octet. Equal encodings may follow each other.
///
/// # Errors
///
/// - The errors of [`Reader::read_slice`], which reads the contents.
/// - The errors of [`SetOf::new`] for the first item that cannot be decoded or is out of order. The
///   reader is after the contents then, and has not failed. If the reader reads DER, positions
///   count from the start of the reader's input. If it reads BER, positions count from the start of
///   the contents.
impl<
    'a,
    R: Lends<Borrowed = &'a [u8]>,
    T: DecodeItem<R> + DecodeItem<SliceReader<'a>, Error = <T as Decode<R>>::Error>,
> DecodeValue<R> for SetOf<'a, T> {
    type Error = <T as Decode<R>>::Error;

    ghost decode_value_answers = { ListRead T.Error.from_gives (SetWalkAnswer
        T.Error.from_gives T.Decode-1.decode_answers)
        (SetWalked T.Error.from_gives T.Decode-2.decode_answers) (λ v. v.elements.octets.now) };

    fn decode_value(
        alloc: Global,
        reader: &mut R,
        header: Header,
    ) -> Result<Self, <T as Decode<R>>::Error>
    where
        R: Reader,
    {
        let (mut items, octets) = read_part(reader, header.length())?;
        if !reader.encoding_rules().is_der() {
            return SetOf::new(alloc, octets);
        }
        read_set::<R, T>(alloc, &mut items, octets)?;
        Ok(SetOf {
            elements: SequenceOf::formed(octets),
        })
    }
}

impl<'a, T: Item> IsValue for SetOf<'a, T> {
    fn is_value(&self) {
        let _octets = self.octets();
    }
}

impl<'a, T: Item> WrittenValue for SetOf<'a, T> {
    ghost contents = { λ v. v.elements.octets.now };

    ghost writable = { HasOctetsWith (AreAscending T.item.valid T.item.octets)
        (λ v. v.elements.octets.now) };
}

/// Writes the contents octets unchanged.
///
/// # Errors
///
/// - `value_len` returns `Overflow` without a position, if there are more than 4294967295 contents
///   octets.
/// - `encode_value` returns the errors of [`Writer::write`].
impl<'a, T: Item> EncodeValue for SetOf<'a, T> {
    ghost value_size = { λ v. contents_size v.elements.octets.now };

    ghost encode_value_answers = { λ v. ContentsWritten v.elements.octets.now };

    #[inline(always)]
    fn value_len(&self) -> Result<Length, Error> {
        Length::new_usize(self.octets().len())
    }

    #[inline(always)]
    fn encode_value<W: Writer>(&self, writer: &mut W) -> Result<(), Error> {
        writer.write(self.octets())
    }

    #[inline(always)]
    fn value_len_before(&self) -> Option<u32> {
        octets_len(self.octets())
    }

    #[inline(always)]
    fn encode_value_before(&self, buf: &mut [u8], end: u32) -> u32 {
        place_before(self.octets(), buf, end)
    }
}

impl<'a, T: Item> Lawful for SetOf<'a, T> {
    ghost lawful = { octets_with_lawful SetTag (AreAscending T.item.valid T.item.octets)
        (λ v. v.elements.octets.now) (Prim.omega arith) };
}

impl<'a, T: Item> Nestable for SetOf<'a, T> {
    ghost nestable = { Prim.omega arith };
}

impl<'a, T: DecodeItem<SliceReader<'a>>> SetOf<'a, T> {
    /// Wraps `octets` as the contents of a SET OF. Checks that `octets` are DER encodings of values
    /// of `T`, one after the other. Also checks that no encoding is less than the encoding before
    /// it, compared octet by octet.
    ///
    /// # Errors
    ///
    /// Positions count from the start of `octets`.
    ///
    /// - `Overflow` without a position, if there are more than 4294967295 octets.
    /// - The errors of [`Decode::decode`] for the first element that cannot be decoded.
    /// - `Failed` at the position after an element, if decoding a `T` returns a value but the
    ///   reader has failed.
    /// - `SetOrdering` at the start of the first element whose encoding is less than the encoding
    ///   of the element before it.
    pub fn new(
        alloc: Global,
        octets: &'a [u8],
    ) -> Result<Self, <T as Decode<SliceReader<'a>>>::Error>
        ensures ok { IfOk result (λ v. (v.elements.octets.now ≡ octets.now)
            × AreAscending T.item.valid T.item.octets octets.now) }
        ensures complete { length octets.now < 2 ^ 32
            → AreAscending T.item.valid T.item.octets octets.now
            → SucceedsOrLacks T.Error.out_of_memory T.item.allocates result }
        ensures too_long { 2 ^ 32 ≤ length octets.now
            → IsErrAnd result (λ e. T.Error.from_gives (error_of_kind Overflow) e) }
        ensures exact { length octets.now < 2 ^ 32 → SetWalked T.Error.from_gives
            T.decode_answers (map_ok (λ _. tt) result) octets.now }
    {
        check_set::<T>(alloc, octets)?;
        Ok(SetOf {
            elements: SequenceOf::formed(octets),
        })
    }
}

impl<'a, T: Item> SetOf<'a, T> {
    /// The SET OF without elements.
    pub fn empty() -> Self
        ensures { result.elements.octets.now ≡ [] }
    {
        SetOf {
            elements: SequenceOf::empty(),
        }
    }

    /// The contents octets of the SET OF.
    #[inline(always)]
    pub fn octets(&self) -> &'a [u8]
        ensures value { result.now ≡ self.now.elements.octets.now }
        ensures short { length result.now < 2 ^ 32 }
        ensures ascending { ∥ AreAscending T.item.valid T.item.octets result.now ∥₁ }
    {
        self.elements.octets()
    }

    /// Returns [`Items`], which decodes the items of the SET OF one after the other, from the
    /// first.
    pub fn items(&self) -> Items<'a, T>
        ensures { rest_of (slice_state result.reader) ≡ self.now.elements.octets.now }
    {
        self.elements.items()
    }

    /// An iterator over the items of the SET OF, from the first. It is for types of items that do
    /// not allocate; decoding these items does not use `alloc`.
    pub fn iter(&self, alloc: Global) -> Iter<'a, T>
        ensures { rest_of (slice_state result.items.reader) ≡ self.now.elements.octets.now }
    {
        self.elements.iter(alloc)
    }
}

impl<'a, T: Item> Described for SetOf<'a, T> {
    ghost element = { octets_with SetTag (AreAscending T.item.valid T.item.octets)
        (λ v. v.elements.octets.now) };
}

impl<'a, T: Item> Item for SetOf<'a, T> {
    ghost item = { element_item SetTag (AcceptsOctetsWith (AreAscending T.item.valid T.item.octets) (λ v. v.elements.octets.now))
        (HasOctetsWith (AreAscending T.item.valid T.item.octets) (λ v. v.elements.octets.now))
        (λ v. v.elements.octets.now) (λ _. 0) T.item.allocates };
}

impl<
    'a,
    R: Lends<Borrowed = &'a [u8]>,
    T: DecodeItem<R> + DecodeItem<SliceReader<'a>, Error = <T as Decode<R>>::Error>,
> DecodeItem<R> for SetOf<'a, T> {
    ghost is_item = { element_is_item (octets_with_lawful SetTag
        (AreAscending T.item.valid T.item.octets) (λ v. v.elements.octets.now) (Prim.omega arith)) T.item.allocates };

    ghost decodes_items = { decodes_same (element_item SetTag (AcceptsOctetsWith (AreAscending T.item.valid T.item.octets) (λ v. v.elements.octets.now))
        (HasOctetsWith (AreAscending T.item.valid T.item.octets) (λ v. v.elements.octets.now))
        (λ v. v.elements.octets.now) (λ _. 0) T.item.allocates) };
}
