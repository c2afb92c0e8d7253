//! SEQUENCE OF, borrowed from the input. Decoding checks the encodings of all elements. A later
//! iteration over the elements can fail only if an allocation fails.
ghost use Rattle.std.specs.Prelude.{◌≡◌, ◌^◌, ◌<◌, ◌≤◌, false, [], None, length, IfOk, OnOk, IsErrAnd, IfSome, ⊤};
ghost use Rattle.std.proofs.Common.{arith};
ghost use Rattle.der.specs.Prelude.{Sequence, rest_of, Reads, slice_state, error_of_kind};
ghost use Rattle.der.specs.ErrorKinds.{Overflow};
ghost use Rattle.der.specs.Decode.{SucceedsOrLacks};
ghost use Rattle.der_asn1.specs.Checked.{contents_size, ContentsWritten};
ghost use Rattle.der_asn1.specs.Item.{decodes_same, element_is_item, element_item};
ghost use Rattle.der_asn1.specs.SequenceOf.{IsListOf};
ghost use Rattle.der_asn1.specs.OctetsWith.{AcceptsOctetsWith, HasOctetsWith, octets_with_lawful, octets_with_accepts_valid};
ghost use Rattle.der_asn1.specs.ListAnswers.{ListRead, ListWalked, WalkAnswer};
ghost use Rattle.der.specs.Prelude.{map_ok};
ghost use Rattle.der_asn1.specs.Meaning.{octets_with};

use crate::fields::described::Described;
use crate::fields::explicit::Nestable;
use crate::lists::item::{DecodeItem, Item};
use crate::lists::item_walk::{check_items, read_items, read_part};
use crate::lists::items::Items;
use crate::lists::iter::Iter;
use der::{
    Decode, DecodeValue, EncodeValue, Error, FixedTag, Header, IsValue, Lawful, Lends, Length,
    ReadValue, Reader, SliceReader, Tag, Writer, WrittenValue, octets_len, place_before,
};
use std::alloc::{AllocError, Global};
use std::marker::PhantomData;

/// A SEQUENCE OF borrowed from the input. Its contents have been checked: they are encodings of
/// values of `T`, one after the other. `T` is a [`Lawful`](der::Lawful) type, an element of any
/// tag, or a CHOICE.
pub struct SequenceOf<'a, T: Item> {
    octets: &'a [u8],
    of: PhantomData<T>,
    ghost short: { length octets.now < 2 ^ 32 },
    ghost checked: { ∥ IsListOf T.item.valid T.item.octets octets.now ∥₁ },
}

/// A clone has the same elements; cloning does not allocate.
impl<'a, T: Item> Clone for SequenceOf<'a, T> {
    ghost is_clone = { λ p q. q ≡ p };

    ghost is_infallible = { λ _. ⊤ };

    fn clone(&self) -> Result<Self, AllocError> {
        Ok(*self)
    }
}

impl<'a, T: Item> Copy for SequenceOf<'a, T> {}

impl<'a, T: Item> FixedTag for SequenceOf<'a, T> {
    ghost tag_is = { Sequence };

    const TAG: Tag = Tag::Sequence;

    #[inline(always)]
    fn fixed_tag() -> Tag
        ensures { result ≡ Sequence }
    {
        Tag::Sequence
    }
}

impl<'a, T: Item> ReadValue for SequenceOf<'a, T> {
    ghost valid = { HasOctetsWith (IsListOf T.item.valid T.item.octets) (λ v. v.octets.now) };

    ghost takes = { AcceptsOctetsWith (IsListOf T.item.valid T.item.octets) (λ v. v.octets.now) };

    ghost value_levels = { λ _. 0 };

    ghost allocates = { T.item.allocates };

    ghost takes_valid = { octets_with_accepts_valid (IsListOf T.item.valid T.item.octets)
        (λ v. v.octets.now) };
}

/// Borrows the contents from the input, and checks every item in them once. The items must be
/// encoded under DER, even if the reader reads BER.
///
/// # Errors
///
/// - The errors of [`Reader::read_slice`], which reads the contents.
/// - The errors of [`SequenceOf::new`] for the first item that cannot be decoded. The reader is
///   after the contents then, and has not failed. If the reader reads DER, positions count from the
///   start of the reader's input. If it reads BER, positions count from the start of the contents.
impl<
    'a,
    R: Lends<Borrowed = &'a [u8]>,
    T: DecodeItem<R> + DecodeItem<SliceReader<'a>, Error = <T as Decode<R>>::Error>,
> DecodeValue<R> for SequenceOf<'a, T> {
    type Error = <T as Decode<R>>::Error;

    ghost decode_value_answers = { ListRead T.Error.from_gives (WalkAnswer T.Error.from_gives
        T.Decode-1.decode_answers) (ListWalked T.Error.from_gives T.Decode-2.decode_answers)
        (λ v. v.octets.now) };

    fn decode_value(
        alloc: Global,
        reader: &mut R,
        header: Header,
    ) -> Result<Self, <T as Decode<R>>::Error>
    where
        R: Reader,
    {
        let (mut items, octets) = read_part(reader, header.length())?;
        if !reader.encoding_rules().is_der() {
            return SequenceOf::new(alloc, octets);
        }
        read_items::<R, T>(alloc, &mut items)?;
        Ok(SequenceOf {
            octets,
            of: PhantomData,
        })
    }
}

impl<'a, T: Item> IsValue for SequenceOf<'a, T> {
    fn is_value(&self) {
        let _octets = self.octets;
    }
}

impl<'a, T: Item> WrittenValue for SequenceOf<'a, T> {
    ghost contents = { λ v. v.octets.now };

    ghost writable = { HasOctetsWith (IsListOf T.item.valid T.item.octets) (λ v. v.octets.now) };
}

/// Writes the contents octets unchanged.
///
/// # Errors
///
/// - `value_len` returns `Overflow` without a position, if there are more than 4294967295 contents
///   octets.
/// - `encode_value` returns the errors of [`Writer::write`].
impl<'a, T: Item> EncodeValue for SequenceOf<'a, T> {
    ghost value_size = { λ v. contents_size v.octets.now };

    ghost encode_value_answers = { λ v. ContentsWritten v.octets.now };

    #[inline(always)]
    fn value_len(&self) -> Result<Length, Error> {
        Length::new_usize(self.octets.len())
    }

    #[inline(always)]
    fn encode_value<W: Writer>(&self, writer: &mut W) -> Result<(), Error> {
        writer.write(self.octets)
    }

    #[inline(always)]
    fn value_len_before(&self) -> Option<u32> {
        octets_len(self.octets)
    }

    #[inline(always)]
    fn encode_value_before(&self, buf: &mut [u8], end: u32) -> u32 {
        place_before(self.octets, buf, end)
    }
}

impl<'a, T: Item> Lawful for SequenceOf<'a, T> {
    ghost lawful = { octets_with_lawful Sequence (IsListOf T.item.valid T.item.octets)
        (λ v. v.octets.now) (Prim.omega arith) };
}

impl<'a, T: Item> Nestable for SequenceOf<'a, T> {
    ghost nestable = { Prim.omega arith };
}

impl<'a, T: DecodeItem<SliceReader<'a>>> SequenceOf<'a, T> {
    /// Wraps `octets` as the contents of a SEQUENCE OF. Checks that `octets` are DER encodings of
    /// values of `T`, one after the other.
    ///
    /// # Errors
    ///
    /// Positions count from the start of `octets`.
    ///
    /// - `Overflow` without a position, if there are more than 4294967295 octets.
    /// - The errors of [`Decode::decode`] for the first element that cannot be decoded.
    /// - `Failed` at the position after an element, if decoding a `T` returns a value but the
    ///   reader has failed.
    pub fn new(
        alloc: Global,
        octets: &'a [u8],
    ) -> Result<Self, <T as Decode<SliceReader<'a>>>::Error>
        ensures ok { IfOk result (λ v. (v.octets.now ≡ octets.now)
            × IsListOf T.item.valid T.item.octets octets.now) }
        ensures complete { length octets.now < 2 ^ 32
            → IsListOf T.item.valid T.item.octets octets.now
            → SucceedsOrLacks T.Error.out_of_memory T.item.allocates result }
        ensures too_long { 2 ^ 32 ≤ length octets.now
            → IsErrAnd result (λ e. T.Error.from_gives (error_of_kind Overflow) e) }
        ensures exact { length octets.now < 2 ^ 32 → ListWalked T.Error.from_gives
            T.decode_answers (map_ok (λ _. tt) result) octets.now }
    {
        check_items::<T>(alloc, octets)?;
        Ok(SequenceOf {
            octets,
            of: PhantomData,
        })
    }
}

impl<'a, T: Item> SequenceOf<'a, T> {
    // The SEQUENCE OF with contents that are known to be valid.
    pub(crate) fn formed(octets: &'a [u8]) -> Self
        requires short { length octets.now < 2 ^ 32 }
        requires checked { ∥ IsListOf T.item.valid T.item.octets octets.now ∥₁ }
        ensures { result.octets.now ≡ octets.now }
    {
        SequenceOf {
            octets,
            of: PhantomData,
        }
    }

    /// The SEQUENCE OF without elements.
    pub fn empty() -> Self
        ensures { result.octets.now ≡ [] }
    {
        SequenceOf::formed(&[])
    }

    /// The contents octets of the SEQUENCE OF.
    #[inline(always)]
    pub fn octets(&self) -> &'a [u8]
        ensures value { result.now ≡ self.now.octets.now }
        ensures checked { ∥ IsListOf T.item.valid T.item.octets result.now ∥₁ }
    {
        self.octets
    }

    /// Returns [`Items`], which decodes the items of the SEQUENCE OF one after the other, from the
    /// first.
    pub fn items(&self) -> Items<'a, T>
        ensures { rest_of (slice_state result.reader) ≡ self.now.octets.now }
    {
        Items::new(self.octets)
    }

    /// An iterator over the items of the SEQUENCE OF, from the first. It is for types of items that
    /// do not allocate; decoding these items does not use `alloc`.
    pub fn iter(&self, alloc: Global) -> Iter<'a, T>
        ensures { rest_of (slice_state result.items.reader) ≡ self.now.octets.now }
    {
        Iter::new(self.items(), alloc)
    }
}

impl<'a, T: Item> Described for SequenceOf<'a, T> {
    ghost element = { octets_with Sequence (IsListOf T.item.valid T.item.octets) (λ v. v.octets.now) };
}

impl<'a, T: Item> Item for SequenceOf<'a, T> {
    ghost item = { element_item Sequence (AcceptsOctetsWith (IsListOf T.item.valid T.item.octets) (λ v. v.octets.now))
        (HasOctetsWith (IsListOf T.item.valid T.item.octets) (λ v. v.octets.now))
        (λ v. v.octets.now) (λ _. 0) T.item.allocates };
}

impl<
    'a,
    R: Lends<Borrowed = &'a [u8]>,
    T: DecodeItem<R> + DecodeItem<SliceReader<'a>, Error = <T as Decode<R>>::Error>,
> DecodeItem<R> for SequenceOf<'a, T> {
    ghost is_item = { element_is_item (octets_with_lawful Sequence
        (IsListOf T.item.valid T.item.octets) (λ v. v.octets.now) (Prim.omega arith)) T.item.allocates };

    ghost decodes_items = { decodes_same (element_item Sequence (AcceptsOctetsWith (IsListOf T.item.valid T.item.octets) (λ v. v.octets.now))
        (HasOctetsWith (IsListOf T.item.valid T.item.octets) (λ v. v.octets.now))
        (λ v. v.octets.now) (λ _. 0) T.item.allocates) };
}
