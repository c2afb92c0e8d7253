//! Elements with unknown tags, at the extension insertion point of a SEQUENCE.
ghost use Rattle.std.specs.Prelude.{◌≡◌, false, ◌^◌, ◌<◌, ⊤, [], length};
ghost use Rattle.der_asn1.specs.Additions.{additions, AdditionsNext, AreAdditions};
ghost use Rattle.der_asn1.specs.Checked.{contents_size, ContentsWritten};
ghost use Rattle.der_asn1.specs.OctetsWith.{HasOctetsWith};
ghost use Rattle.der_asn1.specs.UnknownWalk.{AdditionsRead};
ghost use Rattle.der_asn1.specs.Meaning.{FieldSpec};
ghost use Rattle.der.specs.Prelude.{rest_of, slice_state};

use crate::elements::any::AnyRef;
use crate::fields::known_tags::KnownTags;
use crate::fields::unknown_walk::{left_part, unknown_len_of};
use crate::lists::items::Items;
use crate::lists::iter::Iter;
use der::{Decode, Encode, Error, Lends, Length, Reader, Writer, octets_len, place_before};
use std::alloc::{AllocError, Global};
use std::marker::PhantomData;

/// The elements at the extension insertion point of a SEQUENCE (X.680 25.1, 25.6) whose tags are
/// not known. A later version of the SEQUENCE may define them as components. The elements are
/// borrowed from the input, and written back unchanged.
///
/// `K` gives the known tags. They are the tags of the components after the insertion point, and of
/// the components that are directly before it and may be absent.
#[derive_where(Debug, PartialEq, Eq)]
pub struct Additions<'a, K: KnownTags> {
    octets: &'a [u8],
    of: PhantomData<K>,
    ghost short: { length octets.now < 2 ^ 32 },
    ghost checked: { ∥ AreAdditions K.known octets.now ∥₁ },
}

/// A clone has the same elements; cloning does not allocate.
impl<'a, K: KnownTags> Clone for Additions<'a, K> {
    ghost is_clone = { λ p q. q ≡ p };

    ghost is_infallible = { λ _. ⊤ };

    fn clone(&self) -> Result<Self, AllocError> {
        Ok(*self)
    }
}

impl<'a, K: KnownTags> Copy for Additions<'a, K> {}

/// Types of fields of a SEQUENCE that have a specification, which is for proofs only.
///
/// Ghost member (for proofs only): `field` is the specification. A contract in other code names it
/// as `⟦<AnyField as DescribedField>⟧.field`, with the type in place of `AnyField`.
pub trait DescribedField: Sized {
    ghost field: { FieldSpec Self };
}

/// Borrows the elements before the first element with a known tag, or all elements that are left if
/// none of them has a known tag. The headers of the borrowed elements must be encoded under DER,
/// even if the reader reads BER. The contents of these elements are not checked.
///
/// # Errors
///
/// - The errors `Reader` and `Failed` of [`Reader::read_slice`]. The reader is unchanged then.
/// - The errors of [`decode_element`](crate::decode_element) for the first element that cannot be
///   decoded. The reader is unchanged then. If the reader reads DER, positions count from the start
///   of the reader's input. If it reads BER, positions count from the start of the first borrowed
///   element.
impl<'a, R: Lends<Borrowed = &'a [u8]>, K: KnownTags> Decode<R> for Additions<'a, K> {
    type Error = Error;

    ghost is_next = { AdditionsNext K.known (λ v. v.octets.now) };

    ghost decode_levels = { λ _. 0 };

    ghost allocates = { false };

    ghost decode_answers = { AdditionsRead K.known (λ v. v.octets.now) };

    fn decode(alloc: Global, reader: &mut R) -> Result<Self, Error>
    where
        R: Reader,
    {
        let (mut part, rest) = left_part(reader)?;
        let len = unknown_len_of::<R, AnyRef<'a>, K>(alloc, &mut part, rest)?;
        let octets = reader.read_slice(len)?;
        Ok(Additions {
            octets,
            of: PhantomData,
        })
    }
}

/// Writes the elements unchanged.
///
/// # Errors
///
/// - `encoded_len` returns `Overflow` without a position, if there are more than 4294967295 octets.
/// - `encode` returns the errors of [`Writer::write`].
impl<'a, K: KnownTags> Encode for Additions<'a, K> {
    ghost encoding = { λ v. v.octets.now };

    ghost encodable = { HasOctetsWith (AreAdditions K.known) (λ v. v.octets.now) };

    ghost size = { λ v. contents_size v.octets.now };

    ghost encode_answers = { λ v. ContentsWritten v.octets.now };

    #[inline(always)]
    fn encoded_len(&self) -> Result<Length, Error> {
        Length::new_usize(self.octets.len())
    }

    #[inline(always)]
    fn encode<W: Writer>(&self, writer: &mut W) -> Result<(), Error> {
        writer.write(self.octets)
    }

    #[inline(always)]
    fn len_before(&self) -> Option<u32> {
        octets_len(self.octets)
    }

    #[inline(always)]
    fn encode_before(&self, buf: &mut [u8], end: u32) -> u32 {
        place_before(self.octets, buf, end)
    }
}

impl<'a, K: KnownTags> DescribedField for Additions<'a, K> {
    ghost field = { additions K.known (λ v. v.octets.now) };
}

impl<'a, K: KnownTags> Additions<'a, K> {
    // The elements with these octets, which are known to be valid.
    pub(crate) fn formed(octets: &'a [u8]) -> Self
        requires short { length octets.now < 2 ^ 32 }
        requires checked { ∥ AreAdditions K.known octets.now ∥₁ }
        ensures { result.octets.now ≡ octets.now }
    {
        Additions {
            octets,
            of: PhantomData,
        }
    }

    /// Returns a value without elements.
    pub fn empty() -> Self
        ensures { result.octets.now ≡ [] }
    {
        Additions::formed(&[])
    }

    /// Does nothing. For use in proofs, the contract of this function states that `self` is a valid
    /// value.
    pub fn is_value(&self)
        ensures { HasOctetsWith (AreAdditions K.known) (λ v. v.octets.now) self.now }
    {
        let _octets = self.octets;
    }

    /// The encodings of the elements, one after the other.
    #[inline(always)]
    pub fn octets(&self) -> &'a [u8]
        ensures { result.now ≡ self.now.octets.now }
    {
        self.octets
    }

    /// Returns [`Items`], which decodes the elements one after the other, from the first.
    pub fn items(&self) -> Items<'a, AnyRef<'a>>
        ensures { rest_of (slice_state result.reader) ≡ self.now.octets.now }
    {
        Items::new(self.octets)
    }

    /// An iterator over the elements, from the first. It does not use `alloc`.
    pub fn iter(&self, alloc: Global) -> Iter<'a, AnyRef<'a>>
        ensures { rest_of (slice_state result.items.reader) ≡ self.now.octets.now }
    {
        Iter::new(self.items(), alloc)
    }
}
