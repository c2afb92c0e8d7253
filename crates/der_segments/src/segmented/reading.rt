//! Reading of an OCTET STRING that is borrowed from the input.
ghost use Rattle.std.specs.Prelude.{◌≡◌, false, true};
ghost use Rattle.der.specs.Octets.{IsCounted};
ghost use Rattle.der.specs.Prelude.{OctetString};
ghost use Rattle.der.specs.ReaderState.{IsSound};
ghost use Rattle.der_segments.specs.Segmented.{SegmentedRead, TakesSegmented, segmented_levels, segmented_octets};

use crate::measure::measure_segments;
use crate::segmented::Segmented;
use der::{DecodeValue, Error, FixedTag, Header, IsValue, Lends, Length, ReadValue, Reader, Tag};
use std::alloc::Global;

impl<'a> FixedTag for Segmented<'a> {
    ghost tag_is = { OctetString };

    const TAG: Tag = Tag::OctetString;

    #[inline(always)]
    fn fixed_tag() -> Tag
        ensures { result ≡ OctetString }
    {
        Tag::OctetString
    }
}

impl<'a> ReadValue for Segmented<'a> {
    ghost valid = { λ v. IsCounted (segmented_octets v) };

    ghost takes = { TakesSegmented };

    ghost value_levels = { segmented_levels };

    ghost allocates = { false };

    ghost takes_valid = { λ v rules h octets taken. taken.0 };
}

/// Borrows the contents from the input. Suppose that the header is constructed. Under the Basic
/// Encoding Rules, all octets up to the reader's end must then be segments. A segment is an element
/// with the tag OCTET STRING, which may itself consist of segments. Under the Distinguished
/// Encoding Rules, a constructed header is an error.
///
/// # Errors
///
/// - After a primitive header, the errors of [`Reader::read_slice`].
/// - After a constructed header under the Distinguished Encoding Rules, `Noncanonical` with the
///   header's tag, at the last octet of the header. The reader is unchanged then.
/// - After a constructed header under the Basic Encoding Rules, `Failed` at the reader's position,
///   if the reader had already failed. Otherwise the errors that
///   [`read_constructed_vec`](der::read_constructed_vec) returns for a segment that is not valid.
///   It never fails with `OutOfMemory`, because nothing is allocated.
impl<'a, R: Lends<Borrowed = &'a [u8]>> DecodeValue<R> for Segmented<'a> {
    type Error = Error;

    ghost decode_value_answers = { SegmentedRead };

    fn decode_value(_alloc: Global, reader: &mut R, header: Header) -> Result<Self, Error>
    where
        R: Reader,
    {
        reader_is_sound(reader);
        if !header.is_constructed() {
            let octets = reader.read_slice(header.length())?;
            return Ok(Segmented::primitive(octets));
        }
        if !reader.encoding_rules().is_ber() {
            let at = reader.position().saturating_sub(Length::ONE);
            return Err(header.tag().non_canonical_error().at(at));
        }
        let octets = reader.remaining()?;
        let count = measure_segments(reader)?;
        Ok(Segmented::in_segments(octets, count))
    }
}

impl<'a> IsValue for Segmented<'a> {
    fn is_value(&self) {
        let _count = self.count;
    }
}

// Does nothing. Its contract states, for the proofs of its callers, a law of every reader.
#[inline(always)]
fn reader_is_sound<R: Reader>(_reader: &R)
    ensures { IsSound (R.state _reader.now) }
{}
