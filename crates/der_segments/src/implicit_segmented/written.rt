//! Writing of an OCTET STRING with an IMPLICIT tag.
ghost use Rattle.std.specs.Prelude.{false};
ghost use Rattle.der.specs.Octets.{IsCounted, octets_size};
ghost use Rattle.der.specs.Prelude.{ElementWritten, element_octets, element_size};
ghost use Rattle.der_asn1.specs.ContextSpecific.{context_tag};
ghost use Rattle.der_segments.specs.Segmented.{SegmentedWritten, segmented_octets};

use crate::implicit_segmented::ImplicitSegmented;
use crate::segmented::Segmented;
use der::{Encode, Error, Length, Writer};
use der_asn1::Implicit;

/// Writes the string in one piece: the primitive tag, the length, and the joined octets. The writer
/// is called once for each primitive segment.
///
/// # Errors
///
/// - `Overflow` without a position, if the element has more than 4294967295 octets.
/// - The errors of the writer.
impl<'a, const N: u32> Encode for ImplicitSegmented<'a, N> {
    ghost encoding = { λ v. element_octets (context_tag false N) (segmented_octets v.0) };

    ghost encodable = { λ v. IsCounted (segmented_octets v.0) };

    ghost size = { λ v. element_size (context_tag false N) (octets_size segmented_octets v.0) };

    ghost encode_answers = { λ v. ElementWritten (context_tag false N)
        (octets_size segmented_octets v.0) (SegmentedWritten v.0) };

    #[inline(always)]
    fn encoded_len(&self) -> Result<Length, Error> {
        Implicit::<Segmented<'a>, N>(self.0).encoded_len()
    }

    #[inline(always)]
    fn encode<W: Writer>(&self, writer: &mut W) -> Result<(), Error> {
        Implicit::<Segmented<'a>, N>(self.0).encode(writer)
    }

    #[inline(always)]
    fn len_before(&self) -> Option<u32> {
        Implicit::<Segmented<'a>, N>(self.0).len_before()
    }

    #[inline(always)]
    fn encode_before(&self, buf: &mut [u8], end: u32) -> u32 {
        Implicit::<Segmented<'a>, N>(self.0).encode_before(buf, end)
    }
}
