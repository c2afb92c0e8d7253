//! The constructed form of an OCTET STRING with an IMPLICIT tag.
ghost use Rattle.std.specs.Prelude.{◌≡◌, false, true};
ghost use Rattle.der.specs.Octets.{IsCounted};
ghost use Rattle.der.specs.Prelude.{map_ok};
ghost use Rattle.der_asn1.specs.ContextSpecific.{context_tag};
ghost use Rattle.der_segments.specs.Segmented.{SegmentedRead, TakesSegmented, segmented_levels, segmented_octets};

use crate::segmented::Segmented;
use der::{DecodeValue, Error, FixedTag, Header, Lends, ReadValue, Reader, Tag, TagNumber};
use std::alloc::Global;

// An OCTET STRING after the constructed context-specific tag with the number `N`.
#[derive(Clone, Copy, Drop)]
pub(crate) struct ConstructedSegmented<'a, const N: u32>(pub(crate) Segmented<'a>);

impl<'a, const N: u32> FixedTag for ConstructedSegmented<'a, N> {
    ghost tag_is = { context_tag true N };

    const TAG: Tag = Tag::ContextSpecific {
        constructed: true,
        number: TagNumber(N),
    };

    #[inline(always)]
    fn fixed_tag() -> Tag
        ensures { result ≡ context_tag true N }
    {
        Tag::ContextSpecific {
            constructed: true,
            number: TagNumber(N),
        }
    }
}

impl<'a, const N: u32> ReadValue for ConstructedSegmented<'a, N> {
    ghost valid = { λ v. IsCounted (segmented_octets v.0) };

    ghost takes = { λ v. TakesSegmented v.0 };

    ghost value_levels = { segmented_levels };

    ghost allocates = { false };

    ghost takes_valid = { λ v rules h octets taken. taken.0 };
}

impl<'a, const N: u32, R: Lends<Borrowed = &'a [u8]>> DecodeValue<R>
    for ConstructedSegmented<'a, N> {
    type Error = Error;

    ghost decode_value_answers = { λ h s result t. SegmentedRead h s (map_ok (λ v. v.0) result) t };

    #[inline(always)]
    fn decode_value(alloc: Global, reader: &mut R, header: Header) -> Result<Self, Error>
    where
        R: Reader,
    {
        let string = <Segmented<'a> as DecodeValue<R>>::decode_value(alloc, reader, header)?;
        Ok(ConstructedSegmented(string))
    }
}
