//! Reading of an OCTET STRING with an IMPLICIT tag.
ghost use Rattle.std.specs.Prelude.{◌↔◌, IsTrue, false};
ghost use Rattle.der_segments.specs.ImplicitSegmented.{ReadsAs, string_of_form};

use crate::constructed_segmented::ConstructedSegmented;
use crate::implicit_segmented::ImplicitSegmented;
use crate::segmented::Segmented;
use der::{Decode, Error, Lends, Reader, SliceReader, Tag};
use der_asn1::{Choice, DecodeChoice, DescribedChoice, Either, Implicit};
use std::alloc::Global;

// The two forms of the string: in one piece, and in segments.
type Forms<'a, const N: u32> = Either<Implicit<Segmented<'a>, N>, ConstructedSegmented<'a, N>>;

/// Decodes the string. The next tag decides whether the encoding is read as primitive or as
/// constructed.
///
/// # Errors
///
/// - The errors of [`Either`], if the next tag cannot be read, or is neither the primitive nor the
///   constructed tag with the number `N`.
/// - The errors of decoding a [`Segmented`]. Under the Distinguished Encoding Rules, the
///   constructed tag is an error: `Noncanonical` with the constructed tag, at the last octet of the
///   header.
impl<'a, const N: u32, R: Lends<Borrowed = &'a [u8]>> Decode<R> for ImplicitSegmented<'a, N> {
    type Error = Error;

    ghost is_next = { ⟦<ImplicitSegmented<'a, N> as DescribedChoice>⟧.alternative.is_next };

    ghost decode_levels = { ⟦<ImplicitSegmented<'a, N> as DescribedChoice>⟧.alternative.levels };

    ghost allocates = { false };

    ghost decode_answers = { ReadsAs ⟦<Forms<'a, N> as Decode<SliceReader<'a>>>⟧.decode_answers
        string_of_form (λ v. v.0) };

    fn decode(alloc: Global, reader: &mut R) -> Result<Self, Error>
    where
        R: Reader,
    {
        match <Forms<'a, N> as Decode<R>>::decode(alloc, reader) {
            Ok(Either::First(string)) => Ok(ImplicitSegmented(string.0)),
            Ok(Either::Second(string)) => Ok(ImplicitSegmented(string.0)),
            Err(error) => Err(error),
        }
    }
}

impl<'a, const N: u32> Choice for ImplicitSegmented<'a, N> {
    ghost chooses = { ⟦<ImplicitSegmented<'a, N> as DescribedChoice>⟧.alternative.tags };

    #[inline(always)]
    fn can_decode(tag: Tag) -> bool
        ensures { IsTrue result ↔ ⟦<ImplicitSegmented<'a, N> as DescribedChoice>⟧.alternative.tags tag }
    {
        <Forms<'a, N> as Choice>::can_decode(tag)
    }
}

impl<'a, const N: u32, R: Lends<Borrowed = &'a [u8]>> DecodeChoice<R> for ImplicitSegmented<'a, N> {
    ghost begins = { ⟦<ImplicitSegmented<'a, N> as DescribedChoice>⟧.alternative.begins };
}
