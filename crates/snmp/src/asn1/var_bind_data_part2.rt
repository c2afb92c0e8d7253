//! Written by asn1_compile from the module SNMPv2-PDU: change the module instead.
//!
//! VarBindDataPart2.
ghost use Rattle.std.specs.Prelude.{◌↔◌, IsTrue, false};
ghost use Rattle.der.specs.Prelude.{map_ok};
ghost use Rattle.der_asn1.specs.Meaning.{alternative, choice_of, either};

use der::{Decode, Encode, Error, FromFields, Lends, Length, Reader, SliceReader, Tag, Writer};
use der_asn1::{
    Choice, DecodeChoice, Described, DescribedChoice, Either, Implicit, Null, decode_choice,
};
use std::alloc::Global;

// Some alternatives of a VarBindData.
#[derive(Drop)]
pub(crate) struct VarBindDataPart2<'a> {
    pub(crate) choice: VarBindDataPart2Alternatives<'a>,
}

// The alternatives, as nested choices of two.
pub(crate) type VarBindDataPart2Alternatives<'a> = Either<
    Implicit<Null<'a>, 0>,
    Implicit<Null<'a>, 1>,
>;

impl<'a> FromFields<VarBindDataPart2Alternatives<'a>> for VarBindDataPart2<'a> {
    ghost fields = { λ v. v.choice };

    fn from_fields(choice: VarBindDataPart2Alternatives<'a>) -> Self {
        VarBindDataPart2 { choice }
    }
}

impl<'a> DescribedChoice for VarBindDataPart2<'a> {
    ghost alternative = { choice_of (either (alternative
        ⟦<Implicit<Null<'a>, 0> as Described>⟧.element) (alternative
        ⟦<Implicit<Null<'a>, 1> as Described>⟧.element)) (λ v. v.choice) };
}

impl<'a, R: Lends<Borrowed = &'a [u8]>> Decode<R> for VarBindDataPart2<'a> {
    type Error = Error;

    ghost is_next = { ⟦<VarBindDataPart2<'a> as DescribedChoice>⟧.alternative.is_next };

    ghost decode_levels = { ⟦<VarBindDataPart2<'a> as DescribedChoice>⟧.alternative.levels };

    ghost allocates = { false };

    ghost decode_answers = { λ s result t.
        ⟦<VarBindDataPart2Alternatives<'a> as Decode<SliceReader<'a>>>⟧.decode_answers s
        (map_ok (λ v. v.choice) result) t };

    #[inline(always)]
    fn decode(alloc: Global, reader: &mut R) -> Result<Self, Error>
    where
        R: Reader,
    {
        decode_choice::<R, VarBindDataPart2Alternatives<'a>, Self>(alloc, reader)
    }
}

impl<'a> Choice for VarBindDataPart2<'a> {
    ghost chooses = { ⟦<VarBindDataPart2<'a> as DescribedChoice>⟧.alternative.tags };

    #[inline(always)]
    fn can_decode(tag: Tag) -> bool
        ensures { IsTrue result ↔ ⟦<VarBindDataPart2<'a> as DescribedChoice>⟧.alternative.tags tag }
    {
        <VarBindDataPart2Alternatives<'a> as Choice>::can_decode(tag)
    }
}

impl<'a, R: Lends<Borrowed = &'a [u8]>> DecodeChoice<R> for VarBindDataPart2<'a> {
    ghost begins = { ⟦<VarBindDataPart2<'a> as DescribedChoice>⟧.alternative.begins };
}

impl<'a> Encode for VarBindDataPart2<'a> {
    ghost encoding = { λ v. ⟦<VarBindDataPart2Alternatives<'a> as Encode>⟧.encoding v.choice };

    ghost encodable = { λ v. ⟦<VarBindDataPart2Alternatives<'a> as Encode>⟧.encodable v.choice };

    ghost size = { λ v. ⟦<VarBindDataPart2Alternatives<'a> as Encode>⟧.size v.choice };

    ghost encode_answers = { λ v.
        ⟦<VarBindDataPart2Alternatives<'a> as Encode>⟧.encode_answers v.choice };

    #[inline(always)]
    fn encoded_len(&self) -> Result<Length, Error> {
        self.choice.encoded_len()
    }

    #[inline(always)]
    fn encode<W: Writer>(&self, writer: &mut W) -> Result<(), Error> {
        self.choice.encode(writer)
    }
}
