//! Written by asn1_compile from the module SNMPv2-PDU: change the module instead.
//!
//! VarBindDataPart3.
ghost use Rattle.std.specs.Prelude.{◌↔◌, IsTrue, false};
ghost use Rattle.der.specs.Prelude.{map_ok};
ghost use Rattle.der_asn1.specs.Meaning.{alternative, choice_of};

use der::{Decode, Encode, Error, FromFields, Lends, Length, Reader, SliceReader, Tag, Writer};
use der_asn1::{Choice, DecodeChoice, Described, DescribedChoice, Implicit, Null, decode_choice};
use std::alloc::Global;

// Some alternatives of a VarBindData.
#[derive(Drop)]
pub(crate) struct VarBindDataPart3<'a> {
    pub(crate) choice: VarBindDataPart3Alternatives<'a>,
}

// The alternatives, as nested choices of two.
pub(crate) type VarBindDataPart3Alternatives<'a> = Implicit<Null<'a>, 2>;

impl<'a> FromFields<VarBindDataPart3Alternatives<'a>> for VarBindDataPart3<'a> {
    ghost fields = { λ v. v.choice };

    fn from_fields(choice: VarBindDataPart3Alternatives<'a>) -> Self {
        VarBindDataPart3 { choice }
    }
}

impl<'a> DescribedChoice for VarBindDataPart3<'a> {
    ghost alternative = { choice_of (alternative ⟦<Implicit<Null<'a>, 2> as Described>⟧.element)
        (λ v. v.choice) };
}

impl<'a, R: Lends<Borrowed = &'a [u8]>> Decode<R> for VarBindDataPart3<'a> {
    type Error = Error;

    ghost is_next = { ⟦<VarBindDataPart3<'a> as DescribedChoice>⟧.alternative.is_next };

    ghost decode_levels = { ⟦<VarBindDataPart3<'a> as DescribedChoice>⟧.alternative.levels };

    ghost allocates = { false };

    ghost decode_answers = { λ s result t.
        ⟦<VarBindDataPart3Alternatives<'a> as Decode<SliceReader<'a>>>⟧.decode_answers s
        (map_ok (λ v. v.choice) result) t };

    #[inline(always)]
    fn decode(alloc: Global, reader: &mut R) -> Result<Self, Error>
    where
        R: Reader,
    {
        decode_choice::<R, VarBindDataPart3Alternatives<'a>, Self>(alloc, reader)
    }
}

impl<'a> Choice for VarBindDataPart3<'a> {
    ghost chooses = { ⟦<VarBindDataPart3<'a> as DescribedChoice>⟧.alternative.tags };

    #[inline(always)]
    fn can_decode(tag: Tag) -> bool
        ensures { IsTrue result ↔ ⟦<VarBindDataPart3<'a> as DescribedChoice>⟧.alternative.tags tag }
    {
        <VarBindDataPart3Alternatives<'a> as Choice>::can_decode(tag)
    }
}

impl<'a, R: Lends<Borrowed = &'a [u8]>> DecodeChoice<R> for VarBindDataPart3<'a> {
    ghost begins = { ⟦<VarBindDataPart3<'a> as DescribedChoice>⟧.alternative.begins };
}

impl<'a> Encode for VarBindDataPart3<'a> {
    ghost encoding = { λ v. ⟦<VarBindDataPart3Alternatives<'a> as Encode>⟧.encoding v.choice };

    ghost encodable = { λ v. ⟦<VarBindDataPart3Alternatives<'a> as Encode>⟧.encodable v.choice };

    ghost size = { λ v. ⟦<VarBindDataPart3Alternatives<'a> as Encode>⟧.size v.choice };

    ghost encode_answers = { λ v.
        ⟦<VarBindDataPart3Alternatives<'a> as Encode>⟧.encode_answers v.choice };

    #[inline(always)]
    fn encoded_len(&self) -> Result<Length, Error> {
        self.choice.encoded_len()
    }

    #[inline(always)]
    fn encode<W: Writer>(&self, writer: &mut W) -> Result<(), Error> {
        self.choice.encode(writer)
    }
}
