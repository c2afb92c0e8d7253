//! Written by asn1_compile from the module SNMPv2-PDU: change the module instead.
//!
//! VarBindData.
ghost use Rattle.std.specs.Prelude.{◌↔◌, IsTrue, false};
ghost use Rattle.std.proofs.Common.{refl};
ghost use Rattle.der.specs.Prelude.{map_ok};
ghost use Rattle.der_asn1.specs.Item.{decodes_same};
ghost use Rattle.der_asn1.specs.Meaning.{alternative, choice_is_item, choice_item, choice_of, either};
ghost use Rattle.der_asn1.specs.declared.fields.either.Either.TheVariants.{First, Second};
ghost use Rattle.snmp.specs.declared.asn1.var_bind_data.VarBindData.TheVariants as variant;

use crate::asn1::object_syntax::ObjectSyntax;
use crate::asn1::var_bind_data_part1::VarBindDataPart1;
use crate::asn1::var_bind_data_part2::VarBindDataPart2;
use crate::asn1::var_bind_data_part3::VarBindDataPart3;
use der::{Decode, Encode, Error, FromFields, Lends, Length, Reader, SliceReader, Tag, Writer};
use der_asn1::{
    BorrowedItem, Choice, DecodeChoice, DecodeItem, DescribedChoice, Either, Implicit, Item, Null,
    WrittenItem, decode_choice,
};
use std::alloc::Global;

/// A type inside another type, to which the ASN.1 module gives no name. Its name here is made of the
/// names of the types and components around it.
#[derive(Clone, Copy, Debug, Drop, PartialEq, Eq)]
pub enum VarBindData<'a> {
    /// The value of the variable.
    Value(ObjectSyntax<'a>),
    /// No value, as in a request for the value.
    UnSpecified(Null<'a>),
    /// There is no object with this name.
    NoSuchObject(Implicit<Null<'a>, 0>),
    /// The object has no instance with this name.
    NoSuchInstance(Implicit<Null<'a>, 1>),
    /// No variable comes after the requested name.
    EndOfMibView(Implicit<Null<'a>, 2>),
}

// The alternatives, as nested choices of two.
pub(crate) type VarBindDataAlternatives<'a> = Either<
    VarBindDataPart1<'a>,
    Either<VarBindDataPart2<'a>, VarBindDataPart3<'a>>,
>;

impl<'a> FromFields<VarBindDataAlternatives<'a>> for VarBindData<'a> {
    ghost fields = { elim [
      | variant.Value v ↦ First ((record { choice = First (v) }))
      | variant.UnSpecified v ↦ First ((record { choice = Second (v) }))
      | variant.NoSuchObject v ↦ Second (First ((record { choice = First (v) })))
      | variant.NoSuchInstance v ↦ Second (First ((record { choice = Second (v) })))
      | variant.EndOfMibView v ↦ Second (Second ((record { choice = v })))
    ] };

    fn from_fields(alternatives: VarBindDataAlternatives<'a>) -> Self {
        match alternatives {
            Either::First(
                VarBindDataPart1 {
                    choice: Either::First(value),
                },
            ) => VarBindData::Value(value),
            Either::First(
                VarBindDataPart1 {
                    choice: Either::Second(value),
                },
            ) => VarBindData::UnSpecified(value),
            Either::Second(
                Either::First(
                    VarBindDataPart2 {
                        choice: Either::First(value),
                    },
                ),
            ) => VarBindData::NoSuchObject(value),
            Either::Second(
                Either::First(
                    VarBindDataPart2 {
                        choice: Either::Second(value),
                    },
                ),
            ) => VarBindData::NoSuchInstance(value),
            Either::Second(Either::Second(VarBindDataPart3 { choice: value })) =>
                VarBindData::EndOfMibView(value),
        }
    }
}

impl<'a> DescribedChoice for VarBindData<'a> {
    ghost alternative = { choice_of (either ⟦<VarBindDataPart1<'a> as DescribedChoice>⟧.alternative
        (either ⟦<VarBindDataPart2<'a> as DescribedChoice>⟧.alternative
        ⟦<VarBindDataPart3<'a> as DescribedChoice>⟧.alternative))
        ⟦<VarBindData<'a> as FromFields<VarBindDataAlternatives<'a>>>⟧.fields };
}

/// Decodes the alternative with the next tag. The errors are those of decoding an [`Either`].
impl<'a, R: Lends<Borrowed = &'a [u8]>> Decode<R> for VarBindData<'a> {
    type Error = Error;

    ghost is_next = { ⟦<VarBindData<'a> as DescribedChoice>⟧.alternative.is_next };

    ghost decode_levels = { ⟦<VarBindData<'a> as DescribedChoice>⟧.alternative.levels };

    ghost allocates = { false };

    ghost decode_answers = { λ s result t.
        ⟦<VarBindDataAlternatives<'a> as Decode<SliceReader<'a>>>⟧.decode_answers s
        (map_ok ⟦<VarBindData<'a> as FromFields<VarBindDataAlternatives<'a>>>⟧.fields result) t };

    fn decode(alloc: Global, reader: &mut R) -> Result<Self, Error>
    where
        R: Reader,
    {
        decode_choice::<R, VarBindDataAlternatives<'a>, Self>(alloc, reader)
    }
}

impl<'a> Choice for VarBindData<'a> {
    ghost chooses = { ⟦<VarBindData<'a> as DescribedChoice>⟧.alternative.tags };

    fn can_decode(tag: Tag) -> bool
        ensures { IsTrue result ↔ ⟦<VarBindData<'a> as DescribedChoice>⟧.alternative.tags tag }
    {
        <VarBindDataAlternatives<'a> as Choice>::can_decode(tag)
    }
}

impl<'a, R: Lends<Borrowed = &'a [u8]>> DecodeChoice<R> for VarBindData<'a> {
    ghost begins = { ⟦<VarBindData<'a> as DescribedChoice>⟧.alternative.begins };
}

/// Writes the alternative that the value has. The errors are those of writing it.
impl<'a> Encode for VarBindData<'a> {
    ghost encoding = { λ v. ⟦<VarBindDataAlternatives<'a> as Encode>⟧.encoding
        (⟦<VarBindData<'a> as FromFields<VarBindDataAlternatives<'a>>>⟧.fields v) };

    ghost encodable = { λ v. ⟦<VarBindDataAlternatives<'a> as Encode>⟧.encodable
        (⟦<VarBindData<'a> as FromFields<VarBindDataAlternatives<'a>>>⟧.fields v) };

    ghost size = { λ v. ⟦<VarBindDataAlternatives<'a> as Encode>⟧.size
        (⟦<VarBindData<'a> as FromFields<VarBindDataAlternatives<'a>>>⟧.fields v) };

    ghost encode_answers = { λ v. ⟦<VarBindDataAlternatives<'a> as Encode>⟧.encode_answers
        (⟦<VarBindData<'a> as FromFields<VarBindDataAlternatives<'a>>>⟧.fields v) };

    fn encoded_len(&self) -> Result<Length, Error> {
        match self {
            VarBindData::Value(value) => value.encoded_len(),
            VarBindData::UnSpecified(value) => value.encoded_len(),
            VarBindData::NoSuchObject(value) => value.encoded_len(),
            VarBindData::NoSuchInstance(value) => value.encoded_len(),
            VarBindData::EndOfMibView(value) => value.encoded_len(),
        }
    }

    fn encode<W: Writer>(&self, writer: &mut W) -> Result<(), Error> {
        match self {
            VarBindData::Value(value) => value.encode(writer),
            VarBindData::UnSpecified(value) => value.encode(writer),
            VarBindData::NoSuchObject(value) => value.encode(writer),
            VarBindData::NoSuchInstance(value) => value.encode(writer),
            VarBindData::EndOfMibView(value) => value.encode(writer),
        }
    }

    fn len_before(&self) -> Option<u32> {
        match self {
            VarBindData::Value(value) => value.len_before(),
            VarBindData::UnSpecified(value) => value.len_before(),
            VarBindData::NoSuchObject(value) => value.len_before(),
            VarBindData::NoSuchInstance(value) => value.len_before(),
            VarBindData::EndOfMibView(value) => value.len_before(),
        }
    }

    fn encode_before(&self, buf: &mut [u8], end: u32) -> u32 {
        match self {
            VarBindData::Value(value) => value.encode_before(buf, end),
            VarBindData::UnSpecified(value) => value.encode_before(buf, end),
            VarBindData::NoSuchObject(value) => value.encode_before(buf, end),
            VarBindData::NoSuchInstance(value) => value.encode_before(buf, end),
            VarBindData::EndOfMibView(value) => value.encode_before(buf, end),
        }
    }
}

impl<'a> Item for VarBindData<'a> {
    ghost item = { choice_item ⟦<VarBindData<'a> as DescribedChoice>⟧.alternative };
}

impl<'a, R: Lends<Borrowed = &'a [u8]>> DecodeItem<R> for VarBindData<'a> {
    ghost is_item = { choice_is_item ⟦<VarBindData<'a> as DescribedChoice>⟧.alternative refl };

    ghost decodes_items = { decodes_same (choice_item
        ⟦<VarBindData<'a> as DescribedChoice>⟧.alternative) };
}

impl<'a> BorrowedItem for VarBindData<'a> {
    ghost borrowed = { refl };
}

impl<'a> WrittenItem for VarBindData<'a> {
    ghost written = { λ v. refl };

    ghost writes_valid = { λ v is. is };
}
