//! Written by asn1_compile from the module X509: change the module instead.
//!
//! GeneralName.
ghost use Rattle.std.specs.Prelude.{◌↔◌, IsTrue, false};
ghost use Rattle.std.proofs.Common.{refl};
ghost use Rattle.der.specs.Prelude.{map_ok};
ghost use Rattle.der_asn1.specs.Item.{decodes_same};
ghost use Rattle.der_asn1.specs.Meaning.{alternative, choice_is_item, choice_item, choice_of, either};
ghost use Rattle.der_asn1.specs.declared.fields.either.Either.TheVariants.{First, Second};
ghost use Rattle.x509.specs.declared.asn1.general_name.GeneralName.TheVariants as variant;

use crate::asn1::edi_party_name::EdiPartyName;
use crate::asn1::general_name_part1::GeneralNamePart1;
use crate::asn1::general_name_part2::GeneralNamePart2;
use crate::asn1::general_name_part3::GeneralNamePart3;
use crate::asn1::name::Name;
use crate::asn1::other_name::OtherName;
use der::{Decode, Encode, Error, FromFields, Lends, Length, Reader, SliceReader, Tag, Writer};
use der_asn1::{
    BorrowedItem, Choice, DecodeChoice, DecodeItem, DescribedChoice, Either, Explicit,
    Ia5StringRef, Implicit, Item, ObjectIdentifierRef, OctetStringRef, SequenceRef, WrittenItem,
    decode_choice,
};
use std::alloc::Global;

/// A name of one of nine forms (RFC 5280, 4.2.1.6), borrowed from the input. The contents of
/// x400Address are not checked.
#[derive(Clone, Copy, Debug, Drop, PartialEq, Eq)]
pub enum GeneralName<'a> {
    /// The alternative `otherName`.
    OtherName(Implicit<OtherName<'a>, 0>),
    /// The alternative `rfc822Name`.
    Rfc822Name(Implicit<Ia5StringRef<'a>, 1>),
    /// The alternative `dNSName`.
    DnsName(Implicit<Ia5StringRef<'a>, 2>),
    /// The alternative `x400Address`.
    X400Address(Implicit<SequenceRef<'a>, 3>),
    /// The alternative `directoryName`.
    DirectoryName(Explicit<Name<'a>, 4>),
    /// The alternative `ediPartyName`.
    EdiPartyName(Implicit<EdiPartyName<'a>, 5>),
    /// The alternative `uniformResourceIdentifier`.
    UniformResourceIdentifier(Implicit<Ia5StringRef<'a>, 6>),
    /// The alternative `iPAddress`.
    IpAddress(Implicit<OctetStringRef<'a>, 7>),
    /// The alternative `registeredID`.
    RegisteredId(Implicit<ObjectIdentifierRef<'a>, 8>),
}

// The alternatives, as nested choices of two.
pub(crate) type GeneralNameAlternatives<'a> = Either<
    GeneralNamePart1<'a>,
    Either<GeneralNamePart2<'a>, GeneralNamePart3<'a>>,
>;

impl<'a> FromFields<GeneralNameAlternatives<'a>> for GeneralName<'a> {
    ghost fields = { elim [
      | variant.OtherName v ↦ First ((record { choice = First (v) }))
      | variant.Rfc822Name v ↦ First ((record { choice = Second (First (v)) }))
      | variant.DnsName v ↦ First ((record { choice = Second (Second (v)) }))
      | variant.X400Address v ↦ Second (First ((record { choice = First (v) })))
      | variant.DirectoryName v ↦ Second (First ((record { choice = Second (First (v)) })))
      | variant.EdiPartyName v ↦ Second (First ((record { choice = Second (Second (v)) })))
      | variant.UniformResourceIdentifier v ↦ Second (Second ((record { choice = First (v) })))
      | variant.IpAddress v ↦ Second (Second ((record { choice = Second (First (v)) })))
      | variant.RegisteredId v ↦ Second (Second ((record { choice = Second (Second (v)) })))
    ] };

    fn from_fields(alternatives: GeneralNameAlternatives<'a>) -> Self {
        match alternatives {
            Either::First(
                GeneralNamePart1 {
                    choice: Either::First(value),
                },
            ) => GeneralName::OtherName(value),
            Either::First(
                GeneralNamePart1 {
                    choice: Either::Second(Either::First(value)),
                },
            ) => GeneralName::Rfc822Name(value),
            Either::First(
                GeneralNamePart1 {
                    choice: Either::Second(Either::Second(value)),
                },
            ) => GeneralName::DnsName(value),
            Either::Second(
                Either::First(
                    GeneralNamePart2 {
                        choice: Either::First(value),
                    },
                ),
            ) => GeneralName::X400Address(value),
            Either::Second(
                Either::First(
                    GeneralNamePart2 {
                        choice: Either::Second(Either::First(value)),
                    },
                ),
            ) => GeneralName::DirectoryName(value),
            Either::Second(
                Either::First(
                    GeneralNamePart2 {
                        choice: Either::Second(Either::Second(value)),
                    },
                ),
            ) => GeneralName::EdiPartyName(value),
            Either::Second(
                Either::Second(
                    GeneralNamePart3 {
                        choice: Either::First(value),
                    },
                ),
            ) => GeneralName::UniformResourceIdentifier(value),
            Either::Second(
                Either::Second(
                    GeneralNamePart3 {
                        choice: Either::Second(Either::First(value)),
                    },
                ),
            ) => GeneralName::IpAddress(value),
            Either::Second(
                Either::Second(
                    GeneralNamePart3 {
                        choice: Either::Second(Either::Second(value)),
                    },
                ),
            ) => GeneralName::RegisteredId(value),
        }
    }
}

impl<'a> DescribedChoice for GeneralName<'a> {
    ghost alternative = { choice_of (either ⟦<GeneralNamePart1<'a> as DescribedChoice>⟧.alternative
        (either ⟦<GeneralNamePart2<'a> as DescribedChoice>⟧.alternative
        ⟦<GeneralNamePart3<'a> as DescribedChoice>⟧.alternative))
        ⟦<GeneralName<'a> as FromFields<GeneralNameAlternatives<'a>>>⟧.fields };
}

/// Decodes the alternative with the next tag. The errors are those of decoding an [`Either`].
impl<'a, R: Lends<Borrowed = &'a [u8]>> Decode<R> for GeneralName<'a> {
    type Error = Error;

    ghost is_next = { ⟦<GeneralName<'a> as DescribedChoice>⟧.alternative.is_next };

    ghost decode_levels = { ⟦<GeneralName<'a> as DescribedChoice>⟧.alternative.levels };

    ghost allocates = { false };

    ghost decode_answers = { λ s result t.
        ⟦<GeneralNameAlternatives<'a> as Decode<SliceReader<'a>>>⟧.decode_answers s
        (map_ok ⟦<GeneralName<'a> as FromFields<GeneralNameAlternatives<'a>>>⟧.fields result) t };

    fn decode(alloc: Global, reader: &mut R) -> Result<Self, Error>
    where
        R: Reader,
    {
        decode_choice::<R, GeneralNameAlternatives<'a>, Self>(alloc, reader)
    }
}

impl<'a> Choice for GeneralName<'a> {
    ghost chooses = { ⟦<GeneralName<'a> as DescribedChoice>⟧.alternative.tags };

    fn can_decode(tag: Tag) -> bool
        ensures { IsTrue result ↔ ⟦<GeneralName<'a> as DescribedChoice>⟧.alternative.tags tag }
    {
        <GeneralNameAlternatives<'a> as Choice>::can_decode(tag)
    }
}

impl<'a, R: Lends<Borrowed = &'a [u8]>> DecodeChoice<R> for GeneralName<'a> {
    ghost begins = { ⟦<GeneralName<'a> as DescribedChoice>⟧.alternative.begins };
}

/// Writes the alternative that the value has. The errors are those of writing it.
impl<'a> Encode for GeneralName<'a> {
    ghost encoding = { λ v. ⟦<GeneralNameAlternatives<'a> as Encode>⟧.encoding
        (⟦<GeneralName<'a> as FromFields<GeneralNameAlternatives<'a>>>⟧.fields v) };

    ghost encodable = { λ v. ⟦<GeneralNameAlternatives<'a> as Encode>⟧.encodable
        (⟦<GeneralName<'a> as FromFields<GeneralNameAlternatives<'a>>>⟧.fields v) };

    ghost size = { λ v. ⟦<GeneralNameAlternatives<'a> as Encode>⟧.size
        (⟦<GeneralName<'a> as FromFields<GeneralNameAlternatives<'a>>>⟧.fields v) };

    ghost encode_answers = { λ v. ⟦<GeneralNameAlternatives<'a> as Encode>⟧.encode_answers
        (⟦<GeneralName<'a> as FromFields<GeneralNameAlternatives<'a>>>⟧.fields v) };

    fn encoded_len(&self) -> Result<Length, Error> {
        match self {
            GeneralName::OtherName(value) => value.encoded_len(),
            GeneralName::Rfc822Name(value) => value.encoded_len(),
            GeneralName::DnsName(value) => value.encoded_len(),
            GeneralName::X400Address(value) => value.encoded_len(),
            GeneralName::DirectoryName(value) => value.encoded_len(),
            GeneralName::EdiPartyName(value) => value.encoded_len(),
            GeneralName::UniformResourceIdentifier(value) => value.encoded_len(),
            GeneralName::IpAddress(value) => value.encoded_len(),
            GeneralName::RegisteredId(value) => value.encoded_len(),
        }
    }

    fn encode<W: Writer>(&self, writer: &mut W) -> Result<(), Error> {
        match self {
            GeneralName::OtherName(value) => value.encode(writer),
            GeneralName::Rfc822Name(value) => value.encode(writer),
            GeneralName::DnsName(value) => value.encode(writer),
            GeneralName::X400Address(value) => value.encode(writer),
            GeneralName::DirectoryName(value) => value.encode(writer),
            GeneralName::EdiPartyName(value) => value.encode(writer),
            GeneralName::UniformResourceIdentifier(value) => value.encode(writer),
            GeneralName::IpAddress(value) => value.encode(writer),
            GeneralName::RegisteredId(value) => value.encode(writer),
        }
    }

    fn len_before(&self) -> Option<u32> {
        match self {
            GeneralName::OtherName(value) => value.len_before(),
            GeneralName::Rfc822Name(value) => value.len_before(),
            GeneralName::DnsName(value) => value.len_before(),
            GeneralName::X400Address(value) => value.len_before(),
            GeneralName::DirectoryName(value) => value.len_before(),
            GeneralName::EdiPartyName(value) => value.len_before(),
            GeneralName::UniformResourceIdentifier(value) => value.len_before(),
            GeneralName::IpAddress(value) => value.len_before(),
            GeneralName::RegisteredId(value) => value.len_before(),
        }
    }

    fn encode_before(&self, buf: &mut [u8], end: u32) -> u32 {
        match self {
            GeneralName::OtherName(value) => value.encode_before(buf, end),
            GeneralName::Rfc822Name(value) => value.encode_before(buf, end),
            GeneralName::DnsName(value) => value.encode_before(buf, end),
            GeneralName::X400Address(value) => value.encode_before(buf, end),
            GeneralName::DirectoryName(value) => value.encode_before(buf, end),
            GeneralName::EdiPartyName(value) => value.encode_before(buf, end),
            GeneralName::UniformResourceIdentifier(value) => value.encode_before(buf, end),
            GeneralName::IpAddress(value) => value.encode_before(buf, end),
            GeneralName::RegisteredId(value) => value.encode_before(buf, end),
        }
    }
}

impl<'a> Item for GeneralName<'a> {
    ghost item = { choice_item ⟦<GeneralName<'a> as DescribedChoice>⟧.alternative };
}

impl<'a, R: Lends<Borrowed = &'a [u8]>> DecodeItem<R> for GeneralName<'a> {
    ghost is_item = { choice_is_item ⟦<GeneralName<'a> as DescribedChoice>⟧.alternative refl };

    ghost decodes_items = { decodes_same (choice_item
        ⟦<GeneralName<'a> as DescribedChoice>⟧.alternative) };
}

impl<'a> BorrowedItem for GeneralName<'a> {
    ghost borrowed = { refl };
}

impl<'a> WrittenItem for GeneralName<'a> {
    ghost written = { λ v. refl };

    ghost writes_valid = { λ v is. is };
}
