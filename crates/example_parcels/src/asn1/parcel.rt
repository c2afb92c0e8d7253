//! Written by asn1_compile from the module Parcels: change the module instead.
//!
//! Parcel.
ghost use Rattle.std.specs.Prelude.{◌≡◌, false};
ghost use Rattle.std.proofs.Common.{refl};
ghost use Rattle.der.specs.Prelude.{map_ok};
ghost use Rattle.der_asn1.specs.Integer.{integer_octets};
ghost use Rattle.der_asn1.specs.Meaning.{alternative, defaulted, field, is_lawful_item, optional, seen, sequence, sequence_item, two_fields};
ghost use Rattle.der_asn1.specs.TupleFields.{four_fields};

use crate::asn1::handling::Handling;
use crate::asn1::journey::Journey;
use crate::asn1::label::Label;
use crate::asn1::packing::Packing;
use crate::asn1::parcel_part1::{ParcelPart1, ParcelPart1Fields};
use crate::asn1::parcel_part2::{ParcelPart2, ParcelPart2Fields};
use crate::asn1::parcel_part3::{ParcelPart3, ParcelPart3Fields};
use crate::asn1::parcel_part4::{ParcelPart4, ParcelPart4Fields};
use crate::asn1::version::Version;
use der::{
    Decode, DecodeValue, Encode, Error, FieldsCall, FromFields, HasFields, Header, IsValue, Lends,
    Reader, Sequence, SliceReader, decode_sequence, field_refs,
};
use der_asn1::{
    BooleanRef, DefaultOf, DefaultValue, Defaulted, Described, Enumerated, Explicit, Implicit,
    IntRef, IntegerIn, Item, LawfulItem, NamedInteger, Optional, WithDefault,
};
use std::alloc::Global;

/// A parcel on its way. It has required, OPTIONAL and DEFAULT fields.
#[derive(Clone, Copy, Debug, Drop, PartialEq, Eq)]
pub struct Parcel<'a> {
    /// The version of the format. The default is version 1.
    pub version: Defaulted<Explicit<WithDefault<NamedInteger<Version>, ParcelVersionDefault>, 0>>,
    /// The number of the parcel, of any size.
    pub number: IntRef<'a>,
    /// The weight of the parcel, in grams.
    pub weight: IntegerIn<1, 30000>,
    /// What the parcel is packed in. The default is a box.
    pub packing: Defaulted<WithDefault<Enumerated<Packing>, ParcelPackingDefault>>,
    /// How the parcel is to be handled, if present.
    pub handling: Optional<Handling<'a>>,
    /// Whether the parcel was opened on its way. The default is false.
    pub opened: Defaulted<BooleanRef<'a>>,
    /// Where the parcel comes from, where it was, and where it goes.
    pub journey: Journey<'a>,
    /// The label on the parcel, if present.
    pub label: Optional<Implicit<Label<'a>, 4>>,
}

/// The fields of [`Parcel`] as one type, in the order in which they are encoded.
pub type ParcelFields<'a> = (
    ParcelPart1Fields<'a>,
    ParcelPart2Fields,
    ParcelPart3Fields<'a>,
    ParcelPart4Fields<'a>,
);

impl<'a> FromFields<
    (
        ParcelPart1<'a>,
        ParcelPart2,
        ParcelPart3<'a>,
        ParcelPart4<'a>,
    ),
> for Parcel<'a> {
    ghost fields = { λ v. (
      record { version = v.version; number = v.number },
      record { weight = v.weight; packing = v.packing },
      record {
        handling = v.handling;
        opened = v.opened;
      },
      record { journey = v.journey; label = v.label },
    ) };

    fn from_fields(
        fields: (
            ParcelPart1<'a>,
            ParcelPart2,
            ParcelPart3<'a>,
            ParcelPart4<'a>,
        ),
    ) -> Self {
        let (part1, part2, part3, part4) = fields;
        Parcel {
            version: part1.version,
            number: part1.number,
            weight: part2.weight,
            packing: part2.packing,
            handling: part3.handling,
            opened: part3.opened,
            journey: part4.journey,
            label: part4.label,
        }
    }
}

impl<'a> Sequence for Parcel<'a> {
    ghost meaning = { sequence (four_fields (seen
        ⟦<ParcelPart1<'a> as FromFields<ParcelPart1Fields<'a>>>⟧.fields (two_fields (defaulted
        ⟦<Explicit<WithDefault<NamedInteger<Version>, ParcelVersionDefault>, 0> as DefaultValue>⟧.is_default
        (alternative
        ⟦<Explicit<WithDefault<NamedInteger<Version>, ParcelVersionDefault>, 0> as Described>⟧.element))
        (field (alternative ⟦<IntRef<'a> as Described>⟧.element)))) (seen
        ⟦<ParcelPart2 as FromFields<ParcelPart2Fields>>⟧.fields (two_fields (field (alternative
        ⟦<IntegerIn<1, 30000> as Described>⟧.element)) (defaulted
        ⟦<WithDefault<Enumerated<Packing>, ParcelPackingDefault> as DefaultValue>⟧.is_default
        (alternative
        ⟦<WithDefault<Enumerated<Packing>, ParcelPackingDefault> as Described>⟧.element)))) (seen
        ⟦<ParcelPart3<'a> as FromFields<ParcelPart3Fields<'a>>>⟧.fields (two_fields (optional
        (alternative ⟦<Handling<'a> as Described>⟧.element)) (defaulted
        ⟦<BooleanRef<'a> as DefaultValue>⟧.is_default (alternative
        ⟦<BooleanRef<'a> as Described>⟧.element)))) (seen
        ⟦<ParcelPart4<'a> as FromFields<ParcelPart4Fields<'a>>>⟧.fields (two_fields (field
        (alternative ⟦<Journey<'a> as Described>⟧.element)) (optional (alternative
        ⟦<Implicit<Label<'a>, 4> as Described>⟧.element)))))
        ⟦<Parcel<'a> as FromFields<(ParcelPart1<'a>, ParcelPart2, ParcelPart3<'a>, ParcelPart4<'a>)>>⟧.fields };

    ghost fits = { (refl, refl) };
}

/// Decodes the fields, first to last. The errors are those that [`Sequence`] lists.
impl<'a, R: Lends<Borrowed = &'a [u8]>> DecodeValue<R> for Parcel<'a> {
    type Error = Error;

    ghost decode_value_answers = { λ h s result t.
        ⟦<(ParcelPart1<'a>, ParcelPart2, ParcelPart3<'a>, ParcelPart4<'a>) as Decode<SliceReader<'a>>>⟧.decode_answers s
        (map_ok
        ⟦<Parcel<'a> as FromFields<(ParcelPart1<'a>, ParcelPart2, ParcelPart3<'a>, ParcelPart4<'a>)>>⟧.fields result) t };

    fn decode_value(alloc: Global, reader: &mut R, header: Header) -> Result<Self, Error>
    where
        R: Reader,
    {
        decode_sequence::<
            R,
            (
                ParcelPart1<'a>,
                ParcelPart2,
                ParcelPart3<'a>,
                ParcelPart4<'a>,
            ),
            Self,
        >(alloc, reader, header)
    }
}

impl<'a> IsValue for Parcel<'a> {
    fn is_value(&self) {
        self.version.0.is_value();
        self.number.is_value();
        self.weight.is_value();
        self.packing.0.is_value();
        if let Some(value) = &self.handling.0 {
            value.is_value();
        }
        self.opened.0.is_value();
        self.journey.is_value();
        if let Some(value) = &self.label.0 {
            value.is_value();
        }
    }
}

/// Writes the fields, first to last. The errors are those that [`Sequence`] lists.
impl<'a> HasFields for Parcel<'a> {
    ghost fields_size = { λ v. ⟦<ParcelFields<'a> as Encode>⟧.size (
      ⟦<ParcelPart1<'a> as FromFields<ParcelPart1Fields<'a>>>⟧.fields
          (⟦<Parcel<'a> as FromFields<(ParcelPart1<'a>, ParcelPart2, ParcelPart3<'a>, ParcelPart4<'a>)>>⟧.fields v).0,
      ⟦<ParcelPart2 as FromFields<ParcelPart2Fields>>⟧.fields
          (⟦<Parcel<'a> as FromFields<(ParcelPart1<'a>, ParcelPart2, ParcelPart3<'a>, ParcelPart4<'a>)>>⟧.fields v).1,
      ⟦<ParcelPart3<'a> as FromFields<ParcelPart3Fields<'a>>>⟧.fields
          (⟦<Parcel<'a> as FromFields<(ParcelPart1<'a>, ParcelPart2, ParcelPart3<'a>, ParcelPart4<'a>)>>⟧.fields v).2,
      ⟦<ParcelPart4<'a> as FromFields<ParcelPart4Fields<'a>>>⟧.fields
          (⟦<Parcel<'a> as FromFields<(ParcelPart1<'a>, ParcelPart2, ParcelPart3<'a>, ParcelPart4<'a>)>>⟧.fields v).3,
    ) };

    ghost fields_answers = { λ v. ⟦<ParcelFields<'a> as Encode>⟧.encode_answers (
      ⟦<ParcelPart1<'a> as FromFields<ParcelPart1Fields<'a>>>⟧.fields
          (⟦<Parcel<'a> as FromFields<(ParcelPart1<'a>, ParcelPart2, ParcelPart3<'a>, ParcelPart4<'a>)>>⟧.fields v).0,
      ⟦<ParcelPart2 as FromFields<ParcelPart2Fields>>⟧.fields
          (⟦<Parcel<'a> as FromFields<(ParcelPart1<'a>, ParcelPart2, ParcelPart3<'a>, ParcelPart4<'a>)>>⟧.fields v).1,
      ⟦<ParcelPart3<'a> as FromFields<ParcelPart3Fields<'a>>>⟧.fields
          (⟦<Parcel<'a> as FromFields<(ParcelPart1<'a>, ParcelPart2, ParcelPart3<'a>, ParcelPart4<'a>)>>⟧.fields v).2,
      ⟦<ParcelPart4<'a> as FromFields<ParcelPart4Fields<'a>>>⟧.fields
          (⟦<Parcel<'a> as FromFields<(ParcelPart1<'a>, ParcelPart2, ParcelPart3<'a>, ParcelPart4<'a>)>>⟧.fields v).3,
    ) };

    fn call_fields<S, C: FieldsCall<S>>(
        &self,
        call: &C,
        state: &mut S,
        buf: &mut [u8],
    ) -> C::Output {
        call.call(
            &field_refs!(
                self,
                (
                    (version, number),
                    (weight, packing),
                    (handling, opened),
                    (journey, label)
                )
            ),
            state,
            buf,
        )
    }
}

impl<'a> Item for Parcel<'a> {
    ghost item = { sequence_item ⟦<Parcel<'a> as Described>⟧.element };
}

impl<'a> LawfulItem for Parcel<'a> {
    ghost is_lawful_item = { is_lawful_item ⟦<Parcel<'a> as Described>⟧.element refl };
}

/// The default of a field: [`Version::V1`].
pub struct ParcelVersionDefault;

impl DefaultOf<NamedInteger<Version>> for ParcelVersionDefault {
    ghost default_contents = { integer_octets false 0 };

    fn default_value() -> NamedInteger<Version> {
        <NamedInteger<Version>>::new(Version::V1)
    }
}

/// The default of a field: [`Packing::Box`].
pub struct ParcelPackingDefault;

impl DefaultOf<Enumerated<Packing>> for ParcelPackingDefault {
    ghost default_contents = { integer_octets false 1 };

    fn default_value() -> Enumerated<Packing> {
        <Enumerated<Packing>>::new(Packing::Box)
    }
}
