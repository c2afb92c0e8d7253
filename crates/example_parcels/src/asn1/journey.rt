//! Written by asn1_compile from the module Parcels: change the module instead.
//!
//! Journey.
ghost use Rattle.std.specs.Prelude.{◌≡◌};
ghost use Rattle.std.proofs.Common.{refl};
ghost use Rattle.der.specs.Prelude.{map_ok};
ghost use Rattle.der_asn1.specs.Meaning.{alternative, defaulted, field, is_lawful_item, optional, sequence, sequence_item};
ghost use Rattle.der_asn1.specs.TupleFields.{five_fields};

use crate::asn1::address::Address;
use crate::asn1::property::Property;
use crate::asn1::stop::Stop;
use der::{
    Decode, DecodeValue, Encode, Error, FieldsCall, FromFields, HasFields, Header, IsValue, Lends,
    Reader, Sequence, SliceReader, decode_sequence, field_refs,
};
use der_asn1::{
    DefaultU64, DefaultValue, Defaulted, Described, Implicit, IntegerOf, Item, LawfulItem,
    Optional, SequenceOf, SetOf, WithDefault,
};
use std::alloc::Global;

/// The journey of a parcel.
#[derive(Clone, Copy, Debug, Drop, PartialEq, Eq)]
pub struct Journey<'a> {
    /// The address of the sender.
    pub sender: Implicit<Address<'a>, 1>,
    /// The address of the receiver, if known.
    pub receiver: Optional<Implicit<Address<'a>, 2>>,
    /// The places where the parcel was, first to last.
    pub stops: SequenceOf<'a, Stop<'a>>,
    /// What is known of the parcel, in ascending order of the encodings, if present.
    pub properties: Optional<Implicit<SetOf<'a, Property<'a>>, 3>>,
    /// How often delivery was tried. The default is 0.
    pub attempts: Defaulted<Implicit<WithDefault<IntegerOf<u64>, DefaultU64<0>>, 5>>,
}

/// The fields of [`Journey`] as one type, in the order in which they are encoded.
pub type JourneyFields<'a> = (
    Implicit<Address<'a>, 1>,
    Optional<Implicit<Address<'a>, 2>>,
    SequenceOf<'a, Stop<'a>>,
    Optional<Implicit<SetOf<'a, Property<'a>>, 3>>,
    Defaulted<Implicit<WithDefault<IntegerOf<u64>, DefaultU64<0>>, 5>>,
);

impl<'a> FromFields<JourneyFields<'a>> for Journey<'a> {
    ghost fields = { λ v. (v.sender, v.receiver, v.stops, v.properties, v.attempts) };

    fn from_fields(fields: JourneyFields<'a>) -> Self {
        let (sender, receiver, stops, properties, attempts) = fields;
        Journey {
            sender,
            receiver,
            stops,
            properties,
            attempts,
        }
    }
}

impl<'a> Sequence for Journey<'a> {
    ghost meaning = { sequence (five_fields (field (alternative
        ⟦<Implicit<Address<'a>, 1> as Described>⟧.element)) (optional (alternative
        ⟦<Implicit<Address<'a>, 2> as Described>⟧.element)) (field (alternative
        ⟦<SequenceOf<'a, Stop<'a>> as Described>⟧.element)) (optional (alternative
        ⟦<Implicit<SetOf<'a, Property<'a>>, 3> as Described>⟧.element)) (defaulted
        ⟦<Implicit<WithDefault<IntegerOf<u64>, DefaultU64<0>>, 5> as DefaultValue>⟧.is_default
        (alternative
        ⟦<Implicit<WithDefault<IntegerOf<u64>, DefaultU64<0>>, 5> as Described>⟧.element)))
        ⟦<Journey<'a> as FromFields<JourneyFields<'a>>>⟧.fields };

    ghost fits = { (refl, refl) };
}

/// Decodes the fields, first to last. The errors are those that [`Sequence`] lists.
impl<'a, R: Lends<Borrowed = &'a [u8]>> DecodeValue<R> for Journey<'a> {
    type Error = Error;

    ghost decode_value_answers = { λ h s result t.
        ⟦<JourneyFields<'a> as Decode<SliceReader<'a>>>⟧.decode_answers s (map_ok
        ⟦<Journey<'a> as FromFields<JourneyFields<'a>>>⟧.fields result) t };

    fn decode_value(alloc: Global, reader: &mut R, header: Header) -> Result<Self, Error>
    where
        R: Reader,
    {
        decode_sequence::<R, JourneyFields<'a>, Self>(alloc, reader, header)
    }
}

impl<'a> IsValue for Journey<'a> {
    fn is_value(&self) {
        self.sender.is_value();
        if let Some(value) = &self.receiver.0 {
            value.is_value();
        }
        self.stops.is_value();
        if let Some(value) = &self.properties.0 {
            value.is_value();
        }
        self.attempts.0.is_value();
    }
}

/// Writes the fields, first to last. The errors are those that [`Sequence`] lists.
impl<'a> HasFields for Journey<'a> {
    ghost fields_size = { λ v. ⟦<JourneyFields<'a> as Encode>⟧.size
        (⟦<Journey<'a> as FromFields<JourneyFields<'a>>>⟧.fields v) };

    ghost fields_answers = { λ v. ⟦<JourneyFields<'a> as Encode>⟧.encode_answers
        (⟦<Journey<'a> as FromFields<JourneyFields<'a>>>⟧.fields v) };

    fn call_fields<S, C: FieldsCall<S>>(
        &self,
        call: &C,
        state: &mut S,
        buf: &mut [u8],
    ) -> C::Output {
        call.call(
            &field_refs!(self, (sender, receiver, stops, properties, attempts)),
            state,
            buf,
        )
    }
}

impl<'a> Item for Journey<'a> {
    ghost item = { sequence_item ⟦<Journey<'a> as Described>⟧.element };
}

impl<'a> LawfulItem for Journey<'a> {
    ghost is_lawful_item = { is_lawful_item ⟦<Journey<'a> as Described>⟧.element refl };
}
