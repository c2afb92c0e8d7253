//! Written by asn1_compile from the module Visits: change the module instead.
//!
//! Visit.
ghost use Rattle.std.specs.Prelude.{◌≡◌};
ghost use Rattle.std.proofs.Common.{refl};
ghost use Rattle.der.specs.Prelude.{map_ok};
ghost use Rattle.der_asn1.specs.Meaning.{alternative, field, is_lawful_item, sequence, sequence_item};
ghost use Rattle.der_asn1.specs.TupleFields.{five_fields};

use der::{
    Decode, DecodeValue, Encode, Error, FieldsCall, FromFields, HasFields, Header, IsValue, Lends,
    Reader, Sequence, SliceReader, decode_sequence, field_refs,
};
use der_asn1::{
    BooleanRef, Described, GeneralizedTime, IntRef, Item, LawfulItem, SequenceOf, Utf8StringRef,
};
use std::alloc::Global;

/// A visit to a museum, borrowed from the input.
#[derive(Clone, Copy, Debug, Drop, PartialEq, Eq)]
pub struct Visit<'a> {
    /// The number of the visitor's ticket.
    pub ticket: IntRef<'a>,
    /// The name of the visitor.
    pub visitor: Utf8StringRef<'a>,
    /// When the visitor arrived.
    pub arrival: GeneralizedTime,
    /// The rooms that the visitor saw, first to last.
    pub rooms: SequenceOf<'a, Utf8StringRef<'a>>,
    /// Whether the visitor is a member of the museum.
    pub member: BooleanRef<'a>,
}

/// The fields of [`Visit`] as one type, in the order in which they are encoded.
pub type VisitFields<'a> = (
    IntRef<'a>,
    Utf8StringRef<'a>,
    GeneralizedTime,
    SequenceOf<'a, Utf8StringRef<'a>>,
    BooleanRef<'a>,
);

impl<'a> FromFields<VisitFields<'a>> for Visit<'a> {
    ghost fields = { λ v. (v.ticket, v.visitor, v.arrival, v.rooms, v.member) };

    fn from_fields(fields: VisitFields<'a>) -> Self {
        let (ticket, visitor, arrival, rooms, member) = fields;
        Visit {
            ticket,
            visitor,
            arrival,
            rooms,
            member,
        }
    }
}

impl<'a> Sequence for Visit<'a> {
    ghost meaning = { sequence (five_fields (field (alternative
        ⟦<IntRef<'a> as Described>⟧.element)) (field (alternative
        ⟦<Utf8StringRef<'a> as Described>⟧.element)) (field (alternative
        ⟦<GeneralizedTime as Described>⟧.element)) (field (alternative
        ⟦<SequenceOf<'a, Utf8StringRef<'a>> as Described>⟧.element)) (field (alternative
        ⟦<BooleanRef<'a> as Described>⟧.element)))
        ⟦<Visit<'a> as FromFields<VisitFields<'a>>>⟧.fields };

    ghost fits = { (refl, refl) };
}

/// Decodes the fields, first to last. The errors are those that [`Sequence`] lists.
impl<'a, R: Lends<Borrowed = &'a [u8]>> DecodeValue<R> for Visit<'a> {
    type Error = Error;

    ghost decode_value_answers = { λ h s result t.
        ⟦<VisitFields<'a> as Decode<SliceReader<'a>>>⟧.decode_answers s (map_ok
        ⟦<Visit<'a> as FromFields<VisitFields<'a>>>⟧.fields result) t };

    fn decode_value(alloc: Global, reader: &mut R, header: Header) -> Result<Self, Error>
    where
        R: Reader,
    {
        decode_sequence::<R, VisitFields<'a>, Self>(alloc, reader, header)
    }
}

impl<'a> IsValue for Visit<'a> {
    fn is_value(&self) {
        self.ticket.is_value();
        self.visitor.is_value();
        self.arrival.is_value();
        self.rooms.is_value();
        self.member.is_value();
    }
}

/// Writes the fields, first to last. The errors are those that [`Sequence`] lists.
impl<'a> HasFields for Visit<'a> {
    ghost fields_size = { λ v. ⟦<VisitFields<'a> as Encode>⟧.size
        (⟦<Visit<'a> as FromFields<VisitFields<'a>>>⟧.fields v) };

    ghost fields_answers = { λ v. ⟦<VisitFields<'a> as Encode>⟧.encode_answers
        (⟦<Visit<'a> as FromFields<VisitFields<'a>>>⟧.fields v) };

    fn call_fields<S, C: FieldsCall<S>>(
        &self,
        call: &C,
        state: &mut S,
        buf: &mut [u8],
    ) -> C::Output {
        call.call(
            &field_refs!(self, (ticket, visitor, arrival, rooms, member)),
            state,
            buf,
        )
    }
}

impl<'a> Item for Visit<'a> {
    ghost item = { sequence_item ⟦<Visit<'a> as Described>⟧.element };
}

impl<'a> LawfulItem for Visit<'a> {
    ghost is_lawful_item = { is_lawful_item ⟦<Visit<'a> as Described>⟧.element refl };
}
