//! Written by asn1_compile from the module CMS: change the module instead.
//!
//! Accuracy.
ghost use Rattle.std.specs.Prelude.{◌≡◌};
ghost use Rattle.std.proofs.Common.{refl};
ghost use Rattle.der.specs.Prelude.{map_ok};
ghost use Rattle.der_asn1.specs.Meaning.{alternative, is_lawful_item, optional, sequence, sequence_item};
ghost use Rattle.der_asn1.specs.TupleFields.{three_fields};

use der::{
    Decode, DecodeValue, Encode, Error, FieldsCall, FromFields, HasFields, Header, IsValue, Lends,
    Reader, Sequence, SliceReader, decode_sequence, field_refs,
};
use der_asn1::{Described, Implicit, IntRef, IntegerIn, Item, LawfulItem, Optional};
use std::alloc::Global;

/// How far the time of a timestamp may be off: the sum of the three fields (RFC 3161, 2.4.2),
/// borrowed from the input. An absent field counts as 0.
#[derive(Clone, Copy, Debug, Drop, PartialEq, Eq)]
pub struct Accuracy<'a> {
    /// The seconds, if present.
    pub seconds: Optional<IntRef<'a>>,
    /// The milliseconds, from 1 to 999, if present.
    pub millis: Optional<Implicit<IntegerIn<1, 999>, 0>>,
    /// The microseconds, from 1 to 999, if present.
    pub micros: Optional<Implicit<IntegerIn<1, 999>, 1>>,
}

/// The fields of [`Accuracy`] as one type, in the order in which they are encoded.
pub type AccuracyFields<'a> = (
    Optional<IntRef<'a>>,
    Optional<Implicit<IntegerIn<1, 999>, 0>>,
    Optional<Implicit<IntegerIn<1, 999>, 1>>,
);

impl<'a> FromFields<AccuracyFields<'a>> for Accuracy<'a> {
    ghost fields = { λ v. (v.seconds, v.millis, v.micros) };

    fn from_fields(fields: AccuracyFields<'a>) -> Self {
        let (seconds, millis, micros) = fields;
        Accuracy {
            seconds,
            millis,
            micros,
        }
    }
}

impl<'a> Sequence for Accuracy<'a> {
    ghost meaning = { sequence (three_fields (optional (alternative
        ⟦<IntRef<'a> as Described>⟧.element)) (optional (alternative
        ⟦<Implicit<IntegerIn<1, 999>, 0> as Described>⟧.element)) (optional (alternative
        ⟦<Implicit<IntegerIn<1, 999>, 1> as Described>⟧.element)))
        ⟦<Accuracy<'a> as FromFields<AccuracyFields<'a>>>⟧.fields };

    ghost fits = { (refl, refl) };
}

/// Decodes the fields, first to last. The errors are those that [`Sequence`] lists.
impl<'a, R: Lends<Borrowed = &'a [u8]>> DecodeValue<R> for Accuracy<'a> {
    type Error = Error;

    ghost decode_value_answers = { λ h s result t.
        ⟦<AccuracyFields<'a> as Decode<SliceReader<'a>>>⟧.decode_answers s (map_ok
        ⟦<Accuracy<'a> as FromFields<AccuracyFields<'a>>>⟧.fields result) t };

    fn decode_value(alloc: Global, reader: &mut R, header: Header) -> Result<Self, Error>
    where
        R: Reader,
    {
        decode_sequence::<R, AccuracyFields<'a>, Self>(alloc, reader, header)
    }
}

impl<'a> IsValue for Accuracy<'a> {
    fn is_value(&self) {
        if let Some(value) = &self.seconds.0 {
            value.is_value();
        }
        if let Some(value) = &self.millis.0 {
            value.is_value();
        }
        if let Some(value) = &self.micros.0 {
            value.is_value();
        }
    }
}

/// Writes the fields, first to last. The errors are those that [`Sequence`] lists.
impl<'a> HasFields for Accuracy<'a> {
    ghost fields_size = { λ v. ⟦<AccuracyFields<'a> as Encode>⟧.size
        (⟦<Accuracy<'a> as FromFields<AccuracyFields<'a>>>⟧.fields v) };

    ghost fields_answers = { λ v. ⟦<AccuracyFields<'a> as Encode>⟧.encode_answers
        (⟦<Accuracy<'a> as FromFields<AccuracyFields<'a>>>⟧.fields v) };

    fn call_fields<S, C: FieldsCall<S>>(
        &self,
        call: &C,
        state: &mut S,
        buf: &mut [u8],
    ) -> C::Output {
        call.call(&field_refs!(self, (seconds, millis, micros)), state, buf)
    }
}

impl<'a> Item for Accuracy<'a> {
    ghost item = { sequence_item ⟦<Accuracy<'a> as Described>⟧.element };
}

impl<'a> LawfulItem for Accuracy<'a> {
    ghost is_lawful_item = { is_lawful_item ⟦<Accuracy<'a> as Described>⟧.element refl };
}
