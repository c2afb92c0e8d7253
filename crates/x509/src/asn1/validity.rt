//! Written by asn1_compile from the module X509: change the module instead.
//!
//! Validity.
ghost use Rattle.std.specs.Prelude.{◌≡◌};
ghost use Rattle.std.proofs.Common.{refl};
ghost use Rattle.der.specs.Prelude.{map_ok};
ghost use Rattle.der_asn1.specs.Meaning.{alternative, field, is_lawful_item, sequence, sequence_item, two_fields};

use crate::asn1::time::Time;
use der::{
    Decode, DecodeValue, Encode, Error, FieldsCall, FromFields, HasFields, Header, IsValue, Lends,
    Reader, Sequence, SliceReader, decode_sequence, field_refs,
};
use der_asn1::{Described, DescribedChoice, Item, LawfulItem};
use std::alloc::Global;

/// The period in which a certificate is valid (RFC 5280, 4.1.2.5). It includes both times.
#[derive(Clone, Copy, Debug, Drop, PartialEq, Eq)]
pub struct Validity {
    /// The first time at which the certificate is valid.
    pub not_before: Time,
    /// The last time at which the certificate is valid.
    pub not_after: Time,
}

/// The fields of [`Validity`] as one type, in the order in which they are encoded.
pub type ValidityFields = (Time, Time);

impl FromFields<ValidityFields> for Validity {
    ghost fields = { λ v. (v.not_before, v.not_after) };

    fn from_fields(fields: ValidityFields) -> Self {
        let (not_before, not_after) = fields;
        Validity {
            not_before,
            not_after,
        }
    }
}

impl Sequence for Validity {
    ghost meaning = { sequence (two_fields (field ⟦<Time as DescribedChoice>⟧.alternative) (field
        ⟦<Time as DescribedChoice>⟧.alternative))
        ⟦<Validity as FromFields<ValidityFields>>⟧.fields };

    ghost fits = { (refl, refl) };
}

/// Decodes the fields, first to last. The errors are those that [`Sequence`] lists.
impl<'a, R: Lends<Borrowed = &'a [u8]>> DecodeValue<R> for Validity {
    type Error = Error;

    ghost decode_value_answers = { λ h s result t.
        ⟦<ValidityFields as Decode<SliceReader<'a>>>⟧.decode_answers s (map_ok
        ⟦<Validity as FromFields<ValidityFields>>⟧.fields result) t };

    fn decode_value(alloc: Global, reader: &mut R, header: Header) -> Result<Self, Error>
    where
        R: Reader,
    {
        decode_sequence::<R, ValidityFields, Self>(alloc, reader, header)
    }
}

impl IsValue for Validity {
    fn is_value(&self) {
        match &self.not_before {
            Time::UtcTime(value) => value.is_value(),
            Time::GeneralTime(value) => value.is_value(),
        }
        match &self.not_after {
            Time::UtcTime(value) => value.is_value(),
            Time::GeneralTime(value) => value.is_value(),
        }
    }
}

/// Writes the fields, first to last. The errors are those that [`Sequence`] lists.
impl HasFields for Validity {
    ghost fields_size = { λ v. ⟦<ValidityFields as Encode>⟧.size
        (⟦<Validity as FromFields<ValidityFields>>⟧.fields v) };

    ghost fields_answers = { λ v. ⟦<ValidityFields as Encode>⟧.encode_answers
        (⟦<Validity as FromFields<ValidityFields>>⟧.fields v) };

    fn call_fields<S, C: FieldsCall<S>>(
        &self,
        call: &C,
        state: &mut S,
        buf: &mut [u8],
    ) -> C::Output {
        call.call(&field_refs!(self, (not_before, not_after)), state, buf)
    }
}

impl Item for Validity {
    ghost item = { sequence_item ⟦<Validity as Described>⟧.element };
}

impl LawfulItem for Validity {
    ghost is_lawful_item = { is_lawful_item ⟦<Validity as Described>⟧.element refl };
}
