//! Written by asn1_compile from the module SNMPv2-PDU: change the module instead.
//!
//! Pdu.
ghost use Rattle.std.specs.Prelude.{◌≡◌};
ghost use Rattle.std.proofs.Common.{refl};
ghost use Rattle.der.specs.Prelude.{map_ok};
ghost use Rattle.der_asn1.specs.Meaning.{alternative, field, is_lawful_item, sequence, sequence_item};
ghost use Rattle.der_asn1.specs.TupleFields.{four_fields};

use crate::asn1::var_bind_list::VarBindList;
use der::{
    Decode, DecodeValue, Encode, Error, FieldsCall, FromFields, HasFields, Header, IsValue, Lends,
    Reader, Sequence, SliceReader, decode_sequence, field_refs,
};
use der_asn1::{Described, IntRef, IntegerIn, Item, LawfulItem};
use std::alloc::Global;

/// The contents of a request or a response (RFC 3416, 3).
#[derive(Clone, Copy, Debug, Drop, PartialEq, Eq)]
pub struct Pdu<'a> {
    /// The number of the request, which the response repeats.
    pub request_id: IntRef<'a>,
    /// The error that a response reports; 0 if there is none.
    pub error_status: IntRef<'a>,
    /// Which of the variables caused the error, counted from 1; 0 if none did.
    pub error_index: IntegerIn<0, 2147483647>,
    /// The variables with their values.
    pub variable_bindings: VarBindList<'a>,
}

/// The fields of [`Pdu`] as one type, in the order in which they are encoded.
pub type PduFields<'a> = (
    IntRef<'a>,
    IntRef<'a>,
    IntegerIn<0, 2147483647>,
    VarBindList<'a>,
);

impl<'a> FromFields<PduFields<'a>> for Pdu<'a> {
    ghost fields = { λ v. (v.request_id, v.error_status, v.error_index, v.variable_bindings) };

    fn from_fields(fields: PduFields<'a>) -> Self {
        let (request_id, error_status, error_index, variable_bindings) = fields;
        Pdu {
            request_id,
            error_status,
            error_index,
            variable_bindings,
        }
    }
}

impl<'a> Sequence for Pdu<'a> {
    ghost meaning = { sequence (four_fields (field (alternative
        ⟦<IntRef<'a> as Described>⟧.element)) (field (alternative
        ⟦<IntRef<'a> as Described>⟧.element)) (field (alternative
        ⟦<IntegerIn<0, 2147483647> as Described>⟧.element)) (field (alternative
        ⟦<VarBindList<'a> as Described>⟧.element)))
        ⟦<Pdu<'a> as FromFields<PduFields<'a>>>⟧.fields };

    ghost fits = { (refl, refl) };
}

/// Decodes the fields, first to last. The errors are those that [`Sequence`] lists.
impl<'a, R: Lends<Borrowed = &'a [u8]>> DecodeValue<R> for Pdu<'a> {
    type Error = Error;

    ghost decode_value_answers = { λ h s result t.
        ⟦<PduFields<'a> as Decode<SliceReader<'a>>>⟧.decode_answers s (map_ok
        ⟦<Pdu<'a> as FromFields<PduFields<'a>>>⟧.fields result) t };

    fn decode_value(alloc: Global, reader: &mut R, header: Header) -> Result<Self, Error>
    where
        R: Reader,
    {
        decode_sequence::<R, PduFields<'a>, Self>(alloc, reader, header)
    }
}

impl<'a> IsValue for Pdu<'a> {
    fn is_value(&self) {
        self.request_id.is_value();
        self.error_status.is_value();
        self.error_index.is_value();
        self.variable_bindings.is_value();
    }
}

/// Writes the fields, first to last. The errors are those that [`Sequence`] lists.
impl<'a> HasFields for Pdu<'a> {
    ghost fields_size = { λ v. ⟦<PduFields<'a> as Encode>⟧.size
        (⟦<Pdu<'a> as FromFields<PduFields<'a>>>⟧.fields v) };

    ghost fields_answers = { λ v. ⟦<PduFields<'a> as Encode>⟧.encode_answers
        (⟦<Pdu<'a> as FromFields<PduFields<'a>>>⟧.fields v) };

    fn call_fields<S, C: FieldsCall<S>>(
        &self,
        call: &C,
        state: &mut S,
        buf: &mut [u8],
    ) -> C::Output {
        call.call(
            &field_refs!(
                self,
                (request_id, error_status, error_index, variable_bindings)
            ),
            state,
            buf,
        )
    }
}

impl<'a> Item for Pdu<'a> {
    ghost item = { sequence_item ⟦<Pdu<'a> as Described>⟧.element };
}

impl<'a> LawfulItem for Pdu<'a> {
    ghost is_lawful_item = { is_lawful_item ⟦<Pdu<'a> as Described>⟧.element refl };
}
