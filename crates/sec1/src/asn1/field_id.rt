//! Written by asn1_compile from the module SEC1: change the module instead.
//!
//! FieldId.
ghost use Rattle.std.specs.Prelude.{◌≡◌};
ghost use Rattle.std.proofs.Common.{refl};
ghost use Rattle.der.specs.Prelude.{map_ok};
ghost use Rattle.der_asn1.specs.Meaning.{alternative, any_element, field, is_lawful_item, sequence, sequence_item, two_fields};

use der::{
    Decode, DecodeValue, Encode, Error, FieldsCall, FromFields, HasFields, Header, IsValue, Lends,
    Reader, Sequence, SliceReader, decode_sequence, field_refs,
};
use der_asn1::{AnyRef, Described, Item, LawfulItem, ObjectIdentifierRef};
use std::alloc::Global;

/// A finite field (SEC 1, C.1; RFC 3279, 2.3.5), borrowed from the input.
#[derive(Clone, Copy, Debug, Drop, PartialEq, Eq)]
pub struct FieldId<'a> {
    /// The type of the field, such as prime-field.
    pub field_type: ObjectIdentifierRef<'a>,
    /// The parameters of the field: a Prime-p or a Characteristic-two, as the type of the field
    /// says. Decoding does not check this.
    pub parameters: AnyRef<'a>,
}

/// The fields of [`FieldId`] as one type, in the order in which they are encoded.
pub type FieldIdFields<'a> = (ObjectIdentifierRef<'a>, AnyRef<'a>);

impl<'a> FromFields<FieldIdFields<'a>> for FieldId<'a> {
    ghost fields = { λ v. (v.field_type, v.parameters) };

    fn from_fields(fields: FieldIdFields<'a>) -> Self {
        let (field_type, parameters) = fields;
        FieldId {
            field_type,
            parameters,
        }
    }
}

impl<'a> Sequence for FieldId<'a> {
    ghost meaning = { sequence (two_fields (field (alternative
        ⟦<ObjectIdentifierRef<'a> as Described>⟧.element)) (field any_element))
        ⟦<FieldId<'a> as FromFields<FieldIdFields<'a>>>⟧.fields };

    ghost fits = { (refl, refl) };
}

/// Decodes the fields, first to last. The errors are those that [`Sequence`] lists.
impl<'a, R: Lends<Borrowed = &'a [u8]>> DecodeValue<R> for FieldId<'a> {
    type Error = Error;

    ghost decode_value_answers = { λ h s result t.
        ⟦<FieldIdFields<'a> as Decode<SliceReader<'a>>>⟧.decode_answers s (map_ok
        ⟦<FieldId<'a> as FromFields<FieldIdFields<'a>>>⟧.fields result) t };

    fn decode_value(alloc: Global, reader: &mut R, header: Header) -> Result<Self, Error>
    where
        R: Reader,
    {
        decode_sequence::<R, FieldIdFields<'a>, Self>(alloc, reader, header)
    }
}

impl<'a> IsValue for FieldId<'a> {
    fn is_value(&self) {
        self.field_type.is_value();
        self.parameters.is_value();
    }
}

/// Writes the fields, first to last. The errors are those that [`Sequence`] lists.
impl<'a> HasFields for FieldId<'a> {
    ghost fields_size = { λ v. ⟦<FieldIdFields<'a> as Encode>⟧.size
        (⟦<FieldId<'a> as FromFields<FieldIdFields<'a>>>⟧.fields v) };

    ghost fields_answers = { λ v. ⟦<FieldIdFields<'a> as Encode>⟧.encode_answers
        (⟦<FieldId<'a> as FromFields<FieldIdFields<'a>>>⟧.fields v) };

    fn call_fields<S, C: FieldsCall<S>>(
        &self,
        call: &C,
        state: &mut S,
        buf: &mut [u8],
    ) -> C::Output {
        call.call(&field_refs!(self, (field_type, parameters)), state, buf)
    }
}

impl<'a> Item for FieldId<'a> {
    ghost item = { sequence_item ⟦<FieldId<'a> as Described>⟧.element };
}

impl<'a> LawfulItem for FieldId<'a> {
    ghost is_lawful_item = { is_lawful_item ⟦<FieldId<'a> as Described>⟧.element refl };
}
