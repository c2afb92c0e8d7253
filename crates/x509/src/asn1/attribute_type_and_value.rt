//! Written by asn1_compile from the module X509: change the module instead.
//!
//! AttributeTypeAndValue.
ghost use Rattle.std.specs.Prelude.{◌≡◌};
ghost use Rattle.std.proofs.Common.{refl};
ghost use Rattle.der.specs.Prelude.{map_ok};
ghost use Rattle.der_asn1.specs.Meaning.{alternative, any_element, field, is_lawful_item, sequence, sequence_item, two_fields};

use der::{
    Decode, DecodeValue, Encode, Error, FieldsCall, FromFields, HasFields, Header, IsValue, Lends,
    Reader, Sequence, SliceReader, decode_sequence, field_refs,
};
use der_asn1::{AnyRef, Described, Item, LawfulItem, ObjectIdentifierRef};
use std::alloc::Global;

/// An attribute of a name (RFC 5280, 4.1.2.4), borrowed from the input.
#[derive(Clone, Copy, Debug, Drop, PartialEq, Eq)]
pub struct AttributeTypeAndValue<'a> {
    /// The type of the attribute, as an object identifier.
    pub oid: ObjectIdentifierRef<'a>,
    /// The value of the attribute, of any type. Its contents are not checked.
    pub value: AnyRef<'a>,
}

/// The fields of [`AttributeTypeAndValue`] as one type, in the order in which they are encoded.
pub type AttributeTypeAndValueFields<'a> = (ObjectIdentifierRef<'a>, AnyRef<'a>);

impl<'a> FromFields<AttributeTypeAndValueFields<'a>> for AttributeTypeAndValue<'a> {
    ghost fields = { λ v. (v.oid, v.value) };

    fn from_fields(fields: AttributeTypeAndValueFields<'a>) -> Self {
        let (oid, value) = fields;
        AttributeTypeAndValue { oid, value }
    }
}

impl<'a> Sequence for AttributeTypeAndValue<'a> {
    ghost meaning = { sequence (two_fields (field (alternative
        ⟦<ObjectIdentifierRef<'a> as Described>⟧.element)) (field any_element))
        ⟦<AttributeTypeAndValue<'a> as FromFields<AttributeTypeAndValueFields<'a>>>⟧.fields };

    ghost fits = { (refl, refl) };
}

/// Decodes the fields, first to last. The errors are those that [`Sequence`] lists.
impl<'a, R: Lends<Borrowed = &'a [u8]>> DecodeValue<R> for AttributeTypeAndValue<'a> {
    type Error = Error;

    ghost decode_value_answers = { λ h s result t.
        ⟦<AttributeTypeAndValueFields<'a> as Decode<SliceReader<'a>>>⟧.decode_answers s (map_ok
        ⟦<AttributeTypeAndValue<'a> as FromFields<AttributeTypeAndValueFields<'a>>>⟧.fields result) t };

    fn decode_value(alloc: Global, reader: &mut R, header: Header) -> Result<Self, Error>
    where
        R: Reader,
    {
        decode_sequence::<R, AttributeTypeAndValueFields<'a>, Self>(alloc, reader, header)
    }
}

impl<'a> IsValue for AttributeTypeAndValue<'a> {
    fn is_value(&self) {
        self.oid.is_value();
        self.value.is_value();
    }
}

/// Writes the fields, first to last. The errors are those that [`Sequence`] lists.
impl<'a> HasFields for AttributeTypeAndValue<'a> {
    ghost fields_size = { λ v. ⟦<AttributeTypeAndValueFields<'a> as Encode>⟧.size
        (⟦<AttributeTypeAndValue<'a> as FromFields<AttributeTypeAndValueFields<'a>>>⟧.fields v) };

    ghost fields_answers = { λ v. ⟦<AttributeTypeAndValueFields<'a> as Encode>⟧.encode_answers
        (⟦<AttributeTypeAndValue<'a> as FromFields<AttributeTypeAndValueFields<'a>>>⟧.fields v) };

    fn call_fields<S, C: FieldsCall<S>>(
        &self,
        call: &C,
        state: &mut S,
        buf: &mut [u8],
    ) -> C::Output {
        call.call(&field_refs!(self, (oid, value)), state, buf)
    }
}

impl<'a> Item for AttributeTypeAndValue<'a> {
    ghost item = { sequence_item ⟦<AttributeTypeAndValue<'a> as Described>⟧.element };
}

impl<'a> LawfulItem for AttributeTypeAndValue<'a> {
    ghost is_lawful_item = { is_lawful_item
        ⟦<AttributeTypeAndValue<'a> as Described>⟧.element refl };
}
