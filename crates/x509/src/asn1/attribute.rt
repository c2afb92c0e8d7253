//! Written by asn1_compile from the module X509: change the module instead.
//!
//! Attribute.
ghost use Rattle.std.specs.Prelude.{◌≡◌};
ghost use Rattle.std.proofs.Common.{refl};
ghost use Rattle.der.specs.Prelude.{map_ok};
ghost use Rattle.der_asn1.specs.Meaning.{alternative, field, is_lawful_item, sequence, sequence_item, two_fields};

use crate::asn1::attribute_values::AttributeValues;
use der::{
    Decode, DecodeValue, Encode, Error, FieldsCall, FromFields, HasFields, Header, IsValue, Lends,
    Reader, Sequence, SliceReader, decode_sequence, field_refs,
};
use der_asn1::{Described, Item, LawfulItem, ObjectIdentifierRef};
use std::alloc::Global;

/// An attribute with its values (RFC 2986, 4.1; RFC 5280, 4.2.1.8), borrowed from the input.
#[derive(Clone, Copy, Debug, Drop, PartialEq, Eq)]
pub struct Attribute<'a> {
    /// The type of the attribute, as an object identifier.
    pub oid: ObjectIdentifierRef<'a>,
    /// The values of the attribute, of any type.
    pub values: AttributeValues<'a>,
}

/// The fields of [`Attribute`] as one type, in the order in which they are encoded.
pub type AttributeFields<'a> = (ObjectIdentifierRef<'a>, AttributeValues<'a>);

impl<'a> FromFields<AttributeFields<'a>> for Attribute<'a> {
    ghost fields = { λ v. (v.oid, v.values) };

    fn from_fields(fields: AttributeFields<'a>) -> Self {
        let (oid, values) = fields;
        Attribute { oid, values }
    }
}

impl<'a> Sequence for Attribute<'a> {
    ghost meaning = { sequence (two_fields (field (alternative
        ⟦<ObjectIdentifierRef<'a> as Described>⟧.element)) (field (alternative
        ⟦<AttributeValues<'a> as Described>⟧.element)))
        ⟦<Attribute<'a> as FromFields<AttributeFields<'a>>>⟧.fields };

    ghost fits = { (refl, refl) };
}

/// Decodes the fields, first to last. The errors are those that [`Sequence`] lists.
impl<'a, R: Lends<Borrowed = &'a [u8]>> DecodeValue<R> for Attribute<'a> {
    type Error = Error;

    ghost decode_value_answers = { λ h s result t.
        ⟦<AttributeFields<'a> as Decode<SliceReader<'a>>>⟧.decode_answers s (map_ok
        ⟦<Attribute<'a> as FromFields<AttributeFields<'a>>>⟧.fields result) t };

    fn decode_value(alloc: Global, reader: &mut R, header: Header) -> Result<Self, Error>
    where
        R: Reader,
    {
        decode_sequence::<R, AttributeFields<'a>, Self>(alloc, reader, header)
    }
}

impl<'a> IsValue for Attribute<'a> {
    fn is_value(&self) {
        self.oid.is_value();
        self.values.is_value();
    }
}

/// Writes the fields, first to last. The errors are those that [`Sequence`] lists.
impl<'a> HasFields for Attribute<'a> {
    ghost fields_size = { λ v. ⟦<AttributeFields<'a> as Encode>⟧.size
        (⟦<Attribute<'a> as FromFields<AttributeFields<'a>>>⟧.fields v) };

    ghost fields_answers = { λ v. ⟦<AttributeFields<'a> as Encode>⟧.encode_answers
        (⟦<Attribute<'a> as FromFields<AttributeFields<'a>>>⟧.fields v) };

    fn call_fields<S, C: FieldsCall<S>>(
        &self,
        call: &C,
        state: &mut S,
        buf: &mut [u8],
    ) -> C::Output {
        call.call(&field_refs!(self, (oid, values)), state, buf)
    }
}

impl<'a> Item for Attribute<'a> {
    ghost item = { sequence_item ⟦<Attribute<'a> as Described>⟧.element };
}

impl<'a> LawfulItem for Attribute<'a> {
    ghost is_lawful_item = { is_lawful_item ⟦<Attribute<'a> as Described>⟧.element refl };
}
