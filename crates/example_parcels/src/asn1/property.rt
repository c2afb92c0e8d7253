//! Written by asn1_compile from the module Parcels: change the module instead.
//!
//! Property.
ghost use Rattle.std.specs.Prelude.{◌≡◌};
ghost use Rattle.std.proofs.Common.{refl};
ghost use Rattle.der.specs.Prelude.{map_ok};
ghost use Rattle.der_asn1.specs.Meaning.{alternative, field, is_lawful_item, sequence, sequence_item};
ghost use Rattle.der_asn1.specs.TupleFields.{three_fields};

use crate::asn1::property_known::PropertyKnown;
use der::{
    Decode, DecodeValue, Encode, Error, FieldsCall, FromFields, HasFields, Header, IsValue, Lends,
    Reader, Sequence, SliceReader, decode_sequence, field_refs,
};
use der_asn1::{
    Additions, Described, DescribedField, ExplicitAny, Item, LawfulItem, ObjectIdentifierRef,
    Private,
};
use std::alloc::Global;

/// A property of a parcel. The OBJECT IDENTIFIER says of which kind it is.
#[derive(Clone, Copy, Debug, Drop, PartialEq, Eq)]
pub struct Property<'a> {
    /// The kind of the property.
    pub kind: ObjectIdentifierRef<'a>,
    /// The value of the property, of a type that its kind determines.
    pub value: Private<ExplicitAny<'a, 1>>,
    /// The fields that the ASN.1 module does not have, as they were read.
    pub additions: Additions<'a, PropertyKnown>,
}

/// The fields of [`Property`] as one type, in the order in which they are encoded.
pub type PropertyFields<'a> = (
    ObjectIdentifierRef<'a>,
    Private<ExplicitAny<'a, 1>>,
    Additions<'a, PropertyKnown>,
);

impl<'a> FromFields<PropertyFields<'a>> for Property<'a> {
    ghost fields = { λ v. (v.kind, v.value, v.additions) };

    fn from_fields(fields: PropertyFields<'a>) -> Self {
        let (kind, value, additions) = fields;
        Property {
            kind,
            value,
            additions,
        }
    }
}

impl<'a> Sequence for Property<'a> {
    ghost meaning = { sequence (three_fields (field (alternative
        ⟦<ObjectIdentifierRef<'a> as Described>⟧.element)) (field (alternative
        ⟦<Private<ExplicitAny<'a, 1>> as Described>⟧.element))
        ⟦<Additions<'a, PropertyKnown> as DescribedField>⟧.field)
        ⟦<Property<'a> as FromFields<PropertyFields<'a>>>⟧.fields };

    ghost fits = { (refl, refl) };
}

/// Decodes the fields, first to last. The errors are those that [`Sequence`] lists.
impl<'a, R: Lends<Borrowed = &'a [u8]>> DecodeValue<R> for Property<'a> {
    type Error = Error;

    ghost decode_value_answers = { λ h s result t.
        ⟦<PropertyFields<'a> as Decode<SliceReader<'a>>>⟧.decode_answers s (map_ok
        ⟦<Property<'a> as FromFields<PropertyFields<'a>>>⟧.fields result) t };

    fn decode_value(alloc: Global, reader: &mut R, header: Header) -> Result<Self, Error>
    where
        R: Reader,
    {
        decode_sequence::<R, PropertyFields<'a>, Self>(alloc, reader, header)
    }
}

impl<'a> IsValue for Property<'a> {
    fn is_value(&self) {
        self.kind.is_value();
        self.value.is_value();
        self.additions.is_value();
    }
}

/// Writes the fields, first to last. The errors are those that [`Sequence`] lists.
impl<'a> HasFields for Property<'a> {
    ghost fields_size = { λ v. ⟦<PropertyFields<'a> as Encode>⟧.size
        (⟦<Property<'a> as FromFields<PropertyFields<'a>>>⟧.fields v) };

    ghost fields_answers = { λ v. ⟦<PropertyFields<'a> as Encode>⟧.encode_answers
        (⟦<Property<'a> as FromFields<PropertyFields<'a>>>⟧.fields v) };

    fn call_fields<S, C: FieldsCall<S>>(
        &self,
        call: &C,
        state: &mut S,
        buf: &mut [u8],
    ) -> C::Output {
        call.call(&field_refs!(self, (kind, value, additions)), state, buf)
    }
}

impl<'a> Item for Property<'a> {
    ghost item = { sequence_item ⟦<Property<'a> as Described>⟧.element };
}

impl<'a> LawfulItem for Property<'a> {
    ghost is_lawful_item = { is_lawful_item ⟦<Property<'a> as Described>⟧.element refl };
}
