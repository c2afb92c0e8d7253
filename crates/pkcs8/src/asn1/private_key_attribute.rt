//! Written by asn1_compile from the module PrivateKeys: change the module instead.
//!
//! PrivateKeyAttribute.
ghost use Rattle.std.specs.Prelude.{◌≡◌};
ghost use Rattle.std.proofs.Common.{refl};
ghost use Rattle.der.specs.Prelude.{map_ok};
ghost use Rattle.der_asn1.specs.Meaning.{alternative, field, is_lawful_item, sequence, sequence_item, two_fields};

use der::{
    Decode, DecodeValue, Encode, Error, FieldsCall, FromFields, HasFields, Header, IsValue, Lends,
    Reader, Sequence, SliceReader, decode_sequence, field_refs,
};
use der_asn1::{AnyRef, Described, Item, LawfulItem, ObjectIdentifierRef, SetOf};
use std::alloc::Global;

/// An attribute of a private key (RFC 5652, 5.3), borrowed from the input.
#[derive(Clone, Copy, Debug, Drop, PartialEq, Eq)]
pub struct PrivateKeyAttribute<'a> {
    /// The type of the attribute, as an object identifier.
    pub oid: ObjectIdentifierRef<'a>,
    /// The values of the attribute, of any type, in ascending order of their encodings. Their
    /// contents are not checked.
    pub attr_values: SetOf<'a, AnyRef<'a>>,
}

/// The fields of [`PrivateKeyAttribute`] as one type, in the order in which they are encoded.
pub type PrivateKeyAttributeFields<'a> = (ObjectIdentifierRef<'a>, SetOf<'a, AnyRef<'a>>);

impl<'a> FromFields<PrivateKeyAttributeFields<'a>> for PrivateKeyAttribute<'a> {
    ghost fields = { λ v. (v.oid, v.attr_values) };

    fn from_fields(fields: PrivateKeyAttributeFields<'a>) -> Self {
        let (oid, attr_values) = fields;
        PrivateKeyAttribute { oid, attr_values }
    }
}

impl<'a> Sequence for PrivateKeyAttribute<'a> {
    ghost meaning = { sequence (two_fields (field (alternative
        ⟦<ObjectIdentifierRef<'a> as Described>⟧.element)) (field (alternative
        ⟦<SetOf<'a, AnyRef<'a>> as Described>⟧.element)))
        ⟦<PrivateKeyAttribute<'a> as FromFields<PrivateKeyAttributeFields<'a>>>⟧.fields };

    ghost fits = { (refl, refl) };
}

/// Decodes the fields, first to last. The errors are those that [`Sequence`] lists.
impl<'a, R: Lends<Borrowed = &'a [u8]>> DecodeValue<R> for PrivateKeyAttribute<'a> {
    type Error = Error;

    ghost decode_value_answers = { λ h s result t.
        ⟦<PrivateKeyAttributeFields<'a> as Decode<SliceReader<'a>>>⟧.decode_answers s (map_ok
        ⟦<PrivateKeyAttribute<'a> as FromFields<PrivateKeyAttributeFields<'a>>>⟧.fields result) t };

    fn decode_value(alloc: Global, reader: &mut R, header: Header) -> Result<Self, Error>
    where
        R: Reader,
    {
        decode_sequence::<R, PrivateKeyAttributeFields<'a>, Self>(alloc, reader, header)
    }
}

impl<'a> IsValue for PrivateKeyAttribute<'a> {
    fn is_value(&self) {
        self.oid.is_value();
        self.attr_values.is_value();
    }
}

/// Writes the fields, first to last. The errors are those that [`Sequence`] lists.
impl<'a> HasFields for PrivateKeyAttribute<'a> {
    ghost fields_size = { λ v. ⟦<PrivateKeyAttributeFields<'a> as Encode>⟧.size
        (⟦<PrivateKeyAttribute<'a> as FromFields<PrivateKeyAttributeFields<'a>>>⟧.fields v) };

    ghost fields_answers = { λ v. ⟦<PrivateKeyAttributeFields<'a> as Encode>⟧.encode_answers
        (⟦<PrivateKeyAttribute<'a> as FromFields<PrivateKeyAttributeFields<'a>>>⟧.fields v) };

    fn call_fields<S, C: FieldsCall<S>>(
        &self,
        call: &C,
        state: &mut S,
        buf: &mut [u8],
    ) -> C::Output {
        call.call(&field_refs!(self, (oid, attr_values)), state, buf)
    }
}

impl<'a> Item for PrivateKeyAttribute<'a> {
    ghost item = { sequence_item ⟦<PrivateKeyAttribute<'a> as Described>⟧.element };
}

impl<'a> LawfulItem for PrivateKeyAttribute<'a> {
    ghost is_lawful_item = { is_lawful_item ⟦<PrivateKeyAttribute<'a> as Described>⟧.element refl };
}
