//! Written by asn1_compile from the module Lightweight-Directory-Access-Protocol-V3: change the module instead.
//!
//! AttributeValueAssertion.
ghost use Rattle.std.specs.Prelude.{◌≡◌};
ghost use Rattle.std.proofs.Common.{refl};
ghost use Rattle.der.specs.Prelude.{map_ok};
ghost use Rattle.der_asn1.specs.Meaning.{alternative, field, is_lawful_item, sequence, sequence_item, two_fields};

use crate::asn1::assertion_value::AssertionValue;
use crate::asn1::attribute_description::AttributeDescription;
use der::{
    Decode, DecodeValue, Encode, Error, FieldsCall, FromFields, HasFields, Header, IsValue, Lends,
    Reader, Sequence, SliceReader, decode_sequence, field_refs,
};
use der_asn1::{Described, Item, LawfulItem};
use std::alloc::Global;

/// An attribute, and a value that its values are compared with (RFC 4511, 4.1.6).
#[derive(Clone, Copy, Debug, Drop, PartialEq, Eq)]
pub struct AttributeValueAssertion<'a> {
    /// The type of the attribute.
    pub attribute_desc: AttributeDescription<'a>,
    /// The value to compare with.
    pub assertion_value: AssertionValue<'a>,
}

/// The fields of [`AttributeValueAssertion`] as one type, in the order in which they are encoded.
pub type AttributeValueAssertionFields<'a> = (AttributeDescription<'a>, AssertionValue<'a>);

impl<'a> FromFields<AttributeValueAssertionFields<'a>> for AttributeValueAssertion<'a> {
    ghost fields = { λ v. (v.attribute_desc, v.assertion_value) };

    fn from_fields(fields: AttributeValueAssertionFields<'a>) -> Self {
        let (attribute_desc, assertion_value) = fields;
        AttributeValueAssertion {
            attribute_desc,
            assertion_value,
        }
    }
}

impl<'a> Sequence for AttributeValueAssertion<'a> {
    ghost meaning = { sequence (two_fields (field (alternative
        ⟦<AttributeDescription<'a> as Described>⟧.element)) (field (alternative
        ⟦<AssertionValue<'a> as Described>⟧.element)))
        ⟦<AttributeValueAssertion<'a> as FromFields<AttributeValueAssertionFields<'a>>>⟧.fields };

    ghost fits = { (refl, refl) };
}

/// Decodes the fields, first to last. The errors are those that [`Sequence`] lists.
impl<'a, R: Lends<Borrowed = &'a [u8]>> DecodeValue<R> for AttributeValueAssertion<'a> {
    type Error = Error;

    ghost decode_value_answers = { λ h s result t.
        ⟦<AttributeValueAssertionFields<'a> as Decode<SliceReader<'a>>>⟧.decode_answers s (map_ok
        ⟦<AttributeValueAssertion<'a> as FromFields<AttributeValueAssertionFields<'a>>>⟧.fields result) t };

    fn decode_value(alloc: Global, reader: &mut R, header: Header) -> Result<Self, Error>
    where
        R: Reader,
    {
        decode_sequence::<R, AttributeValueAssertionFields<'a>, Self>(alloc, reader, header)
    }
}

impl<'a> IsValue for AttributeValueAssertion<'a> {
    fn is_value(&self) {
        self.attribute_desc.is_value();
        self.assertion_value.is_value();
    }
}

/// Writes the fields, first to last. The errors are those that [`Sequence`] lists.
impl<'a> HasFields for AttributeValueAssertion<'a> {
    ghost fields_size = { λ v. ⟦<AttributeValueAssertionFields<'a> as Encode>⟧.size
        (⟦<AttributeValueAssertion<'a> as FromFields<AttributeValueAssertionFields<'a>>>⟧.fields v) };

    ghost fields_answers = { λ v. ⟦<AttributeValueAssertionFields<'a> as Encode>⟧.encode_answers
        (⟦<AttributeValueAssertion<'a> as FromFields<AttributeValueAssertionFields<'a>>>⟧.fields v) };

    fn call_fields<S, C: FieldsCall<S>>(
        &self,
        call: &C,
        state: &mut S,
        buf: &mut [u8],
    ) -> C::Output {
        call.call(
            &field_refs!(self, (attribute_desc, assertion_value)),
            state,
            buf,
        )
    }
}

impl<'a> Item for AttributeValueAssertion<'a> {
    ghost item = { sequence_item ⟦<AttributeValueAssertion<'a> as Described>⟧.element };
}

impl<'a> LawfulItem for AttributeValueAssertion<'a> {
    ghost is_lawful_item = { is_lawful_item
        ⟦<AttributeValueAssertion<'a> as Described>⟧.element refl };
}
