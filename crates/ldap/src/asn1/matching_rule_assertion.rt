//! Written by asn1_compile from the module Lightweight-Directory-Access-Protocol-V3: change the module instead.
//!
//! MatchingRuleAssertion.
ghost use Rattle.std.specs.Prelude.{◌≡◌};
ghost use Rattle.std.proofs.Common.{refl};
ghost use Rattle.der.specs.Prelude.{map_ok};
ghost use Rattle.der_asn1.specs.Meaning.{alternative, defaulted, field, is_lawful_item, optional, sequence, sequence_item};
ghost use Rattle.der_asn1.specs.TupleFields.{four_fields};

use crate::asn1::assertion_value::AssertionValue;
use crate::asn1::attribute_description::AttributeDescription;
use crate::asn1::matching_rule_id::MatchingRuleId;
use der::{
    Decode, DecodeValue, Encode, Error, FieldsCall, FromFields, HasFields, Header, IsValue, Lends,
    Reader, Sequence, SliceReader, decode_sequence, field_refs,
};
use der_asn1::{
    BooleanRef, DefaultValue, Defaulted, Described, Implicit, Item, LawfulItem, Optional,
};
use std::alloc::Global;

/// What a matching rule compares in an entry (RFC 4511, 4.5.1.7.7).
#[derive(Clone, Copy, Debug, Drop, PartialEq, Eq)]
pub struct MatchingRuleAssertion<'a> {
    /// The matching rule, if present.
    pub matching_rule: Optional<Implicit<MatchingRuleId<'a>, 1>>,
    /// The type of the attribute whose values are compared, if present.
    pub type_: Optional<Implicit<AttributeDescription<'a>, 2>>,
    /// The value to compare with.
    pub match_value: Implicit<AssertionValue<'a>, 3>,
    /// Whether the attributes of the entry's name are compared too. The default is false.
    pub dn_attributes: Defaulted<Implicit<BooleanRef<'a>, 4>>,
}

/// The fields of [`MatchingRuleAssertion`] as one type, in the order in which they are encoded.
pub type MatchingRuleAssertionFields<'a> = (
    Optional<Implicit<MatchingRuleId<'a>, 1>>,
    Optional<Implicit<AttributeDescription<'a>, 2>>,
    Implicit<AssertionValue<'a>, 3>,
    Defaulted<Implicit<BooleanRef<'a>, 4>>,
);

impl<'a> FromFields<MatchingRuleAssertionFields<'a>> for MatchingRuleAssertion<'a> {
    ghost fields = { λ v. (v.matching_rule, v.type_, v.match_value, v.dn_attributes) };

    fn from_fields(fields: MatchingRuleAssertionFields<'a>) -> Self {
        let (matching_rule, type_, match_value, dn_attributes) = fields;
        MatchingRuleAssertion {
            matching_rule,
            type_,
            match_value,
            dn_attributes,
        }
    }
}

impl<'a> Sequence for MatchingRuleAssertion<'a> {
    ghost meaning = { sequence (four_fields (optional (alternative
        ⟦<Implicit<MatchingRuleId<'a>, 1> as Described>⟧.element)) (optional (alternative
        ⟦<Implicit<AttributeDescription<'a>, 2> as Described>⟧.element)) (field (alternative
        ⟦<Implicit<AssertionValue<'a>, 3> as Described>⟧.element)) (defaulted
        ⟦<Implicit<BooleanRef<'a>, 4> as DefaultValue>⟧.is_default (alternative
        ⟦<Implicit<BooleanRef<'a>, 4> as Described>⟧.element)))
        ⟦<MatchingRuleAssertion<'a> as FromFields<MatchingRuleAssertionFields<'a>>>⟧.fields };

    ghost fits = { (refl, refl) };
}

/// Decodes the fields, first to last. The errors are those that [`Sequence`] lists.
impl<'a, R: Lends<Borrowed = &'a [u8]>> DecodeValue<R> for MatchingRuleAssertion<'a> {
    type Error = Error;

    ghost decode_value_answers = { λ h s result t.
        ⟦<MatchingRuleAssertionFields<'a> as Decode<SliceReader<'a>>>⟧.decode_answers s (map_ok
        ⟦<MatchingRuleAssertion<'a> as FromFields<MatchingRuleAssertionFields<'a>>>⟧.fields result) t };

    fn decode_value(alloc: Global, reader: &mut R, header: Header) -> Result<Self, Error>
    where
        R: Reader,
    {
        decode_sequence::<R, MatchingRuleAssertionFields<'a>, Self>(alloc, reader, header)
    }
}

impl<'a> IsValue for MatchingRuleAssertion<'a> {
    fn is_value(&self) {
        if let Some(value) = &self.matching_rule.0 {
            value.is_value();
        }
        if let Some(value) = &self.type_.0 {
            value.is_value();
        }
        self.match_value.is_value();
        self.dn_attributes.0.is_value();
    }
}

/// Writes the fields, first to last. The errors are those that [`Sequence`] lists.
impl<'a> HasFields for MatchingRuleAssertion<'a> {
    ghost fields_size = { λ v. ⟦<MatchingRuleAssertionFields<'a> as Encode>⟧.size
        (⟦<MatchingRuleAssertion<'a> as FromFields<MatchingRuleAssertionFields<'a>>>⟧.fields v) };

    ghost fields_answers = { λ v. ⟦<MatchingRuleAssertionFields<'a> as Encode>⟧.encode_answers
        (⟦<MatchingRuleAssertion<'a> as FromFields<MatchingRuleAssertionFields<'a>>>⟧.fields v) };

    fn call_fields<S, C: FieldsCall<S>>(
        &self,
        call: &C,
        state: &mut S,
        buf: &mut [u8],
    ) -> C::Output {
        call.call(
            &field_refs!(self, (matching_rule, type_, match_value, dn_attributes)),
            state,
            buf,
        )
    }
}

impl<'a> Item for MatchingRuleAssertion<'a> {
    ghost item = { sequence_item ⟦<MatchingRuleAssertion<'a> as Described>⟧.element };
}

impl<'a> LawfulItem for MatchingRuleAssertion<'a> {
    ghost is_lawful_item = { is_lawful_item
        ⟦<MatchingRuleAssertion<'a> as Described>⟧.element refl };
}
