//! Written by asn1_compile from the module X509: change the module instead.
//!
//! PolicyInformation.
ghost use Rattle.std.specs.Prelude.{◌≡◌};
ghost use Rattle.std.proofs.Common.{refl};
ghost use Rattle.der.specs.Prelude.{map_ok};
ghost use Rattle.der_asn1.specs.Meaning.{alternative, field, is_lawful_item, optional, sequence, sequence_item, two_fields};

use crate::asn1::policy_qualifier_info::PolicyQualifierInfo;
use der::{
    Decode, DecodeValue, Encode, Error, FieldsCall, FromFields, HasFields, Header, IsValue, Lends,
    Reader, Sequence, SliceReader, decode_sequence, field_refs,
};
use der_asn1::{Described, Item, LawfulItem, ObjectIdentifierRef, Optional, SequenceOf};
use std::alloc::Global;

/// A policy with its qualifiers (RFC 5280, 4.2.1.4), borrowed from the input.
#[derive(Clone, Copy, Debug, Drop, PartialEq, Eq)]
pub struct PolicyInformation<'a> {
    /// The object identifier of the policy.
    pub policy_identifier: ObjectIdentifierRef<'a>,
    /// The qualifiers of the policy, if present.
    pub policy_qualifiers: Optional<SequenceOf<'a, PolicyQualifierInfo<'a>>>,
}

/// The fields of [`PolicyInformation`] as one type, in the order in which they are encoded.
pub type PolicyInformationFields<'a> = (
    ObjectIdentifierRef<'a>,
    Optional<SequenceOf<'a, PolicyQualifierInfo<'a>>>,
);

impl<'a> FromFields<PolicyInformationFields<'a>> for PolicyInformation<'a> {
    ghost fields = { λ v. (v.policy_identifier, v.policy_qualifiers) };

    fn from_fields(fields: PolicyInformationFields<'a>) -> Self {
        let (policy_identifier, policy_qualifiers) = fields;
        PolicyInformation {
            policy_identifier,
            policy_qualifiers,
        }
    }
}

impl<'a> Sequence for PolicyInformation<'a> {
    ghost meaning = { sequence (two_fields (field (alternative
        ⟦<ObjectIdentifierRef<'a> as Described>⟧.element)) (optional (alternative
        ⟦<SequenceOf<'a, PolicyQualifierInfo<'a>> as Described>⟧.element)))
        ⟦<PolicyInformation<'a> as FromFields<PolicyInformationFields<'a>>>⟧.fields };

    ghost fits = { (refl, refl) };
}

/// Decodes the fields, first to last. The errors are those that [`Sequence`] lists.
impl<'a, R: Lends<Borrowed = &'a [u8]>> DecodeValue<R> for PolicyInformation<'a> {
    type Error = Error;

    ghost decode_value_answers = { λ h s result t.
        ⟦<PolicyInformationFields<'a> as Decode<SliceReader<'a>>>⟧.decode_answers s (map_ok
        ⟦<PolicyInformation<'a> as FromFields<PolicyInformationFields<'a>>>⟧.fields result) t };

    fn decode_value(alloc: Global, reader: &mut R, header: Header) -> Result<Self, Error>
    where
        R: Reader,
    {
        decode_sequence::<R, PolicyInformationFields<'a>, Self>(alloc, reader, header)
    }
}

impl<'a> IsValue for PolicyInformation<'a> {
    fn is_value(&self) {
        self.policy_identifier.is_value();
        if let Some(value) = &self.policy_qualifiers.0 {
            value.is_value();
        }
    }
}

/// Writes the fields, first to last. The errors are those that [`Sequence`] lists.
impl<'a> HasFields for PolicyInformation<'a> {
    ghost fields_size = { λ v. ⟦<PolicyInformationFields<'a> as Encode>⟧.size
        (⟦<PolicyInformation<'a> as FromFields<PolicyInformationFields<'a>>>⟧.fields v) };

    ghost fields_answers = { λ v. ⟦<PolicyInformationFields<'a> as Encode>⟧.encode_answers
        (⟦<PolicyInformation<'a> as FromFields<PolicyInformationFields<'a>>>⟧.fields v) };

    fn call_fields<S, C: FieldsCall<S>>(
        &self,
        call: &C,
        state: &mut S,
        buf: &mut [u8],
    ) -> C::Output {
        call.call(
            &field_refs!(self, (policy_identifier, policy_qualifiers)),
            state,
            buf,
        )
    }
}

impl<'a> Item for PolicyInformation<'a> {
    ghost item = { sequence_item ⟦<PolicyInformation<'a> as Described>⟧.element };
}

impl<'a> LawfulItem for PolicyInformation<'a> {
    ghost is_lawful_item = { is_lawful_item ⟦<PolicyInformation<'a> as Described>⟧.element refl };
}
