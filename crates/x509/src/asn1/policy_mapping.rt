//! Written by asn1_compile from the module X509: change the module instead.
//!
//! PolicyMapping.
ghost use Rattle.std.specs.Prelude.{◌≡◌};
ghost use Rattle.std.proofs.Common.{refl};
ghost use Rattle.der.specs.Prelude.{map_ok};
ghost use Rattle.der_asn1.specs.Meaning.{alternative, field, is_lawful_item, sequence, sequence_item, two_fields};

use der::{
    Decode, DecodeValue, Encode, Error, FieldsCall, FromFields, HasFields, Header, IsValue, Lends,
    Reader, Sequence, SliceReader, decode_sequence, field_refs,
};
use der_asn1::{Described, Item, LawfulItem, ObjectIdentifierRef};
use std::alloc::Global;

/// A policy of the issuer, and the policy of the subject that counts as equal (RFC 5280, 4.2.1.5),
/// borrowed from the input.
#[derive(Clone, Copy, Debug, Drop, PartialEq, Eq)]
pub struct PolicyMapping<'a> {
    /// The policy of the issuer.
    pub issuer_domain_policy: ObjectIdentifierRef<'a>,
    /// The policy of the subject.
    pub subject_domain_policy: ObjectIdentifierRef<'a>,
}

/// The fields of [`PolicyMapping`] as one type, in the order in which they are encoded.
pub type PolicyMappingFields<'a> = (ObjectIdentifierRef<'a>, ObjectIdentifierRef<'a>);

impl<'a> FromFields<PolicyMappingFields<'a>> for PolicyMapping<'a> {
    ghost fields = { λ v. (v.issuer_domain_policy, v.subject_domain_policy) };

    fn from_fields(fields: PolicyMappingFields<'a>) -> Self {
        let (issuer_domain_policy, subject_domain_policy) = fields;
        PolicyMapping {
            issuer_domain_policy,
            subject_domain_policy,
        }
    }
}

impl<'a> Sequence for PolicyMapping<'a> {
    ghost meaning = { sequence (two_fields (field (alternative
        ⟦<ObjectIdentifierRef<'a> as Described>⟧.element)) (field (alternative
        ⟦<ObjectIdentifierRef<'a> as Described>⟧.element)))
        ⟦<PolicyMapping<'a> as FromFields<PolicyMappingFields<'a>>>⟧.fields };

    ghost fits = { (refl, refl) };
}

/// Decodes the fields, first to last. The errors are those that [`Sequence`] lists.
impl<'a, R: Lends<Borrowed = &'a [u8]>> DecodeValue<R> for PolicyMapping<'a> {
    type Error = Error;

    ghost decode_value_answers = { λ h s result t.
        ⟦<PolicyMappingFields<'a> as Decode<SliceReader<'a>>>⟧.decode_answers s (map_ok
        ⟦<PolicyMapping<'a> as FromFields<PolicyMappingFields<'a>>>⟧.fields result) t };

    fn decode_value(alloc: Global, reader: &mut R, header: Header) -> Result<Self, Error>
    where
        R: Reader,
    {
        decode_sequence::<R, PolicyMappingFields<'a>, Self>(alloc, reader, header)
    }
}

impl<'a> IsValue for PolicyMapping<'a> {
    fn is_value(&self) {
        self.issuer_domain_policy.is_value();
        self.subject_domain_policy.is_value();
    }
}

/// Writes the fields, first to last. The errors are those that [`Sequence`] lists.
impl<'a> HasFields for PolicyMapping<'a> {
    ghost fields_size = { λ v. ⟦<PolicyMappingFields<'a> as Encode>⟧.size
        (⟦<PolicyMapping<'a> as FromFields<PolicyMappingFields<'a>>>⟧.fields v) };

    ghost fields_answers = { λ v. ⟦<PolicyMappingFields<'a> as Encode>⟧.encode_answers
        (⟦<PolicyMapping<'a> as FromFields<PolicyMappingFields<'a>>>⟧.fields v) };

    fn call_fields<S, C: FieldsCall<S>>(
        &self,
        call: &C,
        state: &mut S,
        buf: &mut [u8],
    ) -> C::Output {
        call.call(
            &field_refs!(self, (issuer_domain_policy, subject_domain_policy)),
            state,
            buf,
        )
    }
}

impl<'a> Item for PolicyMapping<'a> {
    ghost item = { sequence_item ⟦<PolicyMapping<'a> as Described>⟧.element };
}

impl<'a> LawfulItem for PolicyMapping<'a> {
    ghost is_lawful_item = { is_lawful_item ⟦<PolicyMapping<'a> as Described>⟧.element refl };
}
