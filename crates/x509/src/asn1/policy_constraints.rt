//! Written by asn1_compile from the module X509: change the module instead.
//!
//! PolicyConstraints.
ghost use Rattle.std.specs.Prelude.{◌≡◌};
ghost use Rattle.std.proofs.Common.{refl};
ghost use Rattle.der.specs.Prelude.{map_ok};
ghost use Rattle.der_asn1.specs.Meaning.{alternative, is_lawful_item, optional, sequence, sequence_item, two_fields};

use crate::asn1::skip_certs::SkipCerts;
use der::{
    Decode, DecodeValue, Encode, Error, FieldsCall, FromFields, HasFields, Header, IsValue, Lends,
    Reader, Sequence, SliceReader, decode_sequence, field_refs,
};
use der_asn1::{Described, Implicit, Item, LawfulItem, Optional};
use std::alloc::Global;

/// Requirements for the policies of a chain of certificates (RFC 5280, 4.2.1.11), borrowed from the
/// input. That at least one number is present is not checked.
#[derive(Clone, Copy, Debug, Drop, PartialEq, Eq)]
pub struct PolicyConstraints<'a> {
    /// If present, the number of further certificates in the chain after which an explicit policy is
    /// required: then each certificate of the chain must have an acceptable policy.
    pub require_explicit_policy: Optional<Implicit<SkipCerts<'a>, 0>>,
    /// If present, the number of further certificates in the chain after which policies may no longer
    /// be mapped.
    pub inhibit_policy_mapping: Optional<Implicit<SkipCerts<'a>, 1>>,
}

/// The fields of [`PolicyConstraints`] as one type, in the order in which they are encoded.
pub type PolicyConstraintsFields<'a> = (
    Optional<Implicit<SkipCerts<'a>, 0>>,
    Optional<Implicit<SkipCerts<'a>, 1>>,
);

impl<'a> FromFields<PolicyConstraintsFields<'a>> for PolicyConstraints<'a> {
    ghost fields = { λ v. (v.require_explicit_policy, v.inhibit_policy_mapping) };

    fn from_fields(fields: PolicyConstraintsFields<'a>) -> Self {
        let (require_explicit_policy, inhibit_policy_mapping) = fields;
        PolicyConstraints {
            require_explicit_policy,
            inhibit_policy_mapping,
        }
    }
}

impl<'a> Sequence for PolicyConstraints<'a> {
    ghost meaning = { sequence (two_fields (optional (alternative
        ⟦<Implicit<SkipCerts<'a>, 0> as Described>⟧.element)) (optional (alternative
        ⟦<Implicit<SkipCerts<'a>, 1> as Described>⟧.element)))
        ⟦<PolicyConstraints<'a> as FromFields<PolicyConstraintsFields<'a>>>⟧.fields };

    ghost fits = { (refl, refl) };
}

/// Decodes the fields, first to last. The errors are those that [`Sequence`] lists.
impl<'a, R: Lends<Borrowed = &'a [u8]>> DecodeValue<R> for PolicyConstraints<'a> {
    type Error = Error;

    ghost decode_value_answers = { λ h s result t.
        ⟦<PolicyConstraintsFields<'a> as Decode<SliceReader<'a>>>⟧.decode_answers s (map_ok
        ⟦<PolicyConstraints<'a> as FromFields<PolicyConstraintsFields<'a>>>⟧.fields result) t };

    fn decode_value(alloc: Global, reader: &mut R, header: Header) -> Result<Self, Error>
    where
        R: Reader,
    {
        decode_sequence::<R, PolicyConstraintsFields<'a>, Self>(alloc, reader, header)
    }
}

impl<'a> IsValue for PolicyConstraints<'a> {
    fn is_value(&self) {
        if let Some(value) = &self.require_explicit_policy.0 {
            value.is_value();
        }
        if let Some(value) = &self.inhibit_policy_mapping.0 {
            value.is_value();
        }
    }
}

/// Writes the fields, first to last. The errors are those that [`Sequence`] lists.
impl<'a> HasFields for PolicyConstraints<'a> {
    ghost fields_size = { λ v. ⟦<PolicyConstraintsFields<'a> as Encode>⟧.size
        (⟦<PolicyConstraints<'a> as FromFields<PolicyConstraintsFields<'a>>>⟧.fields v) };

    ghost fields_answers = { λ v. ⟦<PolicyConstraintsFields<'a> as Encode>⟧.encode_answers
        (⟦<PolicyConstraints<'a> as FromFields<PolicyConstraintsFields<'a>>>⟧.fields v) };

    fn call_fields<S, C: FieldsCall<S>>(
        &self,
        call: &C,
        state: &mut S,
        buf: &mut [u8],
    ) -> C::Output {
        call.call(
            &field_refs!(self, (require_explicit_policy, inhibit_policy_mapping)),
            state,
            buf,
        )
    }
}

impl<'a> Item for PolicyConstraints<'a> {
    ghost item = { sequence_item ⟦<PolicyConstraints<'a> as Described>⟧.element };
}

impl<'a> LawfulItem for PolicyConstraints<'a> {
    ghost is_lawful_item = { is_lawful_item ⟦<PolicyConstraints<'a> as Described>⟧.element refl };
}
