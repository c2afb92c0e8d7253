//! Written by asn1_compile from the module X509: change the module instead.
//!
//! PolicyQualifierInfo.
ghost use Rattle.std.specs.Prelude.{◌≡◌};
ghost use Rattle.std.proofs.Common.{refl};
ghost use Rattle.der.specs.Prelude.{map_ok};
ghost use Rattle.der_asn1.specs.Meaning.{alternative, any_element, field, is_lawful_item, sequence, sequence_item, two_fields};

use der::{
    Decode, DecodeValue, Encode, Error, FieldsCall, FromFields, HasFields, Header, IsValue, Lends,
    Reader, Sequence, SliceReader, decode_sequence, field_refs,
};
use der_asn1::{AnyRef, Described, Item, LawfulItem, ObjectIdentifierRef};
use std::alloc::Global;

/// A qualifier of a policy (RFC 5280, 4.2.1.4), borrowed from the input.
#[derive(Clone, Copy, Debug, Drop, PartialEq, Eq)]
pub struct PolicyQualifierInfo<'a> {
    /// The kind of the qualifier, as an object identifier.
    pub policy_qualifier_id: ObjectIdentifierRef<'a>,
    /// The qualifier: a CPSuri, a UserNotice, or an element of another type. Its contents are not
    /// checked.
    pub qualifier: AnyRef<'a>,
}

/// The fields of [`PolicyQualifierInfo`] as one type, in the order in which they are encoded.
pub type PolicyQualifierInfoFields<'a> = (ObjectIdentifierRef<'a>, AnyRef<'a>);

impl<'a> FromFields<PolicyQualifierInfoFields<'a>> for PolicyQualifierInfo<'a> {
    ghost fields = { λ v. (v.policy_qualifier_id, v.qualifier) };

    fn from_fields(fields: PolicyQualifierInfoFields<'a>) -> Self {
        let (policy_qualifier_id, qualifier) = fields;
        PolicyQualifierInfo {
            policy_qualifier_id,
            qualifier,
        }
    }
}

impl<'a> Sequence for PolicyQualifierInfo<'a> {
    ghost meaning = { sequence (two_fields (field (alternative
        ⟦<ObjectIdentifierRef<'a> as Described>⟧.element)) (field any_element))
        ⟦<PolicyQualifierInfo<'a> as FromFields<PolicyQualifierInfoFields<'a>>>⟧.fields };

    ghost fits = { (refl, refl) };
}

/// Decodes the fields, first to last. The errors are those that [`Sequence`] lists.
impl<'a, R: Lends<Borrowed = &'a [u8]>> DecodeValue<R> for PolicyQualifierInfo<'a> {
    type Error = Error;

    ghost decode_value_answers = { λ h s result t.
        ⟦<PolicyQualifierInfoFields<'a> as Decode<SliceReader<'a>>>⟧.decode_answers s (map_ok
        ⟦<PolicyQualifierInfo<'a> as FromFields<PolicyQualifierInfoFields<'a>>>⟧.fields result) t };

    fn decode_value(alloc: Global, reader: &mut R, header: Header) -> Result<Self, Error>
    where
        R: Reader,
    {
        decode_sequence::<R, PolicyQualifierInfoFields<'a>, Self>(alloc, reader, header)
    }
}

impl<'a> IsValue for PolicyQualifierInfo<'a> {
    fn is_value(&self) {
        self.policy_qualifier_id.is_value();
        self.qualifier.is_value();
    }
}

/// Writes the fields, first to last. The errors are those that [`Sequence`] lists.
impl<'a> HasFields for PolicyQualifierInfo<'a> {
    ghost fields_size = { λ v. ⟦<PolicyQualifierInfoFields<'a> as Encode>⟧.size
        (⟦<PolicyQualifierInfo<'a> as FromFields<PolicyQualifierInfoFields<'a>>>⟧.fields v) };

    ghost fields_answers = { λ v. ⟦<PolicyQualifierInfoFields<'a> as Encode>⟧.encode_answers
        (⟦<PolicyQualifierInfo<'a> as FromFields<PolicyQualifierInfoFields<'a>>>⟧.fields v) };

    fn call_fields<S, C: FieldsCall<S>>(
        &self,
        call: &C,
        state: &mut S,
        buf: &mut [u8],
    ) -> C::Output {
        call.call(
            &field_refs!(self, (policy_qualifier_id, qualifier)),
            state,
            buf,
        )
    }
}

impl<'a> Item for PolicyQualifierInfo<'a> {
    ghost item = { sequence_item ⟦<PolicyQualifierInfo<'a> as Described>⟧.element };
}

impl<'a> LawfulItem for PolicyQualifierInfo<'a> {
    ghost is_lawful_item = { is_lawful_item ⟦<PolicyQualifierInfo<'a> as Described>⟧.element refl };
}
