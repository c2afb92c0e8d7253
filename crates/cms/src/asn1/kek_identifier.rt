//! Written by asn1_compile from the module CMS: change the module instead.
//!
//! KekIdentifier.
ghost use Rattle.std.specs.Prelude.{◌≡◌};
ghost use Rattle.std.proofs.Common.{refl};
ghost use Rattle.der.specs.Prelude.{map_ok};
ghost use Rattle.der_asn1.specs.Meaning.{alternative, field, is_lawful_item, optional, sequence, sequence_item};
ghost use Rattle.der_asn1.specs.TupleFields.{three_fields};

use crate::asn1::other_key_attribute::OtherKeyAttribute;
use der::{
    Decode, DecodeValue, Encode, Error, FieldsCall, FromFields, HasFields, Header, IsValue, Lends,
    Reader, Sequence, SliceReader, decode_sequence, field_refs,
};
use der_asn1::{Described, GeneralizedTime, Item, LawfulItem, OctetStringRef, Optional};
use std::alloc::Global;

/// What identifies a key that the originator and the recipient share (RFC 5652, 6.2.3), borrowed
/// from the input.
#[derive(Clone, Copy, Debug, Drop, PartialEq, Eq)]
pub struct KekIdentifier<'a> {
    /// The octets that identify the key.
    pub key_identifier: OctetStringRef<'a>,
    /// The date that tells this key from others with the same identifier, if present.
    pub date: Optional<GeneralizedTime>,
    /// Further information that identifies the key, if present.
    pub other: Optional<OtherKeyAttribute<'a>>,
}

/// The fields of [`KekIdentifier`] as one type, in the order in which they are encoded.
pub type KekIdentifierFields<'a> = (
    OctetStringRef<'a>,
    Optional<GeneralizedTime>,
    Optional<OtherKeyAttribute<'a>>,
);

impl<'a> FromFields<KekIdentifierFields<'a>> for KekIdentifier<'a> {
    ghost fields = { λ v. (v.key_identifier, v.date, v.other) };

    fn from_fields(fields: KekIdentifierFields<'a>) -> Self {
        let (key_identifier, date, other) = fields;
        KekIdentifier {
            key_identifier,
            date,
            other,
        }
    }
}

impl<'a> Sequence for KekIdentifier<'a> {
    ghost meaning = { sequence (three_fields (field (alternative
        ⟦<OctetStringRef<'a> as Described>⟧.element)) (optional (alternative
        ⟦<GeneralizedTime as Described>⟧.element)) (optional (alternative
        ⟦<OtherKeyAttribute<'a> as Described>⟧.element)))
        ⟦<KekIdentifier<'a> as FromFields<KekIdentifierFields<'a>>>⟧.fields };

    ghost fits = { (refl, refl) };
}

/// Decodes the fields, first to last. The errors are those that [`Sequence`] lists.
impl<'a, R: Lends<Borrowed = &'a [u8]>> DecodeValue<R> for KekIdentifier<'a> {
    type Error = Error;

    ghost decode_value_answers = { λ h s result t.
        ⟦<KekIdentifierFields<'a> as Decode<SliceReader<'a>>>⟧.decode_answers s (map_ok
        ⟦<KekIdentifier<'a> as FromFields<KekIdentifierFields<'a>>>⟧.fields result) t };

    fn decode_value(alloc: Global, reader: &mut R, header: Header) -> Result<Self, Error>
    where
        R: Reader,
    {
        decode_sequence::<R, KekIdentifierFields<'a>, Self>(alloc, reader, header)
    }
}

impl<'a> IsValue for KekIdentifier<'a> {
    fn is_value(&self) {
        self.key_identifier.is_value();
        if let Some(value) = &self.date.0 {
            value.is_value();
        }
        if let Some(value) = &self.other.0 {
            value.is_value();
        }
    }
}

/// Writes the fields, first to last. The errors are those that [`Sequence`] lists.
impl<'a> HasFields for KekIdentifier<'a> {
    ghost fields_size = { λ v. ⟦<KekIdentifierFields<'a> as Encode>⟧.size
        (⟦<KekIdentifier<'a> as FromFields<KekIdentifierFields<'a>>>⟧.fields v) };

    ghost fields_answers = { λ v. ⟦<KekIdentifierFields<'a> as Encode>⟧.encode_answers
        (⟦<KekIdentifier<'a> as FromFields<KekIdentifierFields<'a>>>⟧.fields v) };

    fn call_fields<S, C: FieldsCall<S>>(
        &self,
        call: &C,
        state: &mut S,
        buf: &mut [u8],
    ) -> C::Output {
        call.call(
            &field_refs!(self, (key_identifier, date, other)),
            state,
            buf,
        )
    }
}

impl<'a> Item for KekIdentifier<'a> {
    ghost item = { sequence_item ⟦<KekIdentifier<'a> as Described>⟧.element };
}

impl<'a> LawfulItem for KekIdentifier<'a> {
    ghost is_lawful_item = { is_lawful_item ⟦<KekIdentifier<'a> as Described>⟧.element refl };
}
