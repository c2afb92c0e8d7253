//! Written by asn1_compile from the module CMS: change the module instead.
//!
//! RecipientEncryptedKey.
ghost use Rattle.std.specs.Prelude.{◌≡◌};
ghost use Rattle.std.proofs.Common.{refl};
ghost use Rattle.der.specs.Prelude.{map_ok};
ghost use Rattle.der_asn1.specs.Meaning.{alternative, field, is_lawful_item, sequence, sequence_item, two_fields};

use crate::asn1::key_agree_recipient_identifier::KeyAgreeRecipientIdentifier;
use der::{
    Decode, DecodeValue, Encode, Error, FieldsCall, FromFields, HasFields, Header, IsValue, Lends,
    Reader, Sequence, SliceReader, decode_sequence, field_refs,
};
use der_asn1::{Described, DescribedChoice, Item, LawfulItem, OctetStringRef};
use std::alloc::Global;

/// A key that is encrypted for one recipient (RFC 5652, 6.2.2), borrowed from the input.
#[derive(Clone, Copy, Debug, Drop, PartialEq, Eq)]
pub struct RecipientEncryptedKey<'a> {
    /// What identifies the public key of the recipient.
    pub rid: KeyAgreeRecipientIdentifier<'a>,
    /// The encrypted key, as octets.
    pub encrypted_key: OctetStringRef<'a>,
}

/// The fields of [`RecipientEncryptedKey`] as one type, in the order in which they are encoded.
pub type RecipientEncryptedKeyFields<'a> = (KeyAgreeRecipientIdentifier<'a>, OctetStringRef<'a>);

impl<'a> FromFields<RecipientEncryptedKeyFields<'a>> for RecipientEncryptedKey<'a> {
    ghost fields = { λ v. (v.rid, v.encrypted_key) };

    fn from_fields(fields: RecipientEncryptedKeyFields<'a>) -> Self {
        let (rid, encrypted_key) = fields;
        RecipientEncryptedKey { rid, encrypted_key }
    }
}

impl<'a> Sequence for RecipientEncryptedKey<'a> {
    ghost meaning = { sequence (two_fields (field
        ⟦<KeyAgreeRecipientIdentifier<'a> as DescribedChoice>⟧.alternative) (field (alternative
        ⟦<OctetStringRef<'a> as Described>⟧.element)))
        ⟦<RecipientEncryptedKey<'a> as FromFields<RecipientEncryptedKeyFields<'a>>>⟧.fields };

    ghost fits = { (refl, refl) };
}

/// Decodes the fields, first to last. The errors are those that [`Sequence`] lists.
impl<'a, R: Lends<Borrowed = &'a [u8]>> DecodeValue<R> for RecipientEncryptedKey<'a> {
    type Error = Error;

    ghost decode_value_answers = { λ h s result t.
        ⟦<RecipientEncryptedKeyFields<'a> as Decode<SliceReader<'a>>>⟧.decode_answers s (map_ok
        ⟦<RecipientEncryptedKey<'a> as FromFields<RecipientEncryptedKeyFields<'a>>>⟧.fields result) t };

    fn decode_value(alloc: Global, reader: &mut R, header: Header) -> Result<Self, Error>
    where
        R: Reader,
    {
        decode_sequence::<R, RecipientEncryptedKeyFields<'a>, Self>(alloc, reader, header)
    }
}

impl<'a> IsValue for RecipientEncryptedKey<'a> {
    fn is_value(&self) {
        match &self.rid {
            KeyAgreeRecipientIdentifier::IssuerAndSerialNumber(value) => value.is_value(),
            KeyAgreeRecipientIdentifier::RKeyId(value) => value.is_value(),
        }
        self.encrypted_key.is_value();
    }
}

/// Writes the fields, first to last. The errors are those that [`Sequence`] lists.
impl<'a> HasFields for RecipientEncryptedKey<'a> {
    ghost fields_size = { λ v. ⟦<RecipientEncryptedKeyFields<'a> as Encode>⟧.size
        (⟦<RecipientEncryptedKey<'a> as FromFields<RecipientEncryptedKeyFields<'a>>>⟧.fields v) };

    ghost fields_answers = { λ v. ⟦<RecipientEncryptedKeyFields<'a> as Encode>⟧.encode_answers
        (⟦<RecipientEncryptedKey<'a> as FromFields<RecipientEncryptedKeyFields<'a>>>⟧.fields v) };

    fn call_fields<S, C: FieldsCall<S>>(
        &self,
        call: &C,
        state: &mut S,
        buf: &mut [u8],
    ) -> C::Output {
        call.call(&field_refs!(self, (rid, encrypted_key)), state, buf)
    }
}

impl<'a> Item for RecipientEncryptedKey<'a> {
    ghost item = { sequence_item ⟦<RecipientEncryptedKey<'a> as Described>⟧.element };
}

impl<'a> LawfulItem for RecipientEncryptedKey<'a> {
    ghost is_lawful_item = { is_lawful_item
        ⟦<RecipientEncryptedKey<'a> as Described>⟧.element refl };
}
