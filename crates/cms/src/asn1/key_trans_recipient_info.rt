//! Written by asn1_compile from the module CMS: change the module instead.
//!
//! KeyTransRecipientInfo.
ghost use Rattle.std.specs.Prelude.{◌≡◌};
ghost use Rattle.std.proofs.Common.{refl};
ghost use Rattle.der.specs.Prelude.{map_ok};
ghost use Rattle.der_asn1.specs.Meaning.{alternative, field, is_lawful_item, sequence, sequence_item};
ghost use Rattle.der_asn1.specs.TupleFields.{four_fields};

use crate::asn1::cms_version::CmsVersion;
use crate::asn1::recipient_identifier::RecipientIdentifier;
use crate::asn1::signer_identifier::SignerIdentifier;
use der::{
    Decode, DecodeValue, Encode, Error, FieldsCall, FromFields, HasFields, Header, IsValue, Lends,
    Reader, Sequence, SliceReader, decode_sequence, field_refs,
};
use der_asn1::{Described, DescribedChoice, Item, LawfulItem, OctetStringRef};
use spki::AlgorithmIdentifierRef;
use std::alloc::Global;

/// A key that is encrypted with the public key of a recipient (RFC 5652, 6.2.1), borrowed from the
/// input.
#[derive(Clone, Copy, Debug, Drop, PartialEq, Eq)]
pub struct KeyTransRecipientInfo<'a> {
    /// The version: 0 if the recipient is named by issuer and serial number, or else 2. Decoding
    /// does not check this.
    pub version: CmsVersion<'a>,
    /// What identifies the certificate of the recipient.
    pub rid: RecipientIdentifier<'a>,
    /// The algorithm of the encryption.
    pub key_encryption_algorithm: AlgorithmIdentifierRef<'a>,
    /// The encrypted key, as octets.
    pub encrypted_key: OctetStringRef<'a>,
}

/// The fields of [`KeyTransRecipientInfo`] as one type, in the order in which they are encoded.
pub type KeyTransRecipientInfoFields<'a> = (
    CmsVersion<'a>,
    RecipientIdentifier<'a>,
    AlgorithmIdentifierRef<'a>,
    OctetStringRef<'a>,
);

impl<'a> FromFields<KeyTransRecipientInfoFields<'a>> for KeyTransRecipientInfo<'a> {
    ghost fields = { λ v. (v.version, v.rid, v.key_encryption_algorithm, v.encrypted_key) };

    fn from_fields(fields: KeyTransRecipientInfoFields<'a>) -> Self {
        let (version, rid, key_encryption_algorithm, encrypted_key) = fields;
        KeyTransRecipientInfo {
            version,
            rid,
            key_encryption_algorithm,
            encrypted_key,
        }
    }
}

impl<'a> Sequence for KeyTransRecipientInfo<'a> {
    ghost meaning = { sequence (four_fields (field (alternative
        ⟦<CmsVersion<'a> as Described>⟧.element)) (field
        ⟦<RecipientIdentifier<'a> as DescribedChoice>⟧.alternative) (field (alternative
        ⟦<AlgorithmIdentifierRef<'a> as Described>⟧.element)) (field (alternative
        ⟦<OctetStringRef<'a> as Described>⟧.element)))
        ⟦<KeyTransRecipientInfo<'a> as FromFields<KeyTransRecipientInfoFields<'a>>>⟧.fields };

    ghost fits = { (refl, refl) };
}

/// Decodes the fields, first to last. The errors are those that [`Sequence`] lists.
impl<'a, R: Lends<Borrowed = &'a [u8]>> DecodeValue<R> for KeyTransRecipientInfo<'a> {
    type Error = Error;

    ghost decode_value_answers = { λ h s result t.
        ⟦<KeyTransRecipientInfoFields<'a> as Decode<SliceReader<'a>>>⟧.decode_answers s (map_ok
        ⟦<KeyTransRecipientInfo<'a> as FromFields<KeyTransRecipientInfoFields<'a>>>⟧.fields result) t };

    fn decode_value(alloc: Global, reader: &mut R, header: Header) -> Result<Self, Error>
    where
        R: Reader,
    {
        decode_sequence::<R, KeyTransRecipientInfoFields<'a>, Self>(alloc, reader, header)
    }
}

impl<'a> IsValue for KeyTransRecipientInfo<'a> {
    fn is_value(&self) {
        self.version.is_value();
        match &self.rid {
            SignerIdentifier::IssuerAndSerialNumber(value) => value.is_value(),
            SignerIdentifier::SubjectKeyIdentifier(value) => value.is_value(),
        }
        self.key_encryption_algorithm.is_value();
        self.encrypted_key.is_value();
    }
}

/// Writes the fields, first to last. The errors are those that [`Sequence`] lists.
impl<'a> HasFields for KeyTransRecipientInfo<'a> {
    ghost fields_size = { λ v. ⟦<KeyTransRecipientInfoFields<'a> as Encode>⟧.size
        (⟦<KeyTransRecipientInfo<'a> as FromFields<KeyTransRecipientInfoFields<'a>>>⟧.fields v) };

    ghost fields_answers = { λ v. ⟦<KeyTransRecipientInfoFields<'a> as Encode>⟧.encode_answers
        (⟦<KeyTransRecipientInfo<'a> as FromFields<KeyTransRecipientInfoFields<'a>>>⟧.fields v) };

    fn call_fields<S, C: FieldsCall<S>>(
        &self,
        call: &C,
        state: &mut S,
        buf: &mut [u8],
    ) -> C::Output {
        call.call(
            &field_refs!(
                self,
                (version, rid, key_encryption_algorithm, encrypted_key)
            ),
            state,
            buf,
        )
    }
}

impl<'a> Item for KeyTransRecipientInfo<'a> {
    ghost item = { sequence_item ⟦<KeyTransRecipientInfo<'a> as Described>⟧.element };
}

impl<'a> LawfulItem for KeyTransRecipientInfo<'a> {
    ghost is_lawful_item = { is_lawful_item
        ⟦<KeyTransRecipientInfo<'a> as Described>⟧.element refl };
}
