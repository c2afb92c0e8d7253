//! Written by asn1_compile from the module CMS: change the module instead.
//!
//! KeyAgreeRecipientInfo.
ghost use Rattle.std.specs.Prelude.{◌≡◌};
ghost use Rattle.std.proofs.Common.{refl};
ghost use Rattle.der.specs.Prelude.{map_ok};
ghost use Rattle.der_asn1.specs.Meaning.{alternative, field, is_lawful_item, optional, sequence, sequence_item};
ghost use Rattle.der_asn1.specs.TupleFields.{five_fields};

use crate::asn1::cms_version::CmsVersion;
use crate::asn1::originator_identifier_or_key_tagged::OriginatorIdentifierOrKeyTagged;
use crate::asn1::recipient_encrypted_key::RecipientEncryptedKey;
use der::{
    Decode, DecodeValue, Encode, Error, FieldsCall, FromFields, HasFields, Header, IsValue, Lends,
    Reader, Sequence, SliceReader, decode_sequence, field_refs,
};
use der_asn1::{
    Described, Explicit, Implicit, Item, LawfulItem, OctetStringRef, Optional, SequenceOf,
};
use spki::AlgorithmIdentifierRef;
use std::alloc::Global;

/// A key that is encrypted with keys from a key agreement, one for each recipient (RFC 5652,
/// 6.2.2), borrowed from the input.
#[derive(Clone, Copy, Debug, Drop, PartialEq, Eq)]
pub struct KeyAgreeRecipientInfo<'a> {
    /// The version, which is 3. Decoding does not check this.
    pub version: CmsVersion<'a>,
    /// What identifies the public key of the originator, or the key itself.
    pub originator: Implicit<OriginatorIdentifierOrKeyTagged<'a>, 0>,
    /// Octets from the originator, if present. They make the agreed key differ each time.
    pub ukm: Optional<Explicit<OctetStringRef<'a>, 1>>,
    /// The algorithm of the key agreement. Its parameters are the algorithm that encrypts the keys.
    pub key_encryption_algorithm: AlgorithmIdentifierRef<'a>,
    /// The encrypted key for each recipient.
    pub recipient_encrypted_keys: SequenceOf<'a, RecipientEncryptedKey<'a>>,
}

/// The fields of [`KeyAgreeRecipientInfo`] as one type, in the order in which they are encoded.
pub type KeyAgreeRecipientInfoFields<'a> = (
    CmsVersion<'a>,
    Implicit<OriginatorIdentifierOrKeyTagged<'a>, 0>,
    Optional<Explicit<OctetStringRef<'a>, 1>>,
    AlgorithmIdentifierRef<'a>,
    SequenceOf<'a, RecipientEncryptedKey<'a>>,
);

impl<'a> FromFields<KeyAgreeRecipientInfoFields<'a>> for KeyAgreeRecipientInfo<'a> {
    ghost fields = { λ v. (
      v.version,
      v.originator,
      v.ukm,
      v.key_encryption_algorithm,
      v.recipient_encrypted_keys,
    ) };

    fn from_fields(fields: KeyAgreeRecipientInfoFields<'a>) -> Self {
        let (version, originator, ukm, key_encryption_algorithm, recipient_encrypted_keys) = fields;
        KeyAgreeRecipientInfo {
            version,
            originator,
            ukm,
            key_encryption_algorithm,
            recipient_encrypted_keys,
        }
    }
}

impl<'a> Sequence for KeyAgreeRecipientInfo<'a> {
    ghost meaning = { sequence (five_fields (field (alternative
        ⟦<CmsVersion<'a> as Described>⟧.element)) (field (alternative
        ⟦<Implicit<OriginatorIdentifierOrKeyTagged<'a>, 0> as Described>⟧.element)) (optional
        (alternative ⟦<Explicit<OctetStringRef<'a>, 1> as Described>⟧.element)) (field (alternative
        ⟦<AlgorithmIdentifierRef<'a> as Described>⟧.element)) (field (alternative
        ⟦<SequenceOf<'a, RecipientEncryptedKey<'a>> as Described>⟧.element)))
        ⟦<KeyAgreeRecipientInfo<'a> as FromFields<KeyAgreeRecipientInfoFields<'a>>>⟧.fields };

    ghost fits = { (refl, refl) };
}

/// Decodes the fields, first to last. The errors are those that [`Sequence`] lists.
impl<'a, R: Lends<Borrowed = &'a [u8]>> DecodeValue<R> for KeyAgreeRecipientInfo<'a> {
    type Error = Error;

    ghost decode_value_answers = { λ h s result t.
        ⟦<KeyAgreeRecipientInfoFields<'a> as Decode<SliceReader<'a>>>⟧.decode_answers s (map_ok
        ⟦<KeyAgreeRecipientInfo<'a> as FromFields<KeyAgreeRecipientInfoFields<'a>>>⟧.fields result) t };

    fn decode_value(alloc: Global, reader: &mut R, header: Header) -> Result<Self, Error>
    where
        R: Reader,
    {
        decode_sequence::<R, KeyAgreeRecipientInfoFields<'a>, Self>(alloc, reader, header)
    }
}

impl<'a> IsValue for KeyAgreeRecipientInfo<'a> {
    fn is_value(&self) {
        self.version.is_value();
        self.originator.is_value();
        if let Some(value) = &self.ukm.0 {
            value.is_value();
        }
        self.key_encryption_algorithm.is_value();
        self.recipient_encrypted_keys.is_value();
    }
}

/// Writes the fields, first to last. The errors are those that [`Sequence`] lists.
impl<'a> HasFields for KeyAgreeRecipientInfo<'a> {
    ghost fields_size = { λ v. ⟦<KeyAgreeRecipientInfoFields<'a> as Encode>⟧.size
        (⟦<KeyAgreeRecipientInfo<'a> as FromFields<KeyAgreeRecipientInfoFields<'a>>>⟧.fields v) };

    ghost fields_answers = { λ v. ⟦<KeyAgreeRecipientInfoFields<'a> as Encode>⟧.encode_answers
        (⟦<KeyAgreeRecipientInfo<'a> as FromFields<KeyAgreeRecipientInfoFields<'a>>>⟧.fields v) };

    fn call_fields<S, C: FieldsCall<S>>(
        &self,
        call: &C,
        state: &mut S,
        buf: &mut [u8],
    ) -> C::Output {
        call.call(
            &field_refs!(
                self,
                (
                    version,
                    originator,
                    ukm,
                    key_encryption_algorithm,
                    recipient_encrypted_keys
                )
            ),
            state,
            buf,
        )
    }
}

impl<'a> Item for KeyAgreeRecipientInfo<'a> {
    ghost item = { sequence_item ⟦<KeyAgreeRecipientInfo<'a> as Described>⟧.element };
}

impl<'a> LawfulItem for KeyAgreeRecipientInfo<'a> {
    ghost is_lawful_item = { is_lawful_item
        ⟦<KeyAgreeRecipientInfo<'a> as Described>⟧.element refl };
}
