//! Written by asn1_compile from the module CMS: change the module instead.
//!
//! KekRecipientInfo.
ghost use Rattle.std.specs.Prelude.{◌≡◌};
ghost use Rattle.std.proofs.Common.{refl};
ghost use Rattle.der.specs.Prelude.{map_ok};
ghost use Rattle.der_asn1.specs.Meaning.{alternative, field, is_lawful_item, sequence, sequence_item};
ghost use Rattle.der_asn1.specs.TupleFields.{four_fields};

use crate::asn1::cms_version::CmsVersion;
use crate::asn1::kek_identifier::KekIdentifier;
use der::{
    Decode, DecodeValue, Encode, Error, FieldsCall, FromFields, HasFields, Header, IsValue, Lends,
    Reader, Sequence, SliceReader, decode_sequence, field_refs,
};
use der_asn1::{Described, Item, LawfulItem, OctetStringRef};
use spki::AlgorithmIdentifierRef;
use std::alloc::Global;

/// A key that is encrypted with a key that the originator and the recipient share already (RFC
/// 5652, 6.2.3), borrowed from the input.
#[derive(Clone, Copy, Debug, Drop, PartialEq, Eq)]
pub struct KekRecipientInfo<'a> {
    /// The version, which is 4. Decoding does not check this.
    pub version: CmsVersion<'a>,
    /// What identifies the shared key.
    pub kekid: KekIdentifier<'a>,
    /// The algorithm of the encryption.
    pub key_encryption_algorithm: AlgorithmIdentifierRef<'a>,
    /// The encrypted key, as octets.
    pub encrypted_key: OctetStringRef<'a>,
}

/// The fields of [`KekRecipientInfo`] as one type, in the order in which they are encoded.
pub type KekRecipientInfoFields<'a> = (
    CmsVersion<'a>,
    KekIdentifier<'a>,
    AlgorithmIdentifierRef<'a>,
    OctetStringRef<'a>,
);

impl<'a> FromFields<KekRecipientInfoFields<'a>> for KekRecipientInfo<'a> {
    ghost fields = { λ v. (v.version, v.kekid, v.key_encryption_algorithm, v.encrypted_key) };

    fn from_fields(fields: KekRecipientInfoFields<'a>) -> Self {
        let (version, kekid, key_encryption_algorithm, encrypted_key) = fields;
        KekRecipientInfo {
            version,
            kekid,
            key_encryption_algorithm,
            encrypted_key,
        }
    }
}

impl<'a> Sequence for KekRecipientInfo<'a> {
    ghost meaning = { sequence (four_fields (field (alternative
        ⟦<CmsVersion<'a> as Described>⟧.element)) (field (alternative
        ⟦<KekIdentifier<'a> as Described>⟧.element)) (field (alternative
        ⟦<AlgorithmIdentifierRef<'a> as Described>⟧.element)) (field (alternative
        ⟦<OctetStringRef<'a> as Described>⟧.element)))
        ⟦<KekRecipientInfo<'a> as FromFields<KekRecipientInfoFields<'a>>>⟧.fields };

    ghost fits = { (refl, refl) };
}

/// Decodes the fields, first to last. The errors are those that [`Sequence`] lists.
impl<'a, R: Lends<Borrowed = &'a [u8]>> DecodeValue<R> for KekRecipientInfo<'a> {
    type Error = Error;

    ghost decode_value_answers = { λ h s result t.
        ⟦<KekRecipientInfoFields<'a> as Decode<SliceReader<'a>>>⟧.decode_answers s (map_ok
        ⟦<KekRecipientInfo<'a> as FromFields<KekRecipientInfoFields<'a>>>⟧.fields result) t };

    fn decode_value(alloc: Global, reader: &mut R, header: Header) -> Result<Self, Error>
    where
        R: Reader,
    {
        decode_sequence::<R, KekRecipientInfoFields<'a>, Self>(alloc, reader, header)
    }
}

impl<'a> IsValue for KekRecipientInfo<'a> {
    fn is_value(&self) {
        self.version.is_value();
        self.kekid.is_value();
        self.key_encryption_algorithm.is_value();
        self.encrypted_key.is_value();
    }
}

/// Writes the fields, first to last. The errors are those that [`Sequence`] lists.
impl<'a> HasFields for KekRecipientInfo<'a> {
    ghost fields_size = { λ v. ⟦<KekRecipientInfoFields<'a> as Encode>⟧.size
        (⟦<KekRecipientInfo<'a> as FromFields<KekRecipientInfoFields<'a>>>⟧.fields v) };

    ghost fields_answers = { λ v. ⟦<KekRecipientInfoFields<'a> as Encode>⟧.encode_answers
        (⟦<KekRecipientInfo<'a> as FromFields<KekRecipientInfoFields<'a>>>⟧.fields v) };

    fn call_fields<S, C: FieldsCall<S>>(
        &self,
        call: &C,
        state: &mut S,
        buf: &mut [u8],
    ) -> C::Output {
        call.call(
            &field_refs!(
                self,
                (version, kekid, key_encryption_algorithm, encrypted_key)
            ),
            state,
            buf,
        )
    }
}

impl<'a> Item for KekRecipientInfo<'a> {
    ghost item = { sequence_item ⟦<KekRecipientInfo<'a> as Described>⟧.element };
}

impl<'a> LawfulItem for KekRecipientInfo<'a> {
    ghost is_lawful_item = { is_lawful_item ⟦<KekRecipientInfo<'a> as Described>⟧.element refl };
}
