//! Written by asn1_compile from the module CMS: change the module instead.
//!
//! PasswordRecipientInfo.
ghost use Rattle.std.specs.Prelude.{◌≡◌};
ghost use Rattle.std.proofs.Common.{refl};
ghost use Rattle.der.specs.Prelude.{map_ok};
ghost use Rattle.der_asn1.specs.Meaning.{alternative, field, is_lawful_item, optional, sequence, sequence_item};
ghost use Rattle.der_asn1.specs.TupleFields.{four_fields};

use crate::asn1::cms_version::CmsVersion;
use der::{
    Decode, DecodeValue, Encode, Error, FieldsCall, FromFields, HasFields, Header, IsValue, Lends,
    Reader, Sequence, SliceReader, decode_sequence, field_refs,
};
use der_asn1::{Described, Implicit, Item, LawfulItem, OctetStringRef, Optional};
use spki::AlgorithmIdentifierRef;
use std::alloc::Global;

/// A key that is encrypted with a key that is derived from a password (RFC 5652, 6.2.4), borrowed
/// from the input.
#[derive(Clone, Copy, Debug, Drop, PartialEq, Eq)]
pub struct PasswordRecipientInfo<'a> {
    /// The version, which is 0. Decoding does not check this.
    pub version: CmsVersion<'a>,
    /// The algorithm that derives the key from the password, if present.
    pub key_derivation_algorithm: Optional<Implicit<AlgorithmIdentifierRef<'a>, 0>>,
    /// The algorithm of the encryption.
    pub key_encryption_algorithm: AlgorithmIdentifierRef<'a>,
    /// The encrypted key, as octets.
    pub encrypted_key: OctetStringRef<'a>,
}

/// The fields of [`PasswordRecipientInfo`] as one type, in the order in which they are encoded.
pub type PasswordRecipientInfoFields<'a> = (
    CmsVersion<'a>,
    Optional<Implicit<AlgorithmIdentifierRef<'a>, 0>>,
    AlgorithmIdentifierRef<'a>,
    OctetStringRef<'a>,
);

impl<'a> FromFields<PasswordRecipientInfoFields<'a>> for PasswordRecipientInfo<'a> {
    ghost fields = { λ v. (
      v.version,
      v.key_derivation_algorithm,
      v.key_encryption_algorithm,
      v.encrypted_key,
    ) };

    fn from_fields(fields: PasswordRecipientInfoFields<'a>) -> Self {
        let (version, key_derivation_algorithm, key_encryption_algorithm, encrypted_key) = fields;
        PasswordRecipientInfo {
            version,
            key_derivation_algorithm,
            key_encryption_algorithm,
            encrypted_key,
        }
    }
}

impl<'a> Sequence for PasswordRecipientInfo<'a> {
    ghost meaning = { sequence (four_fields (field (alternative
        ⟦<CmsVersion<'a> as Described>⟧.element)) (optional (alternative
        ⟦<Implicit<AlgorithmIdentifierRef<'a>, 0> as Described>⟧.element)) (field (alternative
        ⟦<AlgorithmIdentifierRef<'a> as Described>⟧.element)) (field (alternative
        ⟦<OctetStringRef<'a> as Described>⟧.element)))
        ⟦<PasswordRecipientInfo<'a> as FromFields<PasswordRecipientInfoFields<'a>>>⟧.fields };

    ghost fits = { (refl, refl) };
}

/// Decodes the fields, first to last. The errors are those that [`Sequence`] lists.
impl<'a, R: Lends<Borrowed = &'a [u8]>> DecodeValue<R> for PasswordRecipientInfo<'a> {
    type Error = Error;

    ghost decode_value_answers = { λ h s result t.
        ⟦<PasswordRecipientInfoFields<'a> as Decode<SliceReader<'a>>>⟧.decode_answers s (map_ok
        ⟦<PasswordRecipientInfo<'a> as FromFields<PasswordRecipientInfoFields<'a>>>⟧.fields result) t };

    fn decode_value(alloc: Global, reader: &mut R, header: Header) -> Result<Self, Error>
    where
        R: Reader,
    {
        decode_sequence::<R, PasswordRecipientInfoFields<'a>, Self>(alloc, reader, header)
    }
}

impl<'a> IsValue for PasswordRecipientInfo<'a> {
    fn is_value(&self) {
        self.version.is_value();
        if let Some(value) = &self.key_derivation_algorithm.0 {
            value.is_value();
        }
        self.key_encryption_algorithm.is_value();
        self.encrypted_key.is_value();
    }
}

/// Writes the fields, first to last. The errors are those that [`Sequence`] lists.
impl<'a> HasFields for PasswordRecipientInfo<'a> {
    ghost fields_size = { λ v. ⟦<PasswordRecipientInfoFields<'a> as Encode>⟧.size
        (⟦<PasswordRecipientInfo<'a> as FromFields<PasswordRecipientInfoFields<'a>>>⟧.fields v) };

    ghost fields_answers = { λ v. ⟦<PasswordRecipientInfoFields<'a> as Encode>⟧.encode_answers
        (⟦<PasswordRecipientInfo<'a> as FromFields<PasswordRecipientInfoFields<'a>>>⟧.fields v) };

    fn call_fields<S, C: FieldsCall<S>>(
        &self,
        call: &C,
        state: &mut S,
        buf: &mut [u8],
    ) -> C::Output {
        call.call(
            &field_refs!(
                self,
                (
                    version,
                    key_derivation_algorithm,
                    key_encryption_algorithm,
                    encrypted_key
                )
            ),
            state,
            buf,
        )
    }
}

impl<'a> Item for PasswordRecipientInfo<'a> {
    ghost item = { sequence_item ⟦<PasswordRecipientInfo<'a> as Described>⟧.element };
}

impl<'a> LawfulItem for PasswordRecipientInfo<'a> {
    ghost is_lawful_item = { is_lawful_item
        ⟦<PasswordRecipientInfo<'a> as Described>⟧.element refl };
}
