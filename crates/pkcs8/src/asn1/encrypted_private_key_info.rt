//! Written by asn1_compile from the module PrivateKeys: change the module instead.
//!
//! EncryptedPrivateKeyInfo.
ghost use Rattle.std.specs.Prelude.{◌≡◌};
ghost use Rattle.std.proofs.Common.{refl};
ghost use Rattle.der.specs.Prelude.{map_ok};
ghost use Rattle.der_asn1.specs.Meaning.{alternative, field, is_lawful_item, sequence, sequence_item, two_fields};

use der::{
    Decode, DecodeValue, Encode, Error, FieldsCall, FromFields, HasFields, Header, IsValue, Lends,
    Reader, Sequence, SliceReader, decode_sequence, field_refs,
};
use der_asn1::{Described, Item, LawfulItem, OctetStringRef};
use spki::AlgorithmIdentifierRef;
use std::alloc::Global;

/// An encrypted private key with the algorithm of its encryption (RFC 5958, 3), borrowed from the
/// input.
#[derive(Clone, Copy, Debug, Drop, PartialEq, Eq)]
pub struct EncryptedPrivateKeyInfo<'a> {
    /// The algorithm of the encryption.
    pub encryption_algorithm: AlgorithmIdentifierRef<'a>,
    /// The encrypted PrivateKeyInfo, as octets.
    pub encrypted_data: OctetStringRef<'a>,
}

/// The fields of [`EncryptedPrivateKeyInfo`] as one type, in the order in which they are encoded.
pub type EncryptedPrivateKeyInfoFields<'a> = (AlgorithmIdentifierRef<'a>, OctetStringRef<'a>);

impl<'a> FromFields<EncryptedPrivateKeyInfoFields<'a>> for EncryptedPrivateKeyInfo<'a> {
    ghost fields = { λ v. (v.encryption_algorithm, v.encrypted_data) };

    fn from_fields(fields: EncryptedPrivateKeyInfoFields<'a>) -> Self {
        let (encryption_algorithm, encrypted_data) = fields;
        EncryptedPrivateKeyInfo {
            encryption_algorithm,
            encrypted_data,
        }
    }
}

impl<'a> Sequence for EncryptedPrivateKeyInfo<'a> {
    ghost meaning = { sequence (two_fields (field (alternative
        ⟦<AlgorithmIdentifierRef<'a> as Described>⟧.element)) (field (alternative
        ⟦<OctetStringRef<'a> as Described>⟧.element)))
        ⟦<EncryptedPrivateKeyInfo<'a> as FromFields<EncryptedPrivateKeyInfoFields<'a>>>⟧.fields };

    ghost fits = { (refl, refl) };
}

/// Decodes the fields, first to last. The errors are those that [`Sequence`] lists.
impl<'a, R: Lends<Borrowed = &'a [u8]>> DecodeValue<R> for EncryptedPrivateKeyInfo<'a> {
    type Error = Error;

    ghost decode_value_answers = { λ h s result t.
        ⟦<EncryptedPrivateKeyInfoFields<'a> as Decode<SliceReader<'a>>>⟧.decode_answers s (map_ok
        ⟦<EncryptedPrivateKeyInfo<'a> as FromFields<EncryptedPrivateKeyInfoFields<'a>>>⟧.fields result) t };

    fn decode_value(alloc: Global, reader: &mut R, header: Header) -> Result<Self, Error>
    where
        R: Reader,
    {
        decode_sequence::<R, EncryptedPrivateKeyInfoFields<'a>, Self>(alloc, reader, header)
    }
}

impl<'a> IsValue for EncryptedPrivateKeyInfo<'a> {
    fn is_value(&self) {
        self.encryption_algorithm.is_value();
        self.encrypted_data.is_value();
    }
}

/// Writes the fields, first to last. The errors are those that [`Sequence`] lists.
impl<'a> HasFields for EncryptedPrivateKeyInfo<'a> {
    ghost fields_size = { λ v. ⟦<EncryptedPrivateKeyInfoFields<'a> as Encode>⟧.size
        (⟦<EncryptedPrivateKeyInfo<'a> as FromFields<EncryptedPrivateKeyInfoFields<'a>>>⟧.fields v) };

    ghost fields_answers = { λ v. ⟦<EncryptedPrivateKeyInfoFields<'a> as Encode>⟧.encode_answers
        (⟦<EncryptedPrivateKeyInfo<'a> as FromFields<EncryptedPrivateKeyInfoFields<'a>>>⟧.fields v) };

    fn call_fields<S, C: FieldsCall<S>>(
        &self,
        call: &C,
        state: &mut S,
        buf: &mut [u8],
    ) -> C::Output {
        call.call(
            &field_refs!(self, (encryption_algorithm, encrypted_data)),
            state,
            buf,
        )
    }
}

impl<'a> Item for EncryptedPrivateKeyInfo<'a> {
    ghost item = { sequence_item ⟦<EncryptedPrivateKeyInfo<'a> as Described>⟧.element };
}

impl<'a> LawfulItem for EncryptedPrivateKeyInfo<'a> {
    ghost is_lawful_item = { is_lawful_item
        ⟦<EncryptedPrivateKeyInfo<'a> as Described>⟧.element refl };
}
