//! Written by asn1_compile from the module OCSP: change the module instead.
//!
//! CertId.
ghost use Rattle.std.specs.Prelude.{◌≡◌};
ghost use Rattle.std.proofs.Common.{refl};
ghost use Rattle.der.specs.Prelude.{map_ok};
ghost use Rattle.der_asn1.specs.Meaning.{alternative, field, is_lawful_item, sequence, sequence_item};
ghost use Rattle.der_asn1.specs.TupleFields.{four_fields};

use der::{
    Decode, DecodeValue, Encode, Error, FieldsCall, FromFields, HasFields, Header, IsValue, Lends,
    Reader, Sequence, SliceReader, decode_sequence, field_refs,
};
use der_asn1::{Described, Item, LawfulItem, OctetStringRef};
use spki::AlgorithmIdentifierRef;
use std::alloc::Global;
use x509::CertificateSerialNumber;

/// What identifies a certificate (RFC 6960, 4.1.1), borrowed from the input.
#[derive(Clone, Copy, Debug, Drop, PartialEq, Eq)]
pub struct CertId<'a> {
    /// The algorithm of the hashes `issuer_name_hash` and `issuer_key_hash`.
    pub hash_algorithm: AlgorithmIdentifierRef<'a>,
    /// The hash of the issuer's name.
    pub issuer_name_hash: OctetStringRef<'a>,
    /// The hash of the issuer's public key.
    pub issuer_key_hash: OctetStringRef<'a>,
    /// The serial number of the certificate.
    pub serial_number: CertificateSerialNumber<'a>,
}

/// The fields of [`CertId`] as one type, in the order in which they are encoded.
pub type CertIdFields<'a> = (
    AlgorithmIdentifierRef<'a>,
    OctetStringRef<'a>,
    OctetStringRef<'a>,
    CertificateSerialNumber<'a>,
);

impl<'a> FromFields<CertIdFields<'a>> for CertId<'a> {
    ghost fields = { λ v. (
      v.hash_algorithm,
      v.issuer_name_hash,
      v.issuer_key_hash,
      v.serial_number,
    ) };

    fn from_fields(fields: CertIdFields<'a>) -> Self {
        let (hash_algorithm, issuer_name_hash, issuer_key_hash, serial_number) = fields;
        CertId {
            hash_algorithm,
            issuer_name_hash,
            issuer_key_hash,
            serial_number,
        }
    }
}

impl<'a> Sequence for CertId<'a> {
    ghost meaning = { sequence (four_fields (field (alternative
        ⟦<AlgorithmIdentifierRef<'a> as Described>⟧.element)) (field (alternative
        ⟦<OctetStringRef<'a> as Described>⟧.element)) (field (alternative
        ⟦<OctetStringRef<'a> as Described>⟧.element)) (field (alternative
        ⟦<CertificateSerialNumber<'a> as Described>⟧.element)))
        ⟦<CertId<'a> as FromFields<CertIdFields<'a>>>⟧.fields };

    ghost fits = { (refl, refl) };
}

/// Decodes the fields, first to last. The errors are those that [`Sequence`] lists.
impl<'a, R: Lends<Borrowed = &'a [u8]>> DecodeValue<R> for CertId<'a> {
    type Error = Error;

    ghost decode_value_answers = { λ h s result t.
        ⟦<CertIdFields<'a> as Decode<SliceReader<'a>>>⟧.decode_answers s (map_ok
        ⟦<CertId<'a> as FromFields<CertIdFields<'a>>>⟧.fields result) t };

    fn decode_value(alloc: Global, reader: &mut R, header: Header) -> Result<Self, Error>
    where
        R: Reader,
    {
        decode_sequence::<R, CertIdFields<'a>, Self>(alloc, reader, header)
    }
}

impl<'a> IsValue for CertId<'a> {
    fn is_value(&self) {
        self.hash_algorithm.is_value();
        self.issuer_name_hash.is_value();
        self.issuer_key_hash.is_value();
        self.serial_number.is_value();
    }
}

/// Writes the fields, first to last. The errors are those that [`Sequence`] lists.
impl<'a> HasFields for CertId<'a> {
    ghost fields_size = { λ v. ⟦<CertIdFields<'a> as Encode>⟧.size
        (⟦<CertId<'a> as FromFields<CertIdFields<'a>>>⟧.fields v) };

    ghost fields_answers = { λ v. ⟦<CertIdFields<'a> as Encode>⟧.encode_answers
        (⟦<CertId<'a> as FromFields<CertIdFields<'a>>>⟧.fields v) };

    fn call_fields<S, C: FieldsCall<S>>(
        &self,
        call: &C,
        state: &mut S,
        buf: &mut [u8],
    ) -> C::Output {
        call.call(
            &field_refs!(
                self,
                (
                    hash_algorithm,
                    issuer_name_hash,
                    issuer_key_hash,
                    serial_number
                )
            ),
            state,
            buf,
        )
    }
}

impl<'a> Item for CertId<'a> {
    ghost item = { sequence_item ⟦<CertId<'a> as Described>⟧.element };
}

impl<'a> LawfulItem for CertId<'a> {
    ghost is_lawful_item = { is_lawful_item ⟦<CertId<'a> as Described>⟧.element refl };
}
