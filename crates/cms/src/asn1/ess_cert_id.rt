//! Written by asn1_compile from the module CMS: change the module instead.
//!
//! EssCertId.
ghost use Rattle.std.specs.Prelude.{◌≡◌};
ghost use Rattle.std.proofs.Common.{refl};
ghost use Rattle.der.specs.Prelude.{map_ok};
ghost use Rattle.der_asn1.specs.Meaning.{alternative, field, is_lawful_item, optional, sequence, sequence_item, two_fields};

use crate::asn1::issuer_serial::IssuerSerial;
use der::{
    Decode, DecodeValue, Encode, Error, FieldsCall, FromFields, HasFields, Header, IsValue, Lends,
    Reader, Sequence, SliceReader, decode_sequence, field_refs,
};
use der_asn1::{Described, Item, LawfulItem, OctetStringRef, Optional};
use std::alloc::Global;

/// What identifies a certificate: its SHA-1 hash (RFC 5035, 6), borrowed from the input.
#[derive(Clone, Copy, Debug, Drop, PartialEq, Eq)]
pub struct EssCertId<'a> {
    /// The SHA-1 hash of the certificate. The number of its octets is not checked.
    pub cert_hash: OctetStringRef<'a>,
    /// The issuer and the serial number of the certificate, if present.
    pub issuer_serial: Optional<IssuerSerial<'a>>,
}

/// The fields of [`EssCertId`] as one type, in the order in which they are encoded.
pub type EssCertIdFields<'a> = (OctetStringRef<'a>, Optional<IssuerSerial<'a>>);

impl<'a> FromFields<EssCertIdFields<'a>> for EssCertId<'a> {
    ghost fields = { λ v. (v.cert_hash, v.issuer_serial) };

    fn from_fields(fields: EssCertIdFields<'a>) -> Self {
        let (cert_hash, issuer_serial) = fields;
        EssCertId {
            cert_hash,
            issuer_serial,
        }
    }
}

impl<'a> Sequence for EssCertId<'a> {
    ghost meaning = { sequence (two_fields (field (alternative
        ⟦<OctetStringRef<'a> as Described>⟧.element)) (optional (alternative
        ⟦<IssuerSerial<'a> as Described>⟧.element)))
        ⟦<EssCertId<'a> as FromFields<EssCertIdFields<'a>>>⟧.fields };

    ghost fits = { (refl, refl) };
}

/// Decodes the fields, first to last. The errors are those that [`Sequence`] lists.
impl<'a, R: Lends<Borrowed = &'a [u8]>> DecodeValue<R> for EssCertId<'a> {
    type Error = Error;

    ghost decode_value_answers = { λ h s result t.
        ⟦<EssCertIdFields<'a> as Decode<SliceReader<'a>>>⟧.decode_answers s (map_ok
        ⟦<EssCertId<'a> as FromFields<EssCertIdFields<'a>>>⟧.fields result) t };

    fn decode_value(alloc: Global, reader: &mut R, header: Header) -> Result<Self, Error>
    where
        R: Reader,
    {
        decode_sequence::<R, EssCertIdFields<'a>, Self>(alloc, reader, header)
    }
}

impl<'a> IsValue for EssCertId<'a> {
    fn is_value(&self) {
        self.cert_hash.is_value();
        if let Some(value) = &self.issuer_serial.0 {
            value.is_value();
        }
    }
}

/// Writes the fields, first to last. The errors are those that [`Sequence`] lists.
impl<'a> HasFields for EssCertId<'a> {
    ghost fields_size = { λ v. ⟦<EssCertIdFields<'a> as Encode>⟧.size
        (⟦<EssCertId<'a> as FromFields<EssCertIdFields<'a>>>⟧.fields v) };

    ghost fields_answers = { λ v. ⟦<EssCertIdFields<'a> as Encode>⟧.encode_answers
        (⟦<EssCertId<'a> as FromFields<EssCertIdFields<'a>>>⟧.fields v) };

    fn call_fields<S, C: FieldsCall<S>>(
        &self,
        call: &C,
        state: &mut S,
        buf: &mut [u8],
    ) -> C::Output {
        call.call(&field_refs!(self, (cert_hash, issuer_serial)), state, buf)
    }
}

impl<'a> Item for EssCertId<'a> {
    ghost item = { sequence_item ⟦<EssCertId<'a> as Described>⟧.element };
}

impl<'a> LawfulItem for EssCertId<'a> {
    ghost is_lawful_item = { is_lawful_item ⟦<EssCertId<'a> as Described>⟧.element refl };
}
