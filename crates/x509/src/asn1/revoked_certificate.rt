//! Written by asn1_compile from the module X509: change the module instead.
//!
//! RevokedCertificate.
ghost use Rattle.std.specs.Prelude.{◌≡◌};
ghost use Rattle.std.proofs.Common.{refl};
ghost use Rattle.der.specs.Prelude.{map_ok};
ghost use Rattle.der_asn1.specs.Meaning.{alternative, field, is_lawful_item, optional, sequence, sequence_item};
ghost use Rattle.der_asn1.specs.TupleFields.{three_fields};

use crate::asn1::certificate_serial_number::CertificateSerialNumber;
use crate::asn1::extensions::Extensions;
use crate::asn1::time::Time;
use der::{
    Decode, DecodeValue, Encode, Error, FieldsCall, FromFields, HasFields, Header, IsValue, Lends,
    Reader, Sequence, SliceReader, decode_sequence, field_refs,
};
use der_asn1::{Described, DescribedChoice, Item, LawfulItem, Optional};
use std::alloc::Global;

/// An entry of a revocation list (RFC 5280, 5.1.2.6), borrowed from the input.
#[derive(Clone, Copy, Debug, Drop, PartialEq, Eq)]
pub struct RevokedCertificate<'a> {
    /// The serial number of the revoked certificate.
    pub user_certificate: CertificateSerialNumber<'a>,
    /// When the certificate was revoked.
    pub revocation_date: Time,
    /// The extensions of the entry, if present. Only version 2 allows them, but decoding does not
    /// check this.
    pub crl_entry_extensions: Optional<Extensions<'a>>,
}

/// The fields of [`RevokedCertificate`] as one type, in the order in which they are encoded.
pub type RevokedCertificateFields<'a> = (
    CertificateSerialNumber<'a>,
    Time,
    Optional<Extensions<'a>>,
);

impl<'a> FromFields<RevokedCertificateFields<'a>> for RevokedCertificate<'a> {
    ghost fields = { λ v. (v.user_certificate, v.revocation_date, v.crl_entry_extensions) };

    fn from_fields(fields: RevokedCertificateFields<'a>) -> Self {
        let (user_certificate, revocation_date, crl_entry_extensions) = fields;
        RevokedCertificate {
            user_certificate,
            revocation_date,
            crl_entry_extensions,
        }
    }
}

impl<'a> Sequence for RevokedCertificate<'a> {
    ghost meaning = { sequence (three_fields (field (alternative
        ⟦<CertificateSerialNumber<'a> as Described>⟧.element)) (field
        ⟦<Time as DescribedChoice>⟧.alternative) (optional (alternative
        ⟦<Extensions<'a> as Described>⟧.element)))
        ⟦<RevokedCertificate<'a> as FromFields<RevokedCertificateFields<'a>>>⟧.fields };

    ghost fits = { (refl, refl) };
}

/// Decodes the fields, first to last. The errors are those that [`Sequence`] lists.
impl<'a, R: Lends<Borrowed = &'a [u8]>> DecodeValue<R> for RevokedCertificate<'a> {
    type Error = Error;

    ghost decode_value_answers = { λ h s result t.
        ⟦<RevokedCertificateFields<'a> as Decode<SliceReader<'a>>>⟧.decode_answers s (map_ok
        ⟦<RevokedCertificate<'a> as FromFields<RevokedCertificateFields<'a>>>⟧.fields result) t };

    fn decode_value(alloc: Global, reader: &mut R, header: Header) -> Result<Self, Error>
    where
        R: Reader,
    {
        decode_sequence::<R, RevokedCertificateFields<'a>, Self>(alloc, reader, header)
    }
}

impl<'a> IsValue for RevokedCertificate<'a> {
    fn is_value(&self) {
        self.user_certificate.is_value();
        match &self.revocation_date {
            Time::UtcTime(value) => value.is_value(),
            Time::GeneralTime(value) => value.is_value(),
        }
        if let Some(value) = &self.crl_entry_extensions.0 {
            value.is_value();
        }
    }
}

/// Writes the fields, first to last. The errors are those that [`Sequence`] lists.
impl<'a> HasFields for RevokedCertificate<'a> {
    ghost fields_size = { λ v. ⟦<RevokedCertificateFields<'a> as Encode>⟧.size
        (⟦<RevokedCertificate<'a> as FromFields<RevokedCertificateFields<'a>>>⟧.fields v) };

    ghost fields_answers = { λ v. ⟦<RevokedCertificateFields<'a> as Encode>⟧.encode_answers
        (⟦<RevokedCertificate<'a> as FromFields<RevokedCertificateFields<'a>>>⟧.fields v) };

    fn call_fields<S, C: FieldsCall<S>>(
        &self,
        call: &C,
        state: &mut S,
        buf: &mut [u8],
    ) -> C::Output {
        call.call(
            &field_refs!(
                self,
                (user_certificate, revocation_date, crl_entry_extensions)
            ),
            state,
            buf,
        )
    }
}

impl<'a> Item for RevokedCertificate<'a> {
    ghost item = { sequence_item ⟦<RevokedCertificate<'a> as Described>⟧.element };
}

impl<'a> LawfulItem for RevokedCertificate<'a> {
    ghost is_lawful_item = { is_lawful_item ⟦<RevokedCertificate<'a> as Described>⟧.element refl };
}
