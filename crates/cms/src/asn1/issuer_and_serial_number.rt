//! Written by asn1_compile from the module CMS: change the module instead.
//!
//! IssuerAndSerialNumber.
ghost use Rattle.std.specs.Prelude.{◌≡◌};
ghost use Rattle.std.proofs.Common.{refl};
ghost use Rattle.der.specs.Prelude.{map_ok};
ghost use Rattle.der_asn1.specs.Meaning.{alternative, field, is_lawful_item, sequence, sequence_item, two_fields};

use der::{
    Decode, DecodeValue, Encode, Error, FieldsCall, FromFields, HasFields, Header, IsValue, Lends,
    Reader, Sequence, SliceReader, decode_sequence, field_refs,
};
use der_asn1::{Described, Item, LawfulItem};
use std::alloc::Global;
use x509::{CertificateSerialNumber, Name};

/// The issuer and the serial number of a certificate (RFC 5652, 10.2.4), borrowed from the input.
#[derive(Clone, Copy, Debug, Drop, PartialEq, Eq)]
pub struct IssuerAndSerialNumber<'a> {
    /// The issuer of the certificate.
    pub issuer: Name<'a>,
    /// The serial number of the certificate.
    pub serial_number: CertificateSerialNumber<'a>,
}

/// The fields of [`IssuerAndSerialNumber`] as one type, in the order in which they are encoded.
pub type IssuerAndSerialNumberFields<'a> = (Name<'a>, CertificateSerialNumber<'a>);

impl<'a> FromFields<IssuerAndSerialNumberFields<'a>> for IssuerAndSerialNumber<'a> {
    ghost fields = { λ v. (v.issuer, v.serial_number) };

    fn from_fields(fields: IssuerAndSerialNumberFields<'a>) -> Self {
        let (issuer, serial_number) = fields;
        IssuerAndSerialNumber {
            issuer,
            serial_number,
        }
    }
}

impl<'a> Sequence for IssuerAndSerialNumber<'a> {
    ghost meaning = { sequence (two_fields (field (alternative ⟦<Name<'a> as Described>⟧.element))
        (field (alternative ⟦<CertificateSerialNumber<'a> as Described>⟧.element)))
        ⟦<IssuerAndSerialNumber<'a> as FromFields<IssuerAndSerialNumberFields<'a>>>⟧.fields };

    ghost fits = { (refl, refl) };
}

/// Decodes the fields, first to last. The errors are those that [`Sequence`] lists.
impl<'a, R: Lends<Borrowed = &'a [u8]>> DecodeValue<R> for IssuerAndSerialNumber<'a> {
    type Error = Error;

    ghost decode_value_answers = { λ h s result t.
        ⟦<IssuerAndSerialNumberFields<'a> as Decode<SliceReader<'a>>>⟧.decode_answers s (map_ok
        ⟦<IssuerAndSerialNumber<'a> as FromFields<IssuerAndSerialNumberFields<'a>>>⟧.fields result) t };

    fn decode_value(alloc: Global, reader: &mut R, header: Header) -> Result<Self, Error>
    where
        R: Reader,
    {
        decode_sequence::<R, IssuerAndSerialNumberFields<'a>, Self>(alloc, reader, header)
    }
}

impl<'a> IsValue for IssuerAndSerialNumber<'a> {
    fn is_value(&self) {
        self.issuer.is_value();
        self.serial_number.is_value();
    }
}

/// Writes the fields, first to last. The errors are those that [`Sequence`] lists.
impl<'a> HasFields for IssuerAndSerialNumber<'a> {
    ghost fields_size = { λ v. ⟦<IssuerAndSerialNumberFields<'a> as Encode>⟧.size
        (⟦<IssuerAndSerialNumber<'a> as FromFields<IssuerAndSerialNumberFields<'a>>>⟧.fields v) };

    ghost fields_answers = { λ v. ⟦<IssuerAndSerialNumberFields<'a> as Encode>⟧.encode_answers
        (⟦<IssuerAndSerialNumber<'a> as FromFields<IssuerAndSerialNumberFields<'a>>>⟧.fields v) };

    fn call_fields<S, C: FieldsCall<S>>(
        &self,
        call: &C,
        state: &mut S,
        buf: &mut [u8],
    ) -> C::Output {
        call.call(&field_refs!(self, (issuer, serial_number)), state, buf)
    }
}

impl<'a> Item for IssuerAndSerialNumber<'a> {
    ghost item = { sequence_item ⟦<IssuerAndSerialNumber<'a> as Described>⟧.element };
}

impl<'a> LawfulItem for IssuerAndSerialNumber<'a> {
    ghost is_lawful_item = { is_lawful_item
        ⟦<IssuerAndSerialNumber<'a> as Described>⟧.element refl };
}
