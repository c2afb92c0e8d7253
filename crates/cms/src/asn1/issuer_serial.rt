//! Written by asn1_compile from the module CMS: change the module instead.
//!
//! IssuerSerial.
ghost use Rattle.std.specs.Prelude.{◌≡◌};
ghost use Rattle.std.proofs.Common.{refl};
ghost use Rattle.der.specs.Prelude.{map_ok};
ghost use Rattle.der_asn1.specs.Meaning.{alternative, field, is_lawful_item, sequence, sequence_item, two_fields};

use der::{
    Decode, DecodeValue, Encode, Error, FieldsCall, FromFields, HasFields, Header, IsValue, Lends,
    Reader, Sequence, SliceReader, decode_sequence, field_refs,
};
use der_asn1::{Described, Item, LawfulItem};
use std::alloc::Global;
use x509::{CertificateSerialNumber, GeneralNames};

/// The issuer and the serial number of a certificate (RFC 5035, 6), borrowed from the input.
#[derive(Clone, Copy, Debug, Drop, PartialEq, Eq)]
pub struct IssuerSerial<'a> {
    /// The names of the issuer. The RFC requires that there is one, a directoryName, for a
    /// certificate of a public key, but decoding does not check this.
    pub issuer: GeneralNames<'a>,
    /// The serial number of the certificate.
    pub serial_number: CertificateSerialNumber<'a>,
}

/// The fields of [`IssuerSerial`] as one type, in the order in which they are encoded.
pub type IssuerSerialFields<'a> = (GeneralNames<'a>, CertificateSerialNumber<'a>);

impl<'a> FromFields<IssuerSerialFields<'a>> for IssuerSerial<'a> {
    ghost fields = { λ v. (v.issuer, v.serial_number) };

    fn from_fields(fields: IssuerSerialFields<'a>) -> Self {
        let (issuer, serial_number) = fields;
        IssuerSerial {
            issuer,
            serial_number,
        }
    }
}

impl<'a> Sequence for IssuerSerial<'a> {
    ghost meaning = { sequence (two_fields (field (alternative
        ⟦<GeneralNames<'a> as Described>⟧.element)) (field (alternative
        ⟦<CertificateSerialNumber<'a> as Described>⟧.element)))
        ⟦<IssuerSerial<'a> as FromFields<IssuerSerialFields<'a>>>⟧.fields };

    ghost fits = { (refl, refl) };
}

/// Decodes the fields, first to last. The errors are those that [`Sequence`] lists.
impl<'a, R: Lends<Borrowed = &'a [u8]>> DecodeValue<R> for IssuerSerial<'a> {
    type Error = Error;

    ghost decode_value_answers = { λ h s result t.
        ⟦<IssuerSerialFields<'a> as Decode<SliceReader<'a>>>⟧.decode_answers s (map_ok
        ⟦<IssuerSerial<'a> as FromFields<IssuerSerialFields<'a>>>⟧.fields result) t };

    fn decode_value(alloc: Global, reader: &mut R, header: Header) -> Result<Self, Error>
    where
        R: Reader,
    {
        decode_sequence::<R, IssuerSerialFields<'a>, Self>(alloc, reader, header)
    }
}

impl<'a> IsValue for IssuerSerial<'a> {
    fn is_value(&self) {
        self.issuer.is_value();
        self.serial_number.is_value();
    }
}

/// Writes the fields, first to last. The errors are those that [`Sequence`] lists.
impl<'a> HasFields for IssuerSerial<'a> {
    ghost fields_size = { λ v. ⟦<IssuerSerialFields<'a> as Encode>⟧.size
        (⟦<IssuerSerial<'a> as FromFields<IssuerSerialFields<'a>>>⟧.fields v) };

    ghost fields_answers = { λ v. ⟦<IssuerSerialFields<'a> as Encode>⟧.encode_answers
        (⟦<IssuerSerial<'a> as FromFields<IssuerSerialFields<'a>>>⟧.fields v) };

    fn call_fields<S, C: FieldsCall<S>>(
        &self,
        call: &C,
        state: &mut S,
        buf: &mut [u8],
    ) -> C::Output {
        call.call(&field_refs!(self, (issuer, serial_number)), state, buf)
    }
}

impl<'a> Item for IssuerSerial<'a> {
    ghost item = { sequence_item ⟦<IssuerSerial<'a> as Described>⟧.element };
}

impl<'a> LawfulItem for IssuerSerial<'a> {
    ghost is_lawful_item = { is_lawful_item ⟦<IssuerSerial<'a> as Described>⟧.element refl };
}
