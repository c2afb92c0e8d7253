//! Written by asn1_compile from the module X509: change the module instead.
//!
//! AuthorityKeyIdentifier.
ghost use Rattle.std.specs.Prelude.{◌≡◌};
ghost use Rattle.std.proofs.Common.{refl};
ghost use Rattle.der.specs.Prelude.{map_ok};
ghost use Rattle.der_asn1.specs.Meaning.{alternative, is_lawful_item, optional, sequence, sequence_item};
ghost use Rattle.der_asn1.specs.TupleFields.{three_fields};

use crate::asn1::certificate_serial_number::CertificateSerialNumber;
use crate::asn1::general_names::GeneralNames;
use crate::asn1::key_identifier::KeyIdentifier;
use der::{
    Decode, DecodeValue, Encode, Error, FieldsCall, FromFields, HasFields, Header, IsValue, Lends,
    Reader, Sequence, SliceReader, decode_sequence, field_refs,
};
use der_asn1::{Described, Implicit, Item, LawfulItem, Optional};
use std::alloc::Global;

/// Which key of the issuer signed the certificate or the list (RFC 5280, 4.2.1.1 and 5.2.1),
/// borrowed from the input.
#[derive(Clone, Copy, Debug, Drop, PartialEq, Eq)]
pub struct AuthorityKeyIdentifier<'a> {
    /// The identifier of the issuer's key, if present.
    pub key_identifier: Optional<Implicit<KeyIdentifier<'a>, 0>>,
    /// The issuer of the issuer's certificate, if present. The RFC requires it exactly if the
    /// serial number is present, but decoding does not check this.
    pub authority_cert_issuer: Optional<Implicit<GeneralNames<'a>, 1>>,
    /// The serial number of the issuer's certificate, if present.
    pub authority_cert_serial_number: Optional<Implicit<CertificateSerialNumber<'a>, 2>>,
}

/// The fields of [`AuthorityKeyIdentifier`] as one type, in the order in which they are encoded.
pub type AuthorityKeyIdentifierFields<'a> = (
    Optional<Implicit<KeyIdentifier<'a>, 0>>,
    Optional<Implicit<GeneralNames<'a>, 1>>,
    Optional<Implicit<CertificateSerialNumber<'a>, 2>>,
);

impl<'a> FromFields<AuthorityKeyIdentifierFields<'a>> for AuthorityKeyIdentifier<'a> {
    ghost fields = { λ v. (
      v.key_identifier,
      v.authority_cert_issuer,
      v.authority_cert_serial_number,
    ) };

    fn from_fields(fields: AuthorityKeyIdentifierFields<'a>) -> Self {
        let (key_identifier, authority_cert_issuer, authority_cert_serial_number) = fields;
        AuthorityKeyIdentifier {
            key_identifier,
            authority_cert_issuer,
            authority_cert_serial_number,
        }
    }
}

impl<'a> Sequence for AuthorityKeyIdentifier<'a> {
    ghost meaning = { sequence (three_fields (optional (alternative
        ⟦<Implicit<KeyIdentifier<'a>, 0> as Described>⟧.element)) (optional (alternative
        ⟦<Implicit<GeneralNames<'a>, 1> as Described>⟧.element)) (optional (alternative
        ⟦<Implicit<CertificateSerialNumber<'a>, 2> as Described>⟧.element)))
        ⟦<AuthorityKeyIdentifier<'a> as FromFields<AuthorityKeyIdentifierFields<'a>>>⟧.fields };

    ghost fits = { (refl, refl) };
}

/// Decodes the fields, first to last. The errors are those that [`Sequence`] lists.
impl<'a, R: Lends<Borrowed = &'a [u8]>> DecodeValue<R> for AuthorityKeyIdentifier<'a> {
    type Error = Error;

    ghost decode_value_answers = { λ h s result t.
        ⟦<AuthorityKeyIdentifierFields<'a> as Decode<SliceReader<'a>>>⟧.decode_answers s (map_ok
        ⟦<AuthorityKeyIdentifier<'a> as FromFields<AuthorityKeyIdentifierFields<'a>>>⟧.fields result) t };

    fn decode_value(alloc: Global, reader: &mut R, header: Header) -> Result<Self, Error>
    where
        R: Reader,
    {
        decode_sequence::<R, AuthorityKeyIdentifierFields<'a>, Self>(alloc, reader, header)
    }
}

impl<'a> IsValue for AuthorityKeyIdentifier<'a> {
    fn is_value(&self) {
        if let Some(value) = &self.key_identifier.0 {
            value.is_value();
        }
        if let Some(value) = &self.authority_cert_issuer.0 {
            value.is_value();
        }
        if let Some(value) = &self.authority_cert_serial_number.0 {
            value.is_value();
        }
    }
}

/// Writes the fields, first to last. The errors are those that [`Sequence`] lists.
impl<'a> HasFields for AuthorityKeyIdentifier<'a> {
    ghost fields_size = { λ v. ⟦<AuthorityKeyIdentifierFields<'a> as Encode>⟧.size
        (⟦<AuthorityKeyIdentifier<'a> as FromFields<AuthorityKeyIdentifierFields<'a>>>⟧.fields v) };

    ghost fields_answers = { λ v. ⟦<AuthorityKeyIdentifierFields<'a> as Encode>⟧.encode_answers
        (⟦<AuthorityKeyIdentifier<'a> as FromFields<AuthorityKeyIdentifierFields<'a>>>⟧.fields v) };

    fn call_fields<S, C: FieldsCall<S>>(
        &self,
        call: &C,
        state: &mut S,
        buf: &mut [u8],
    ) -> C::Output {
        call.call(
            &field_refs!(
                self,
                (
                    key_identifier,
                    authority_cert_issuer,
                    authority_cert_serial_number
                )
            ),
            state,
            buf,
        )
    }
}

impl<'a> Item for AuthorityKeyIdentifier<'a> {
    ghost item = { sequence_item ⟦<AuthorityKeyIdentifier<'a> as Described>⟧.element };
}

impl<'a> LawfulItem for AuthorityKeyIdentifier<'a> {
    ghost is_lawful_item = { is_lawful_item
        ⟦<AuthorityKeyIdentifier<'a> as Described>⟧.element refl };
}
