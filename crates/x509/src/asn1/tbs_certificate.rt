//! Written by asn1_compile from the module X509: change the module instead.
//!
//! TbsCertificate.
ghost use Rattle.std.specs.Prelude.{◌≡◌};
ghost use Rattle.std.proofs.Common.{refl};
ghost use Rattle.der.specs.Prelude.{map_ok};
ghost use Rattle.der_asn1.specs.Meaning.{alternative, defaulted, field, is_lawful_item, optional, sequence, sequence_item};
ghost use Rattle.der_asn1.specs.TupleFields.{ten_fields};

use crate::Version;
use crate::asn1::certificate_serial_number::CertificateSerialNumber;
use crate::asn1::extensions::Extensions;
use crate::asn1::name::Name;
use crate::asn1::validity::Validity;
use der::{
    Decode, DecodeValue, Encode, Error, FieldsCall, FromFields, HasFields, Header, IsValue, Lends,
    Reader, Sequence, SliceReader, decode_sequence, field_refs,
};
use der_asn1::{
    BitStringRef, DefaultValue, Defaulted, Described, Explicit, Implicit, Item, LawfulItem,
    Optional,
};
use spki::{AlgorithmIdentifierRef, SubjectPublicKeyInfoRef};
use std::alloc::Global;

/// The part of a certificate that its signature covers (RFC 5280, 4.1.2), borrowed from the input.
#[derive(Clone, Copy, Debug, Drop, PartialEq, Eq)]
pub struct TbsCertificate<'a> {
    /// The version of the certificate: 1, 2 or 3. The default is 1.
    pub version: Defaulted<Explicit<Version<'a>, 0>>,
    /// The serial number of the certificate.
    pub serial_number: CertificateSerialNumber<'a>,
    /// The algorithm of the certificate's signature. The signature itself is a field of the
    /// Certificate.
    pub signature: AlgorithmIdentifierRef<'a>,
    /// The issuer of the certificate.
    pub issuer: Name<'a>,
    /// The period in which the certificate is valid.
    pub validity: Validity,
    /// The subject of the certificate.
    pub subject: Name<'a>,
    /// The public key of the subject.
    pub subject_public_key_info: SubjectPublicKeyInfoRef<'a>,
    /// A unique identifier of the issuer, if present. Only versions 2 and 3 allow it, but decoding
    /// does not check this.
    pub issuer_unique_id: Optional<Implicit<BitStringRef<'a>, 1>>,
    /// A unique identifier of the subject, if present. Only versions 2 and 3 allow it, but decoding
    /// does not check this.
    pub subject_unique_id: Optional<Implicit<BitStringRef<'a>, 2>>,
    /// The extensions, if present. Only version 3 allows them, but decoding does not check this.
    pub extensions: Optional<Explicit<Extensions<'a>, 3>>,
}

/// The fields of [`TbsCertificate`] as one type, in the order in which they are encoded.
pub type TbsCertificateFields<'a> = (
    Defaulted<Explicit<Version<'a>, 0>>,
    CertificateSerialNumber<'a>,
    AlgorithmIdentifierRef<'a>,
    Name<'a>,
    Validity,
    Name<'a>,
    SubjectPublicKeyInfoRef<'a>,
    Optional<Implicit<BitStringRef<'a>, 1>>,
    Optional<Implicit<BitStringRef<'a>, 2>>,
    Optional<Explicit<Extensions<'a>, 3>>,
);

impl<'a> FromFields<TbsCertificateFields<'a>> for TbsCertificate<'a> {
    ghost fields = { λ v. (
      v.version,
      v.serial_number,
      v.signature,
      v.issuer,
      v.validity,
      v.subject,
      v.subject_public_key_info,
      v.issuer_unique_id,
      v.subject_unique_id,
      v.extensions,
    ) };

    fn from_fields(fields: TbsCertificateFields<'a>) -> Self {
        let (
            version,
            serial_number,
            signature,
            issuer,
            validity,
            subject,
            subject_public_key_info,
            issuer_unique_id,
            subject_unique_id,
            extensions,
        ) = fields;
        TbsCertificate {
            version,
            serial_number,
            signature,
            issuer,
            validity,
            subject,
            subject_public_key_info,
            issuer_unique_id,
            subject_unique_id,
            extensions,
        }
    }
}

impl<'a> Sequence for TbsCertificate<'a> {
    ghost meaning = { sequence (ten_fields (defaulted
        ⟦<Explicit<Version<'a>, 0> as DefaultValue>⟧.is_default (alternative
        ⟦<Explicit<Version<'a>, 0> as Described>⟧.element)) (field (alternative
        ⟦<CertificateSerialNumber<'a> as Described>⟧.element)) (field (alternative
        ⟦<AlgorithmIdentifierRef<'a> as Described>⟧.element)) (field (alternative
        ⟦<Name<'a> as Described>⟧.element)) (field (alternative ⟦<Validity as Described>⟧.element))
        (field (alternative ⟦<Name<'a> as Described>⟧.element)) (field (alternative
        ⟦<SubjectPublicKeyInfoRef<'a> as Described>⟧.element)) (optional (alternative
        ⟦<Implicit<BitStringRef<'a>, 1> as Described>⟧.element)) (optional (alternative
        ⟦<Implicit<BitStringRef<'a>, 2> as Described>⟧.element)) (optional (alternative
        ⟦<Explicit<Extensions<'a>, 3> as Described>⟧.element)))
        ⟦<TbsCertificate<'a> as FromFields<TbsCertificateFields<'a>>>⟧.fields };

    ghost fits = { (refl, refl) };
}

/// Decodes the fields, first to last. The errors are those that [`Sequence`] lists.
impl<'a, R: Lends<Borrowed = &'a [u8]>> DecodeValue<R> for TbsCertificate<'a> {
    type Error = Error;

    ghost decode_value_answers = { λ h s result t.
        ⟦<TbsCertificateFields<'a> as Decode<SliceReader<'a>>>⟧.decode_answers s (map_ok
        ⟦<TbsCertificate<'a> as FromFields<TbsCertificateFields<'a>>>⟧.fields result) t };

    fn decode_value(alloc: Global, reader: &mut R, header: Header) -> Result<Self, Error>
    where
        R: Reader,
    {
        decode_sequence::<R, TbsCertificateFields<'a>, Self>(alloc, reader, header)
    }
}

impl<'a> IsValue for TbsCertificate<'a> {
    fn is_value(&self) {
        self.version.0.is_value();
        self.serial_number.is_value();
        self.signature.is_value();
        self.issuer.is_value();
        self.validity.is_value();
        self.subject.is_value();
        self.subject_public_key_info.is_value();
        if let Some(value) = &self.issuer_unique_id.0 {
            value.is_value();
        }
        if let Some(value) = &self.subject_unique_id.0 {
            value.is_value();
        }
        if let Some(value) = &self.extensions.0 {
            value.is_value();
        }
    }
}

/// Writes the fields, first to last. The errors are those that [`Sequence`] lists.
impl<'a> HasFields for TbsCertificate<'a> {
    ghost fields_size = { λ v. ⟦<TbsCertificateFields<'a> as Encode>⟧.size
        (⟦<TbsCertificate<'a> as FromFields<TbsCertificateFields<'a>>>⟧.fields v) };

    ghost fields_answers = { λ v. ⟦<TbsCertificateFields<'a> as Encode>⟧.encode_answers
        (⟦<TbsCertificate<'a> as FromFields<TbsCertificateFields<'a>>>⟧.fields v) };

    fn call_fields<S, C: FieldsCall<S>>(
        &self,
        call: &C,
        state: &mut S,
        buf: &mut [u8],
    ) -> C::Output {
        call.call(
            &field_refs!(
                self,
                (
                    version,
                    serial_number,
                    signature,
                    issuer,
                    validity,
                    subject,
                    subject_public_key_info,
                    issuer_unique_id,
                    subject_unique_id,
                    extensions
                )
            ),
            state,
            buf,
        )
    }
}

impl<'a> Item for TbsCertificate<'a> {
    ghost item = { sequence_item ⟦<TbsCertificate<'a> as Described>⟧.element };
}

impl<'a> LawfulItem for TbsCertificate<'a> {
    ghost is_lawful_item = { is_lawful_item ⟦<TbsCertificate<'a> as Described>⟧.element refl };
}
