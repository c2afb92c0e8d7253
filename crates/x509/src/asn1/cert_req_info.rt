//! Written by asn1_compile from the module X509: change the module instead.
//!
//! CertReqInfo.
ghost use Rattle.std.specs.Prelude.{◌≡◌};
ghost use Rattle.std.proofs.Common.{refl};
ghost use Rattle.der.specs.Prelude.{map_ok};
ghost use Rattle.der_asn1.specs.Meaning.{alternative, field, is_lawful_item, sequence, sequence_item};
ghost use Rattle.der_asn1.specs.TupleFields.{four_fields};

use crate::asn1::attributes::Attributes;
use crate::asn1::cert_req_version::CertReqVersion;
use crate::asn1::name::Name;
use der::{
    Decode, DecodeValue, Encode, Error, FieldsCall, FromFields, HasFields, Header, IsValue, Lends,
    Reader, Sequence, SliceReader, decode_sequence, field_refs,
};
use der_asn1::{Described, Implicit, Item, LawfulItem, NamedInteger};
use spki::SubjectPublicKeyInfoRef;
use std::alloc::Global;

/// The part of a certification request that its signature covers (RFC 2986, 4.1), borrowed from the
/// input.
#[derive(Clone, Copy, Debug, Drop, PartialEq, Eq)]
pub struct CertReqInfo<'a> {
    /// The version of the request. Only version 1 is accepted.
    pub version: NamedInteger<CertReqVersion>,
    /// The subject of the requested certificate.
    pub subject: Name<'a>,
    /// The public key of the requested certificate.
    pub public_key: SubjectPublicKeyInfoRef<'a>,
    /// The attributes of the request: further information about the subject, or further requests,
    /// such as the extensions that the certificate should have.
    pub attributes: Implicit<Attributes<'a>, 0>,
}

/// The fields of [`CertReqInfo`] as one type, in the order in which they are encoded.
pub type CertReqInfoFields<'a> = (
    NamedInteger<CertReqVersion>,
    Name<'a>,
    SubjectPublicKeyInfoRef<'a>,
    Implicit<Attributes<'a>, 0>,
);

impl<'a> FromFields<CertReqInfoFields<'a>> for CertReqInfo<'a> {
    ghost fields = { λ v. (v.version, v.subject, v.public_key, v.attributes) };

    fn from_fields(fields: CertReqInfoFields<'a>) -> Self {
        let (version, subject, public_key, attributes) = fields;
        CertReqInfo {
            version,
            subject,
            public_key,
            attributes,
        }
    }
}

impl<'a> Sequence for CertReqInfo<'a> {
    ghost meaning = { sequence (four_fields (field (alternative
        ⟦<NamedInteger<CertReqVersion> as Described>⟧.element)) (field (alternative
        ⟦<Name<'a> as Described>⟧.element)) (field (alternative
        ⟦<SubjectPublicKeyInfoRef<'a> as Described>⟧.element)) (field (alternative
        ⟦<Implicit<Attributes<'a>, 0> as Described>⟧.element)))
        ⟦<CertReqInfo<'a> as FromFields<CertReqInfoFields<'a>>>⟧.fields };

    ghost fits = { (refl, refl) };
}

/// Decodes the fields, first to last. The errors are those that [`Sequence`] lists.
impl<'a, R: Lends<Borrowed = &'a [u8]>> DecodeValue<R> for CertReqInfo<'a> {
    type Error = Error;

    ghost decode_value_answers = { λ h s result t.
        ⟦<CertReqInfoFields<'a> as Decode<SliceReader<'a>>>⟧.decode_answers s (map_ok
        ⟦<CertReqInfo<'a> as FromFields<CertReqInfoFields<'a>>>⟧.fields result) t };

    fn decode_value(alloc: Global, reader: &mut R, header: Header) -> Result<Self, Error>
    where
        R: Reader,
    {
        decode_sequence::<R, CertReqInfoFields<'a>, Self>(alloc, reader, header)
    }
}

impl<'a> IsValue for CertReqInfo<'a> {
    fn is_value(&self) {
        self.version.is_value();
        self.subject.is_value();
        self.public_key.is_value();
        self.attributes.is_value();
    }
}

/// Writes the fields, first to last. The errors are those that [`Sequence`] lists.
impl<'a> HasFields for CertReqInfo<'a> {
    ghost fields_size = { λ v. ⟦<CertReqInfoFields<'a> as Encode>⟧.size
        (⟦<CertReqInfo<'a> as FromFields<CertReqInfoFields<'a>>>⟧.fields v) };

    ghost fields_answers = { λ v. ⟦<CertReqInfoFields<'a> as Encode>⟧.encode_answers
        (⟦<CertReqInfo<'a> as FromFields<CertReqInfoFields<'a>>>⟧.fields v) };

    fn call_fields<S, C: FieldsCall<S>>(
        &self,
        call: &C,
        state: &mut S,
        buf: &mut [u8],
    ) -> C::Output {
        call.call(
            &field_refs!(self, (version, subject, public_key, attributes)),
            state,
            buf,
        )
    }
}

impl<'a> Item for CertReqInfo<'a> {
    ghost item = { sequence_item ⟦<CertReqInfo<'a> as Described>⟧.element };
}

impl<'a> LawfulItem for CertReqInfo<'a> {
    ghost is_lawful_item = { is_lawful_item ⟦<CertReqInfo<'a> as Described>⟧.element refl };
}
