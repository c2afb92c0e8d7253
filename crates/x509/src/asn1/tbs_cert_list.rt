//! Written by asn1_compile from the module X509: change the module instead.
//!
//! TbsCertList.
ghost use Rattle.std.specs.Prelude.{◌≡◌};
ghost use Rattle.std.proofs.Common.{refl};
ghost use Rattle.der.specs.Prelude.{map_ok};
ghost use Rattle.der_asn1.specs.Meaning.{alternative, field, is_lawful_item, optional, sequence, sequence_item};
ghost use Rattle.der_asn1.specs.TupleFields.{seven_fields};

use crate::Version;
use crate::asn1::extensions::Extensions;
use crate::asn1::name::Name;
use crate::asn1::revoked_certificates::RevokedCertificates;
use crate::asn1::time::Time;
use der::{
    Decode, DecodeValue, Encode, Error, FieldsCall, FromFields, HasFields, Header, IsValue, Lends,
    Reader, Sequence, SliceReader, decode_sequence, field_refs,
};
use der_asn1::{Described, DescribedChoice, Explicit, Item, LawfulItem, Optional};
use spki::AlgorithmIdentifierRef;
use std::alloc::Global;

/// The part of a revocation list that its signature covers (RFC 5280, 5.1.2), borrowed from the
/// input.
#[derive(Clone, Copy, Debug, Drop, PartialEq, Eq)]
pub struct TbsCertList<'a> {
    /// The version of the list, if present. The RFC allows only version 2, but decoding also
    /// accepts 1 and 3.
    pub version: Optional<Version<'a>>,
    /// The algorithm of the list's signature. The signature itself is a field of the
    /// CertificateList.
    pub signature: AlgorithmIdentifierRef<'a>,
    /// The issuer of the list.
    pub issuer: Name<'a>,
    /// When the list was issued.
    pub this_update: Time,
    /// When the next list will be issued, if present.
    pub next_update: Optional<Time>,
    /// The entries, if there are any. That the list is not empty is not checked.
    pub revoked_certificates: Optional<RevokedCertificates<'a>>,
    /// The extensions of the list, if present. Only version 2 allows them, but decoding does not
    /// check this.
    pub crl_extensions: Optional<Explicit<Extensions<'a>, 0>>,
}

/// The fields of [`TbsCertList`] as one type, in the order in which they are encoded.
pub type TbsCertListFields<'a> = (
    Optional<Version<'a>>,
    AlgorithmIdentifierRef<'a>,
    Name<'a>,
    Time,
    Optional<Time>,
    Optional<RevokedCertificates<'a>>,
    Optional<Explicit<Extensions<'a>, 0>>,
);

impl<'a> FromFields<TbsCertListFields<'a>> for TbsCertList<'a> {
    ghost fields = { λ v. (
      v.version,
      v.signature,
      v.issuer,
      v.this_update,
      v.next_update,
      v.revoked_certificates,
      v.crl_extensions,
    ) };

    fn from_fields(fields: TbsCertListFields<'a>) -> Self {
        let (
            version,
            signature,
            issuer,
            this_update,
            next_update,
            revoked_certificates,
            crl_extensions,
        ) = fields;
        TbsCertList {
            version,
            signature,
            issuer,
            this_update,
            next_update,
            revoked_certificates,
            crl_extensions,
        }
    }
}

impl<'a> Sequence for TbsCertList<'a> {
    ghost meaning = { sequence (seven_fields (optional (alternative
        ⟦<Version<'a> as Described>⟧.element)) (field (alternative
        ⟦<AlgorithmIdentifierRef<'a> as Described>⟧.element)) (field (alternative
        ⟦<Name<'a> as Described>⟧.element)) (field ⟦<Time as DescribedChoice>⟧.alternative)
        (optional ⟦<Time as DescribedChoice>⟧.alternative) (optional (alternative
        ⟦<RevokedCertificates<'a> as Described>⟧.element)) (optional (alternative
        ⟦<Explicit<Extensions<'a>, 0> as Described>⟧.element)))
        ⟦<TbsCertList<'a> as FromFields<TbsCertListFields<'a>>>⟧.fields };

    ghost fits = { (refl, refl) };
}

/// Decodes the fields, first to last. The errors are those that [`Sequence`] lists.
impl<'a, R: Lends<Borrowed = &'a [u8]>> DecodeValue<R> for TbsCertList<'a> {
    type Error = Error;

    ghost decode_value_answers = { λ h s result t.
        ⟦<TbsCertListFields<'a> as Decode<SliceReader<'a>>>⟧.decode_answers s (map_ok
        ⟦<TbsCertList<'a> as FromFields<TbsCertListFields<'a>>>⟧.fields result) t };

    fn decode_value(alloc: Global, reader: &mut R, header: Header) -> Result<Self, Error>
    where
        R: Reader,
    {
        decode_sequence::<R, TbsCertListFields<'a>, Self>(alloc, reader, header)
    }
}

impl<'a> IsValue for TbsCertList<'a> {
    fn is_value(&self) {
        if let Some(value) = &self.version.0 {
            value.is_value();
        }
        self.signature.is_value();
        self.issuer.is_value();
        match &self.this_update {
            Time::UtcTime(value) => value.is_value(),
            Time::GeneralTime(value) => value.is_value(),
        }
        if let Some(value) = &self.next_update.0 {
            match value {
                Time::UtcTime(value) => value.is_value(),
                Time::GeneralTime(value) => value.is_value(),
            }
        }
        if let Some(value) = &self.revoked_certificates.0 {
            value.is_value();
        }
        if let Some(value) = &self.crl_extensions.0 {
            value.is_value();
        }
    }
}

/// Writes the fields, first to last. The errors are those that [`Sequence`] lists.
impl<'a> HasFields for TbsCertList<'a> {
    ghost fields_size = { λ v. ⟦<TbsCertListFields<'a> as Encode>⟧.size
        (⟦<TbsCertList<'a> as FromFields<TbsCertListFields<'a>>>⟧.fields v) };

    ghost fields_answers = { λ v. ⟦<TbsCertListFields<'a> as Encode>⟧.encode_answers
        (⟦<TbsCertList<'a> as FromFields<TbsCertListFields<'a>>>⟧.fields v) };

    fn call_fields<S, C: FieldsCall<S>>(
        &self,
        call: &C,
        state: &mut S,
        buf: &mut [u8],
    ) -> C::Output {
        call.call(
            &field_refs!(
                self,
                (
                    version,
                    signature,
                    issuer,
                    this_update,
                    next_update,
                    revoked_certificates,
                    crl_extensions
                )
            ),
            state,
            buf,
        )
    }
}

impl<'a> Item for TbsCertList<'a> {
    ghost item = { sequence_item ⟦<TbsCertList<'a> as Described>⟧.element };
}

impl<'a> LawfulItem for TbsCertList<'a> {
    ghost is_lawful_item = { is_lawful_item ⟦<TbsCertList<'a> as Described>⟧.element refl };
}
