//! Written by asn1_compile from the module CMS: change the module instead.
//!
//! OriginatorInfo.
ghost use Rattle.std.specs.Prelude.{◌≡◌};
ghost use Rattle.std.proofs.Common.{refl};
ghost use Rattle.der.specs.Prelude.{map_ok};
ghost use Rattle.der_asn1.specs.Meaning.{alternative, is_lawful_item, optional, sequence, sequence_item, two_fields};

use crate::asn1::certificate_set::CertificateSet;
use crate::asn1::revocation_info_choices::RevocationInfoChoices;
use der::{
    Decode, DecodeValue, Encode, Error, FieldsCall, FromFields, HasFields, Header, IsValue, Lends,
    Reader, Sequence, SliceReader, decode_sequence, field_refs,
};
use der_asn1::{Described, Implicit, Item, LawfulItem, Optional};
use std::alloc::Global;

/// Certificates of the originator of a message, and information about revoked certificates (RFC
/// 5652, 6.1), borrowed from the input.
#[derive(Clone, Copy, Debug, Drop, PartialEq, Eq)]
pub struct OriginatorInfo<'a> {
    /// The certificates, if present.
    pub certs: Optional<Implicit<CertificateSet<'a>, 0>>,
    /// The information about revoked certificates, if present.
    pub crls: Optional<Implicit<RevocationInfoChoices<'a>, 1>>,
}

/// The fields of [`OriginatorInfo`] as one type, in the order in which they are encoded.
pub type OriginatorInfoFields<'a> = (
    Optional<Implicit<CertificateSet<'a>, 0>>,
    Optional<Implicit<RevocationInfoChoices<'a>, 1>>,
);

impl<'a> FromFields<OriginatorInfoFields<'a>> for OriginatorInfo<'a> {
    ghost fields = { λ v. (v.certs, v.crls) };

    fn from_fields(fields: OriginatorInfoFields<'a>) -> Self {
        let (certs, crls) = fields;
        OriginatorInfo { certs, crls }
    }
}

impl<'a> Sequence for OriginatorInfo<'a> {
    ghost meaning = { sequence (two_fields (optional (alternative
        ⟦<Implicit<CertificateSet<'a>, 0> as Described>⟧.element)) (optional (alternative
        ⟦<Implicit<RevocationInfoChoices<'a>, 1> as Described>⟧.element)))
        ⟦<OriginatorInfo<'a> as FromFields<OriginatorInfoFields<'a>>>⟧.fields };

    ghost fits = { (refl, refl) };
}

/// Decodes the fields, first to last. The errors are those that [`Sequence`] lists.
impl<'a, R: Lends<Borrowed = &'a [u8]>> DecodeValue<R> for OriginatorInfo<'a> {
    type Error = Error;

    ghost decode_value_answers = { λ h s result t.
        ⟦<OriginatorInfoFields<'a> as Decode<SliceReader<'a>>>⟧.decode_answers s (map_ok
        ⟦<OriginatorInfo<'a> as FromFields<OriginatorInfoFields<'a>>>⟧.fields result) t };

    fn decode_value(alloc: Global, reader: &mut R, header: Header) -> Result<Self, Error>
    where
        R: Reader,
    {
        decode_sequence::<R, OriginatorInfoFields<'a>, Self>(alloc, reader, header)
    }
}

impl<'a> IsValue for OriginatorInfo<'a> {
    fn is_value(&self) {
        if let Some(value) = &self.certs.0 {
            value.is_value();
        }
        if let Some(value) = &self.crls.0 {
            value.is_value();
        }
    }
}

/// Writes the fields, first to last. The errors are those that [`Sequence`] lists.
impl<'a> HasFields for OriginatorInfo<'a> {
    ghost fields_size = { λ v. ⟦<OriginatorInfoFields<'a> as Encode>⟧.size
        (⟦<OriginatorInfo<'a> as FromFields<OriginatorInfoFields<'a>>>⟧.fields v) };

    ghost fields_answers = { λ v. ⟦<OriginatorInfoFields<'a> as Encode>⟧.encode_answers
        (⟦<OriginatorInfo<'a> as FromFields<OriginatorInfoFields<'a>>>⟧.fields v) };

    fn call_fields<S, C: FieldsCall<S>>(
        &self,
        call: &C,
        state: &mut S,
        buf: &mut [u8],
    ) -> C::Output {
        call.call(&field_refs!(self, (certs, crls)), state, buf)
    }
}

impl<'a> Item for OriginatorInfo<'a> {
    ghost item = { sequence_item ⟦<OriginatorInfo<'a> as Described>⟧.element };
}

impl<'a> LawfulItem for OriginatorInfo<'a> {
    ghost is_lawful_item = { is_lawful_item ⟦<OriginatorInfo<'a> as Described>⟧.element refl };
}
