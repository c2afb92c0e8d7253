//! Written by asn1_compile from the module X509: change the module instead.
//!
//! DistributionPoint.
ghost use Rattle.std.specs.Prelude.{◌≡◌};
ghost use Rattle.std.proofs.Common.{refl};
ghost use Rattle.der.specs.Prelude.{map_ok};
ghost use Rattle.der_asn1.specs.Meaning.{alternative, is_lawful_item, optional, sequence, sequence_item};
ghost use Rattle.der_asn1.specs.TupleFields.{three_fields};

use crate::asn1::distribution_point_name_tagged::DistributionPointNameTagged;
use crate::asn1::general_names::GeneralNames;
use crate::asn1::reason_flags::ReasonFlags;
use der::{
    Decode, DecodeValue, Encode, Error, FieldsCall, FromFields, HasFields, Header, IsValue, Lends,
    Reader, Sequence, SliceReader, decode_sequence, field_refs,
};
use der_asn1::{Described, Implicit, Item, LawfulItem, Optional};
use std::alloc::Global;

/// A place where a revocation list is found (RFC 5280, 4.2.1.13), borrowed from the input.
#[derive(Clone, Copy, Debug, Drop, PartialEq, Eq)]
pub struct DistributionPoint<'a> {
    /// The name of the place, if present. The RFC requires it or `crl_issuer`, but decoding does
    /// not check this.
    pub distribution_point: Optional<Implicit<DistributionPointNameTagged<'a>, 0>>,
    /// The reasons for revocation that the list covers; if absent, the list covers all.
    pub reasons: Optional<Implicit<ReasonFlags<'a>, 1>>,
    /// The issuer of the list, if it is not the issuer of the certificate.
    pub crl_issuer: Optional<Implicit<GeneralNames<'a>, 2>>,
}

/// The fields of [`DistributionPoint`] as one type, in the order in which they are encoded.
pub type DistributionPointFields<'a> = (
    Optional<Implicit<DistributionPointNameTagged<'a>, 0>>,
    Optional<Implicit<ReasonFlags<'a>, 1>>,
    Optional<Implicit<GeneralNames<'a>, 2>>,
);

impl<'a> FromFields<DistributionPointFields<'a>> for DistributionPoint<'a> {
    ghost fields = { λ v. (v.distribution_point, v.reasons, v.crl_issuer) };

    fn from_fields(fields: DistributionPointFields<'a>) -> Self {
        let (distribution_point, reasons, crl_issuer) = fields;
        DistributionPoint {
            distribution_point,
            reasons,
            crl_issuer,
        }
    }
}

impl<'a> Sequence for DistributionPoint<'a> {
    ghost meaning = { sequence (three_fields (optional (alternative
        ⟦<Implicit<DistributionPointNameTagged<'a>, 0> as Described>⟧.element)) (optional
        (alternative ⟦<Implicit<ReasonFlags<'a>, 1> as Described>⟧.element)) (optional (alternative
        ⟦<Implicit<GeneralNames<'a>, 2> as Described>⟧.element)))
        ⟦<DistributionPoint<'a> as FromFields<DistributionPointFields<'a>>>⟧.fields };

    ghost fits = { (refl, refl) };
}

/// Decodes the fields, first to last. The errors are those that [`Sequence`] lists.
impl<'a, R: Lends<Borrowed = &'a [u8]>> DecodeValue<R> for DistributionPoint<'a> {
    type Error = Error;

    ghost decode_value_answers = { λ h s result t.
        ⟦<DistributionPointFields<'a> as Decode<SliceReader<'a>>>⟧.decode_answers s (map_ok
        ⟦<DistributionPoint<'a> as FromFields<DistributionPointFields<'a>>>⟧.fields result) t };

    fn decode_value(alloc: Global, reader: &mut R, header: Header) -> Result<Self, Error>
    where
        R: Reader,
    {
        decode_sequence::<R, DistributionPointFields<'a>, Self>(alloc, reader, header)
    }
}

impl<'a> IsValue for DistributionPoint<'a> {
    fn is_value(&self) {
        if let Some(value) = &self.distribution_point.0 {
            value.is_value();
        }
        if let Some(value) = &self.reasons.0 {
            value.is_value();
        }
        if let Some(value) = &self.crl_issuer.0 {
            value.is_value();
        }
    }
}

/// Writes the fields, first to last. The errors are those that [`Sequence`] lists.
impl<'a> HasFields for DistributionPoint<'a> {
    ghost fields_size = { λ v. ⟦<DistributionPointFields<'a> as Encode>⟧.size
        (⟦<DistributionPoint<'a> as FromFields<DistributionPointFields<'a>>>⟧.fields v) };

    ghost fields_answers = { λ v. ⟦<DistributionPointFields<'a> as Encode>⟧.encode_answers
        (⟦<DistributionPoint<'a> as FromFields<DistributionPointFields<'a>>>⟧.fields v) };

    fn call_fields<S, C: FieldsCall<S>>(
        &self,
        call: &C,
        state: &mut S,
        buf: &mut [u8],
    ) -> C::Output {
        call.call(
            &field_refs!(self, (distribution_point, reasons, crl_issuer)),
            state,
            buf,
        )
    }
}

impl<'a> Item for DistributionPoint<'a> {
    ghost item = { sequence_item ⟦<DistributionPoint<'a> as Described>⟧.element };
}

impl<'a> LawfulItem for DistributionPoint<'a> {
    ghost is_lawful_item = { is_lawful_item ⟦<DistributionPoint<'a> as Described>⟧.element refl };
}
