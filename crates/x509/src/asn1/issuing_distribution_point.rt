//! Written by asn1_compile from the module X509: change the module instead.
//!
//! IssuingDistributionPoint.
ghost use Rattle.std.specs.Prelude.{◌≡◌};
ghost use Rattle.std.proofs.Common.{refl};
ghost use Rattle.der.specs.Prelude.{map_ok};
ghost use Rattle.der_asn1.specs.Meaning.{alternative, defaulted, is_lawful_item, optional, sequence, sequence_item};
ghost use Rattle.der_asn1.specs.TupleFields.{six_fields};

use crate::asn1::distribution_point_name_tagged::DistributionPointNameTagged;
use crate::asn1::reason_flags::ReasonFlags;
use der::{
    Decode, DecodeValue, Encode, Error, FieldsCall, FromFields, HasFields, Header, IsValue, Lends,
    Reader, Sequence, SliceReader, decode_sequence, field_refs,
};
use der_asn1::{
    BooleanRef, DefaultValue, Defaulted, Described, Implicit, Item, LawfulItem, Optional,
};
use std::alloc::Global;

/// Which certificates and which reasons a revocation list covers (RFC 5280, 5.2.5), borrowed from
/// the input.
#[derive(Clone, Copy, Debug, Drop, PartialEq, Eq)]
pub struct IssuingDistributionPoint<'a> {
    /// Where the list is found, if present.
    pub distribution_point: Optional<Implicit<DistributionPointNameTagged<'a>, 0>>,
    /// Whether the list covers only certificates of end users. The default is false.
    pub only_contains_user_certs: Defaulted<Implicit<BooleanRef<'a>, 1>>,
    /// Whether the list covers only certificates of certification authorities. The default is
    /// false.
    pub only_contains_ca_certs: Defaulted<Implicit<BooleanRef<'a>, 2>>,
    /// The reasons for revocation that the list covers; if absent, the list covers all.
    pub only_some_reasons: Optional<Implicit<ReasonFlags<'a>, 3>>,
    /// Whether the list has entries for certificates of other issuers. The default is false.
    pub indirect_crl: Defaulted<Implicit<BooleanRef<'a>, 4>>,
    /// Whether the list covers only attribute certificates. The default is false.
    pub only_contains_attribute_certs: Defaulted<Implicit<BooleanRef<'a>, 5>>,
}

/// The fields of [`IssuingDistributionPoint`] as one type, in the order in which they are encoded.
pub type IssuingDistributionPointFields<'a> = (
    Optional<Implicit<DistributionPointNameTagged<'a>, 0>>,
    Defaulted<Implicit<BooleanRef<'a>, 1>>,
    Defaulted<Implicit<BooleanRef<'a>, 2>>,
    Optional<Implicit<ReasonFlags<'a>, 3>>,
    Defaulted<Implicit<BooleanRef<'a>, 4>>,
    Defaulted<Implicit<BooleanRef<'a>, 5>>,
);

impl<'a> FromFields<IssuingDistributionPointFields<'a>> for IssuingDistributionPoint<'a> {
    ghost fields = { λ v. (
      v.distribution_point,
      v.only_contains_user_certs,
      v.only_contains_ca_certs,
      v.only_some_reasons,
      v.indirect_crl,
      v.only_contains_attribute_certs,
    ) };

    fn from_fields(fields: IssuingDistributionPointFields<'a>) -> Self {
        let (
            distribution_point,
            only_contains_user_certs,
            only_contains_ca_certs,
            only_some_reasons,
            indirect_crl,
            only_contains_attribute_certs,
        ) = fields;
        IssuingDistributionPoint {
            distribution_point,
            only_contains_user_certs,
            only_contains_ca_certs,
            only_some_reasons,
            indirect_crl,
            only_contains_attribute_certs,
        }
    }
}

impl<'a> Sequence for IssuingDistributionPoint<'a> {
    ghost meaning = { sequence (six_fields (optional (alternative
        ⟦<Implicit<DistributionPointNameTagged<'a>, 0> as Described>⟧.element)) (defaulted
        ⟦<Implicit<BooleanRef<'a>, 1> as DefaultValue>⟧.is_default (alternative
        ⟦<Implicit<BooleanRef<'a>, 1> as Described>⟧.element)) (defaulted
        ⟦<Implicit<BooleanRef<'a>, 2> as DefaultValue>⟧.is_default (alternative
        ⟦<Implicit<BooleanRef<'a>, 2> as Described>⟧.element)) (optional (alternative
        ⟦<Implicit<ReasonFlags<'a>, 3> as Described>⟧.element)) (defaulted
        ⟦<Implicit<BooleanRef<'a>, 4> as DefaultValue>⟧.is_default (alternative
        ⟦<Implicit<BooleanRef<'a>, 4> as Described>⟧.element)) (defaulted
        ⟦<Implicit<BooleanRef<'a>, 5> as DefaultValue>⟧.is_default (alternative
        ⟦<Implicit<BooleanRef<'a>, 5> as Described>⟧.element)))
        ⟦<IssuingDistributionPoint<'a> as FromFields<IssuingDistributionPointFields<'a>>>⟧.fields };

    ghost fits = { (refl, refl) };
}

/// Decodes the fields, first to last. The errors are those that [`Sequence`] lists.
impl<'a, R: Lends<Borrowed = &'a [u8]>> DecodeValue<R> for IssuingDistributionPoint<'a> {
    type Error = Error;

    ghost decode_value_answers = { λ h s result t.
        ⟦<IssuingDistributionPointFields<'a> as Decode<SliceReader<'a>>>⟧.decode_answers s (map_ok
        ⟦<IssuingDistributionPoint<'a> as FromFields<IssuingDistributionPointFields<'a>>>⟧.fields result) t };

    fn decode_value(alloc: Global, reader: &mut R, header: Header) -> Result<Self, Error>
    where
        R: Reader,
    {
        decode_sequence::<R, IssuingDistributionPointFields<'a>, Self>(alloc, reader, header)
    }
}

impl<'a> IsValue for IssuingDistributionPoint<'a> {
    fn is_value(&self) {
        if let Some(value) = &self.distribution_point.0 {
            value.is_value();
        }
        self.only_contains_user_certs.0.is_value();
        self.only_contains_ca_certs.0.is_value();
        if let Some(value) = &self.only_some_reasons.0 {
            value.is_value();
        }
        self.indirect_crl.0.is_value();
        self.only_contains_attribute_certs.0.is_value();
    }
}

/// Writes the fields, first to last. The errors are those that [`Sequence`] lists.
impl<'a> HasFields for IssuingDistributionPoint<'a> {
    ghost fields_size = { λ v. ⟦<IssuingDistributionPointFields<'a> as Encode>⟧.size
        (⟦<IssuingDistributionPoint<'a> as FromFields<IssuingDistributionPointFields<'a>>>⟧.fields v) };

    ghost fields_answers = { λ v. ⟦<IssuingDistributionPointFields<'a> as Encode>⟧.encode_answers
        (⟦<IssuingDistributionPoint<'a> as FromFields<IssuingDistributionPointFields<'a>>>⟧.fields v) };

    fn call_fields<S, C: FieldsCall<S>>(
        &self,
        call: &C,
        state: &mut S,
        buf: &mut [u8],
    ) -> C::Output {
        call.call(
            &field_refs!(
                self,
                (
                    distribution_point,
                    only_contains_user_certs,
                    only_contains_ca_certs,
                    only_some_reasons,
                    indirect_crl,
                    only_contains_attribute_certs
                )
            ),
            state,
            buf,
        )
    }
}

impl<'a> Item for IssuingDistributionPoint<'a> {
    ghost item = { sequence_item ⟦<IssuingDistributionPoint<'a> as Described>⟧.element };
}

impl<'a> LawfulItem for IssuingDistributionPoint<'a> {
    ghost is_lawful_item = { is_lawful_item
        ⟦<IssuingDistributionPoint<'a> as Described>⟧.element refl };
}
