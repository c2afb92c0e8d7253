//! Written by asn1_compile from the module SEC1: change the module instead.
//!
//! SpecifiedEcDomain.
ghost use Rattle.std.specs.Prelude.{◌≡◌};
ghost use Rattle.std.proofs.Common.{refl};
ghost use Rattle.der.specs.Prelude.{map_ok};
ghost use Rattle.der_asn1.specs.Meaning.{alternative, field, is_lawful_item, optional, sequence, sequence_item};
ghost use Rattle.der_asn1.specs.TupleFields.{seven_fields};

use crate::asn1::curve::Curve;
use crate::asn1::ec_point::EcPoint;
use crate::asn1::field_id::FieldId;
use der::{
    Decode, DecodeValue, Encode, Error, FieldsCall, FromFields, HasFields, Header, IsValue, Lends,
    Reader, Sequence, SliceReader, decode_sequence, field_refs,
};
use der_asn1::{Described, IntRef, Item, LawfulItem, Optional};
use spki::AlgorithmIdentifierRef;
use std::alloc::Global;

/// An elliptic curve, specified by its numbers (SEC 1, C.2; RFC 3279, 2.3.5, where it is
/// ECParameters), borrowed from the input.
#[derive(Clone, Copy, Debug, Drop, PartialEq, Eq)]
pub struct SpecifiedEcDomain<'a> {
    /// The version, which should be 1, 2 or 3. Decoding does not check this.
    pub version: IntRef<'a>,
    /// The field over which the curve is defined.
    pub field_id: FieldId<'a>,
    /// The coefficients of the curve.
    pub curve: Curve<'a>,
    /// The base point.
    pub base: EcPoint<'a>,
    /// The order of the base point.
    pub order: IntRef<'a>,
    /// The cofactor, if present.
    pub cofactor: Optional<IntRef<'a>>,
    /// The hash algorithm by which the curve was made, if present.
    pub hash: Optional<AlgorithmIdentifierRef<'a>>,
}

/// The fields of [`SpecifiedEcDomain`] as one type, in the order in which they are encoded.
pub type SpecifiedEcDomainFields<'a> = (
    IntRef<'a>,
    FieldId<'a>,
    Curve<'a>,
    EcPoint<'a>,
    IntRef<'a>,
    Optional<IntRef<'a>>,
    Optional<AlgorithmIdentifierRef<'a>>,
);

impl<'a> FromFields<SpecifiedEcDomainFields<'a>> for SpecifiedEcDomain<'a> {
    ghost fields = { λ v. (v.version, v.field_id, v.curve, v.base, v.order, v.cofactor, v.hash) };

    fn from_fields(fields: SpecifiedEcDomainFields<'a>) -> Self {
        let (version, field_id, curve, base, order, cofactor, hash) = fields;
        SpecifiedEcDomain {
            version,
            field_id,
            curve,
            base,
            order,
            cofactor,
            hash,
        }
    }
}

impl<'a> Sequence for SpecifiedEcDomain<'a> {
    ghost meaning = { sequence (seven_fields (field (alternative
        ⟦<IntRef<'a> as Described>⟧.element)) (field (alternative
        ⟦<FieldId<'a> as Described>⟧.element)) (field (alternative
        ⟦<Curve<'a> as Described>⟧.element)) (field (alternative
        ⟦<EcPoint<'a> as Described>⟧.element)) (field (alternative
        ⟦<IntRef<'a> as Described>⟧.element)) (optional (alternative
        ⟦<IntRef<'a> as Described>⟧.element)) (optional (alternative
        ⟦<AlgorithmIdentifierRef<'a> as Described>⟧.element)))
        ⟦<SpecifiedEcDomain<'a> as FromFields<SpecifiedEcDomainFields<'a>>>⟧.fields };

    ghost fits = { (refl, refl) };
}

/// Decodes the fields, first to last. The errors are those that [`Sequence`] lists.
impl<'a, R: Lends<Borrowed = &'a [u8]>> DecodeValue<R> for SpecifiedEcDomain<'a> {
    type Error = Error;

    ghost decode_value_answers = { λ h s result t.
        ⟦<SpecifiedEcDomainFields<'a> as Decode<SliceReader<'a>>>⟧.decode_answers s (map_ok
        ⟦<SpecifiedEcDomain<'a> as FromFields<SpecifiedEcDomainFields<'a>>>⟧.fields result) t };

    fn decode_value(alloc: Global, reader: &mut R, header: Header) -> Result<Self, Error>
    where
        R: Reader,
    {
        decode_sequence::<R, SpecifiedEcDomainFields<'a>, Self>(alloc, reader, header)
    }
}

impl<'a> IsValue for SpecifiedEcDomain<'a> {
    fn is_value(&self) {
        self.version.is_value();
        self.field_id.is_value();
        self.curve.is_value();
        self.base.is_value();
        self.order.is_value();
        if let Some(value) = &self.cofactor.0 {
            value.is_value();
        }
        if let Some(value) = &self.hash.0 {
            value.is_value();
        }
    }
}

/// Writes the fields, first to last. The errors are those that [`Sequence`] lists.
impl<'a> HasFields for SpecifiedEcDomain<'a> {
    ghost fields_size = { λ v. ⟦<SpecifiedEcDomainFields<'a> as Encode>⟧.size
        (⟦<SpecifiedEcDomain<'a> as FromFields<SpecifiedEcDomainFields<'a>>>⟧.fields v) };

    ghost fields_answers = { λ v. ⟦<SpecifiedEcDomainFields<'a> as Encode>⟧.encode_answers
        (⟦<SpecifiedEcDomain<'a> as FromFields<SpecifiedEcDomainFields<'a>>>⟧.fields v) };

    fn call_fields<S, C: FieldsCall<S>>(
        &self,
        call: &C,
        state: &mut S,
        buf: &mut [u8],
    ) -> C::Output {
        call.call(
            &field_refs!(
                self,
                (version, field_id, curve, base, order, cofactor, hash)
            ),
            state,
            buf,
        )
    }
}

impl<'a> Item for SpecifiedEcDomain<'a> {
    ghost item = { sequence_item ⟦<SpecifiedEcDomain<'a> as Described>⟧.element };
}

impl<'a> LawfulItem for SpecifiedEcDomain<'a> {
    ghost is_lawful_item = { is_lawful_item ⟦<SpecifiedEcDomain<'a> as Described>⟧.element refl };
}
