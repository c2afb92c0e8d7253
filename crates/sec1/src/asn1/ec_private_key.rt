//! Written by asn1_compile from the module SEC1: change the module instead.
//!
//! EcPrivateKey.
ghost use Rattle.std.specs.Prelude.{◌≡◌};
ghost use Rattle.std.proofs.Common.{refl};
ghost use Rattle.der.specs.Prelude.{map_ok};
ghost use Rattle.der_asn1.specs.Meaning.{alternative, field, is_lawful_item, optional, sequence, sequence_item};
ghost use Rattle.der_asn1.specs.TupleFields.{four_fields};

use crate::asn1::ec_parameters_tagged::EcParametersTagged;
use der::{
    Decode, DecodeValue, Encode, Error, FieldsCall, FromFields, HasFields, Header, IsValue, Lends,
    Reader, Sequence, SliceReader, decode_sequence, field_refs,
};
use der_asn1::{
    BitStringRef, Described, Explicit, Implicit, IntRef, Item, LawfulItem, OctetStringRef, Optional,
};
use std::alloc::Global;

/// A private key of an elliptic curve (RFC 5915, 3), borrowed from the input.
#[derive(Clone, Copy, Debug, Drop, PartialEq, Eq)]
pub struct EcPrivateKey<'a> {
    /// The version, which should be 1. Decoding does not check this.
    pub version: IntRef<'a>,
    /// The octets of the private key. Their number is not checked.
    pub private_key: OctetStringRef<'a>,
    /// The curve, if present.
    pub parameters: Optional<Implicit<EcParametersTagged<'a>, 0>>,
    /// The public key, if present. Whether it belongs to the private key is not checked.
    pub public_key: Optional<Explicit<BitStringRef<'a>, 1>>,
}

/// The fields of [`EcPrivateKey`] as one type, in the order in which they are encoded.
pub type EcPrivateKeyFields<'a> = (
    IntRef<'a>,
    OctetStringRef<'a>,
    Optional<Implicit<EcParametersTagged<'a>, 0>>,
    Optional<Explicit<BitStringRef<'a>, 1>>,
);

impl<'a> FromFields<EcPrivateKeyFields<'a>> for EcPrivateKey<'a> {
    ghost fields = { λ v. (v.version, v.private_key, v.parameters, v.public_key) };

    fn from_fields(fields: EcPrivateKeyFields<'a>) -> Self {
        let (version, private_key, parameters, public_key) = fields;
        EcPrivateKey {
            version,
            private_key,
            parameters,
            public_key,
        }
    }
}

impl<'a> Sequence for EcPrivateKey<'a> {
    ghost meaning = { sequence (four_fields (field (alternative
        ⟦<IntRef<'a> as Described>⟧.element)) (field (alternative
        ⟦<OctetStringRef<'a> as Described>⟧.element)) (optional (alternative
        ⟦<Implicit<EcParametersTagged<'a>, 0> as Described>⟧.element)) (optional (alternative
        ⟦<Explicit<BitStringRef<'a>, 1> as Described>⟧.element)))
        ⟦<EcPrivateKey<'a> as FromFields<EcPrivateKeyFields<'a>>>⟧.fields };

    ghost fits = { (refl, refl) };
}

/// Decodes the fields, first to last. The errors are those that [`Sequence`] lists.
impl<'a, R: Lends<Borrowed = &'a [u8]>> DecodeValue<R> for EcPrivateKey<'a> {
    type Error = Error;

    ghost decode_value_answers = { λ h s result t.
        ⟦<EcPrivateKeyFields<'a> as Decode<SliceReader<'a>>>⟧.decode_answers s (map_ok
        ⟦<EcPrivateKey<'a> as FromFields<EcPrivateKeyFields<'a>>>⟧.fields result) t };

    fn decode_value(alloc: Global, reader: &mut R, header: Header) -> Result<Self, Error>
    where
        R: Reader,
    {
        decode_sequence::<R, EcPrivateKeyFields<'a>, Self>(alloc, reader, header)
    }
}

impl<'a> IsValue for EcPrivateKey<'a> {
    fn is_value(&self) {
        self.version.is_value();
        self.private_key.is_value();
        if let Some(value) = &self.parameters.0 {
            value.is_value();
        }
        if let Some(value) = &self.public_key.0 {
            value.is_value();
        }
    }
}

/// Writes the fields, first to last. The errors are those that [`Sequence`] lists.
impl<'a> HasFields for EcPrivateKey<'a> {
    ghost fields_size = { λ v. ⟦<EcPrivateKeyFields<'a> as Encode>⟧.size
        (⟦<EcPrivateKey<'a> as FromFields<EcPrivateKeyFields<'a>>>⟧.fields v) };

    ghost fields_answers = { λ v. ⟦<EcPrivateKeyFields<'a> as Encode>⟧.encode_answers
        (⟦<EcPrivateKey<'a> as FromFields<EcPrivateKeyFields<'a>>>⟧.fields v) };

    fn call_fields<S, C: FieldsCall<S>>(
        &self,
        call: &C,
        state: &mut S,
        buf: &mut [u8],
    ) -> C::Output {
        call.call(
            &field_refs!(self, (version, private_key, parameters, public_key)),
            state,
            buf,
        )
    }
}

impl<'a> Item for EcPrivateKey<'a> {
    ghost item = { sequence_item ⟦<EcPrivateKey<'a> as Described>⟧.element };
}

impl<'a> LawfulItem for EcPrivateKey<'a> {
    ghost is_lawful_item = { is_lawful_item ⟦<EcPrivateKey<'a> as Described>⟧.element refl };
}
