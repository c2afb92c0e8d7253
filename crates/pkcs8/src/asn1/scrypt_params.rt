//! Written by asn1_compile from the module PrivateKeys: change the module instead.
//!
//! ScryptParams.
ghost use Rattle.std.specs.Prelude.{◌≡◌};
ghost use Rattle.std.proofs.Common.{refl};
ghost use Rattle.der.specs.Prelude.{map_ok};
ghost use Rattle.der_asn1.specs.Meaning.{alternative, field, is_lawful_item, optional, sequence, sequence_item};
ghost use Rattle.der_asn1.specs.TupleFields.{five_fields};

use der::{
    Decode, DecodeValue, Encode, Error, FieldsCall, FromFields, HasFields, Header, IsValue, Lends,
    Reader, Sequence, SliceReader, decode_sequence, field_refs,
};
use der_asn1::{Described, IntRef, Item, LawfulItem, OctetStringRef, Optional};
use std::alloc::Global;

/// The parameters of scrypt (RFC 7914, 7), borrowed from the input. The RFC requires that the
/// numbers are positive, which decoding does not check.
#[derive(Clone, Copy, Debug, Drop, PartialEq, Eq)]
pub struct ScryptParams<'a> {
    /// The salt of the key derivation.
    pub salt: OctetStringRef<'a>,
    /// The cost parameter N, which determines the memory and the time that scrypt needs.
    pub cost_parameter: IntRef<'a>,
    /// The block size r.
    pub block_size: IntRef<'a>,
    /// The parallelization p.
    pub parallelization: IntRef<'a>,
    /// The number of octets of the derived key, if present.
    pub key_length: Optional<IntRef<'a>>,
}

/// The fields of [`ScryptParams`] as one type, in the order in which they are encoded.
pub type ScryptParamsFields<'a> = (
    OctetStringRef<'a>,
    IntRef<'a>,
    IntRef<'a>,
    IntRef<'a>,
    Optional<IntRef<'a>>,
);

impl<'a> FromFields<ScryptParamsFields<'a>> for ScryptParams<'a> {
    ghost fields = { λ v. (
      v.salt,
      v.cost_parameter,
      v.block_size,
      v.parallelization,
      v.key_length,
    ) };

    fn from_fields(fields: ScryptParamsFields<'a>) -> Self {
        let (salt, cost_parameter, block_size, parallelization, key_length) = fields;
        ScryptParams {
            salt,
            cost_parameter,
            block_size,
            parallelization,
            key_length,
        }
    }
}

impl<'a> Sequence for ScryptParams<'a> {
    ghost meaning = { sequence (five_fields (field (alternative
        ⟦<OctetStringRef<'a> as Described>⟧.element)) (field (alternative
        ⟦<IntRef<'a> as Described>⟧.element)) (field (alternative
        ⟦<IntRef<'a> as Described>⟧.element)) (field (alternative
        ⟦<IntRef<'a> as Described>⟧.element)) (optional (alternative
        ⟦<IntRef<'a> as Described>⟧.element)))
        ⟦<ScryptParams<'a> as FromFields<ScryptParamsFields<'a>>>⟧.fields };

    ghost fits = { (refl, refl) };
}

/// Decodes the fields, first to last. The errors are those that [`Sequence`] lists.
impl<'a, R: Lends<Borrowed = &'a [u8]>> DecodeValue<R> for ScryptParams<'a> {
    type Error = Error;

    ghost decode_value_answers = { λ h s result t.
        ⟦<ScryptParamsFields<'a> as Decode<SliceReader<'a>>>⟧.decode_answers s (map_ok
        ⟦<ScryptParams<'a> as FromFields<ScryptParamsFields<'a>>>⟧.fields result) t };

    fn decode_value(alloc: Global, reader: &mut R, header: Header) -> Result<Self, Error>
    where
        R: Reader,
    {
        decode_sequence::<R, ScryptParamsFields<'a>, Self>(alloc, reader, header)
    }
}

impl<'a> IsValue for ScryptParams<'a> {
    fn is_value(&self) {
        self.salt.is_value();
        self.cost_parameter.is_value();
        self.block_size.is_value();
        self.parallelization.is_value();
        if let Some(value) = &self.key_length.0 {
            value.is_value();
        }
    }
}

/// Writes the fields, first to last. The errors are those that [`Sequence`] lists.
impl<'a> HasFields for ScryptParams<'a> {
    ghost fields_size = { λ v. ⟦<ScryptParamsFields<'a> as Encode>⟧.size
        (⟦<ScryptParams<'a> as FromFields<ScryptParamsFields<'a>>>⟧.fields v) };

    ghost fields_answers = { λ v. ⟦<ScryptParamsFields<'a> as Encode>⟧.encode_answers
        (⟦<ScryptParams<'a> as FromFields<ScryptParamsFields<'a>>>⟧.fields v) };

    fn call_fields<S, C: FieldsCall<S>>(
        &self,
        call: &C,
        state: &mut S,
        buf: &mut [u8],
    ) -> C::Output {
        call.call(
            &field_refs!(
                self,
                (
                    salt,
                    cost_parameter,
                    block_size,
                    parallelization,
                    key_length
                )
            ),
            state,
            buf,
        )
    }
}

impl<'a> Item for ScryptParams<'a> {
    ghost item = { sequence_item ⟦<ScryptParams<'a> as Described>⟧.element };
}

impl<'a> LawfulItem for ScryptParams<'a> {
    ghost is_lawful_item = { is_lawful_item ⟦<ScryptParams<'a> as Described>⟧.element refl };
}
