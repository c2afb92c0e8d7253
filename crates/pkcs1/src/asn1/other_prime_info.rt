//! Written by asn1_compile from the module PKCS-1: change the module instead.
//!
//! OtherPrimeInfo.
ghost use Rattle.std.specs.Prelude.{◌≡◌};
ghost use Rattle.std.proofs.Common.{refl};
ghost use Rattle.der.specs.Prelude.{map_ok};
ghost use Rattle.der_asn1.specs.Meaning.{alternative, field, is_lawful_item, sequence, sequence_item};
ghost use Rattle.der_asn1.specs.TupleFields.{three_fields};

use der::{
    Decode, DecodeValue, Encode, Error, FieldsCall, FromFields, HasFields, Header, IsValue, Lends,
    Reader, Sequence, SliceReader, decode_sequence, field_refs,
};
use der_asn1::{Described, IntRef, Item, LawfulItem};
use std::alloc::Global;

/// A prime of a private key after the first two (RFC 8017, A.1.2), borrowed from the input.
#[derive(Clone, Copy, Debug, Drop, PartialEq, Eq)]
pub struct OtherPrimeInfo<'a> {
    /// The prime factor of n.
    pub prime: IntRef<'a>,
    /// The exponent: d mod (prime - 1).
    pub exponent: IntRef<'a>,
    /// The coefficient: the inverse of the product of all primes before this one, modulo this
    /// prime.
    pub coefficient: IntRef<'a>,
}

/// The fields of [`OtherPrimeInfo`] as one type, in the order in which they are encoded.
pub type OtherPrimeInfoFields<'a> = (IntRef<'a>, IntRef<'a>, IntRef<'a>);

impl<'a> FromFields<OtherPrimeInfoFields<'a>> for OtherPrimeInfo<'a> {
    ghost fields = { λ v. (v.prime, v.exponent, v.coefficient) };

    fn from_fields(fields: OtherPrimeInfoFields<'a>) -> Self {
        let (prime, exponent, coefficient) = fields;
        OtherPrimeInfo {
            prime,
            exponent,
            coefficient,
        }
    }
}

impl<'a> Sequence for OtherPrimeInfo<'a> {
    ghost meaning = { sequence (three_fields (field (alternative
        ⟦<IntRef<'a> as Described>⟧.element)) (field (alternative
        ⟦<IntRef<'a> as Described>⟧.element)) (field (alternative
        ⟦<IntRef<'a> as Described>⟧.element)))
        ⟦<OtherPrimeInfo<'a> as FromFields<OtherPrimeInfoFields<'a>>>⟧.fields };

    ghost fits = { (refl, refl) };
}

/// Decodes the fields, first to last. The errors are those that [`Sequence`] lists.
impl<'a, R: Lends<Borrowed = &'a [u8]>> DecodeValue<R> for OtherPrimeInfo<'a> {
    type Error = Error;

    ghost decode_value_answers = { λ h s result t.
        ⟦<OtherPrimeInfoFields<'a> as Decode<SliceReader<'a>>>⟧.decode_answers s (map_ok
        ⟦<OtherPrimeInfo<'a> as FromFields<OtherPrimeInfoFields<'a>>>⟧.fields result) t };

    fn decode_value(alloc: Global, reader: &mut R, header: Header) -> Result<Self, Error>
    where
        R: Reader,
    {
        decode_sequence::<R, OtherPrimeInfoFields<'a>, Self>(alloc, reader, header)
    }
}

impl<'a> IsValue for OtherPrimeInfo<'a> {
    fn is_value(&self) {
        self.prime.is_value();
        self.exponent.is_value();
        self.coefficient.is_value();
    }
}

/// Writes the fields, first to last. The errors are those that [`Sequence`] lists.
impl<'a> HasFields for OtherPrimeInfo<'a> {
    ghost fields_size = { λ v. ⟦<OtherPrimeInfoFields<'a> as Encode>⟧.size
        (⟦<OtherPrimeInfo<'a> as FromFields<OtherPrimeInfoFields<'a>>>⟧.fields v) };

    ghost fields_answers = { λ v. ⟦<OtherPrimeInfoFields<'a> as Encode>⟧.encode_answers
        (⟦<OtherPrimeInfo<'a> as FromFields<OtherPrimeInfoFields<'a>>>⟧.fields v) };

    fn call_fields<S, C: FieldsCall<S>>(
        &self,
        call: &C,
        state: &mut S,
        buf: &mut [u8],
    ) -> C::Output {
        call.call(
            &field_refs!(self, (prime, exponent, coefficient)),
            state,
            buf,
        )
    }
}

impl<'a> Item for OtherPrimeInfo<'a> {
    ghost item = { sequence_item ⟦<OtherPrimeInfo<'a> as Described>⟧.element };
}

impl<'a> LawfulItem for OtherPrimeInfo<'a> {
    ghost is_lawful_item = { is_lawful_item ⟦<OtherPrimeInfo<'a> as Described>⟧.element refl };
}
