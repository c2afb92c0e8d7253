//! Written by asn1_compile from the module PKCS-1: change the module instead.
//!
//! RsaPublicKey.
ghost use Rattle.std.specs.Prelude.{◌≡◌};
ghost use Rattle.std.proofs.Common.{refl};
ghost use Rattle.der.specs.Prelude.{map_ok};
ghost use Rattle.der_asn1.specs.Meaning.{alternative, field, is_lawful_item, sequence, sequence_item, two_fields};

use der::{
    Decode, DecodeValue, Encode, Error, FieldsCall, FromFields, HasFields, Header, IsValue, Lends,
    Reader, Sequence, SliceReader, decode_sequence, field_refs,
};
use der_asn1::{Described, IntRef, Item, LawfulItem};
use std::alloc::Global;

/// A public RSA key (RFC 8017, A.1.1), borrowed from the input.
#[derive(Clone, Copy, Debug, Drop, PartialEq, Eq)]
pub struct RsaPublicKey<'a> {
    /// The modulus n.
    pub modulus: IntRef<'a>,
    /// The public exponent e.
    pub public_exponent: IntRef<'a>,
}

/// The fields of [`RsaPublicKey`] as one type, in the order in which they are encoded.
pub type RsaPublicKeyFields<'a> = (IntRef<'a>, IntRef<'a>);

impl<'a> FromFields<RsaPublicKeyFields<'a>> for RsaPublicKey<'a> {
    ghost fields = { λ v. (v.modulus, v.public_exponent) };

    fn from_fields(fields: RsaPublicKeyFields<'a>) -> Self {
        let (modulus, public_exponent) = fields;
        RsaPublicKey {
            modulus,
            public_exponent,
        }
    }
}

impl<'a> Sequence for RsaPublicKey<'a> {
    ghost meaning = { sequence (two_fields (field (alternative ⟦<IntRef<'a> as Described>⟧.element))
        (field (alternative ⟦<IntRef<'a> as Described>⟧.element)))
        ⟦<RsaPublicKey<'a> as FromFields<RsaPublicKeyFields<'a>>>⟧.fields };

    ghost fits = { (refl, refl) };
}

/// Decodes the fields, first to last. The errors are those that [`Sequence`] lists.
impl<'a, R: Lends<Borrowed = &'a [u8]>> DecodeValue<R> for RsaPublicKey<'a> {
    type Error = Error;

    ghost decode_value_answers = { λ h s result t.
        ⟦<RsaPublicKeyFields<'a> as Decode<SliceReader<'a>>>⟧.decode_answers s (map_ok
        ⟦<RsaPublicKey<'a> as FromFields<RsaPublicKeyFields<'a>>>⟧.fields result) t };

    fn decode_value(alloc: Global, reader: &mut R, header: Header) -> Result<Self, Error>
    where
        R: Reader,
    {
        decode_sequence::<R, RsaPublicKeyFields<'a>, Self>(alloc, reader, header)
    }
}

impl<'a> IsValue for RsaPublicKey<'a> {
    fn is_value(&self) {
        self.modulus.is_value();
        self.public_exponent.is_value();
    }
}

/// Writes the fields, first to last. The errors are those that [`Sequence`] lists.
impl<'a> HasFields for RsaPublicKey<'a> {
    ghost fields_size = { λ v. ⟦<RsaPublicKeyFields<'a> as Encode>⟧.size
        (⟦<RsaPublicKey<'a> as FromFields<RsaPublicKeyFields<'a>>>⟧.fields v) };

    ghost fields_answers = { λ v. ⟦<RsaPublicKeyFields<'a> as Encode>⟧.encode_answers
        (⟦<RsaPublicKey<'a> as FromFields<RsaPublicKeyFields<'a>>>⟧.fields v) };

    fn call_fields<S, C: FieldsCall<S>>(
        &self,
        call: &C,
        state: &mut S,
        buf: &mut [u8],
    ) -> C::Output {
        call.call(&field_refs!(self, (modulus, public_exponent)), state, buf)
    }
}

impl<'a> Item for RsaPublicKey<'a> {
    ghost item = { sequence_item ⟦<RsaPublicKey<'a> as Described>⟧.element };
}

impl<'a> LawfulItem for RsaPublicKey<'a> {
    ghost is_lawful_item = { is_lawful_item ⟦<RsaPublicKey<'a> as Described>⟧.element refl };
}
