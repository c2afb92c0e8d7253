//! Written by asn1_compile from the module PKCS-1: change the module instead.
//!
//! RsaPrivateKey.
ghost use Rattle.std.specs.Prelude.{◌≡◌};
ghost use Rattle.std.proofs.Common.{refl};
ghost use Rattle.der.specs.Prelude.{map_ok};
ghost use Rattle.der_asn1.specs.Meaning.{alternative, field, is_lawful_item, optional, sequence, sequence_item};
ghost use Rattle.der_asn1.specs.TupleFields.{ten_fields};

use crate::asn1::other_prime_infos::OtherPrimeInfos;
use der::{
    Decode, DecodeValue, Encode, Error, FieldsCall, FromFields, HasFields, Header, IsValue, Lends,
    Reader, Sequence, SliceReader, decode_sequence, field_refs,
};
use der_asn1::{Described, IntRef, Item, LawfulItem, Optional};
use std::alloc::Global;

/// A private RSA key (RFC 8017, A.1.2), borrowed from the input. That the numbers belong together
/// is not checked.
#[derive(Clone, Copy, Debug, Drop, PartialEq, Eq)]
pub struct RsaPrivateKey<'a> {
    /// The version: 0 for a key with two primes, 1 for one with more. Decoding does not check this.
    pub version: IntRef<'a>,
    /// The modulus n.
    pub modulus: IntRef<'a>,
    /// The public exponent e.
    pub public_exponent: IntRef<'a>,
    /// The private exponent d.
    pub private_exponent: IntRef<'a>,
    /// The prime factor p of n.
    pub prime1: IntRef<'a>,
    /// The prime factor q of n.
    pub prime2: IntRef<'a>,
    /// The exponent d mod (p - 1).
    pub exponent1: IntRef<'a>,
    /// The exponent d mod (q - 1).
    pub exponent2: IntRef<'a>,
    /// The coefficient: the inverse of q mod p.
    pub coefficient: IntRef<'a>,
    /// The other primes, if n has more than two. Decoding does not compare this with the version.
    pub other_prime_infos: Optional<OtherPrimeInfos<'a>>,
}

/// The fields of [`RsaPrivateKey`] as one type, in the order in which they are encoded.
pub type RsaPrivateKeyFields<'a> = (
    IntRef<'a>,
    IntRef<'a>,
    IntRef<'a>,
    IntRef<'a>,
    IntRef<'a>,
    IntRef<'a>,
    IntRef<'a>,
    IntRef<'a>,
    IntRef<'a>,
    Optional<OtherPrimeInfos<'a>>,
);

impl<'a> FromFields<RsaPrivateKeyFields<'a>> for RsaPrivateKey<'a> {
    ghost fields = { λ v. (
      v.version,
      v.modulus,
      v.public_exponent,
      v.private_exponent,
      v.prime1,
      v.prime2,
      v.exponent1,
      v.exponent2,
      v.coefficient,
      v.other_prime_infos,
    ) };

    fn from_fields(fields: RsaPrivateKeyFields<'a>) -> Self {
        let (
            version,
            modulus,
            public_exponent,
            private_exponent,
            prime1,
            prime2,
            exponent1,
            exponent2,
            coefficient,
            other_prime_infos,
        ) = fields;
        RsaPrivateKey {
            version,
            modulus,
            public_exponent,
            private_exponent,
            prime1,
            prime2,
            exponent1,
            exponent2,
            coefficient,
            other_prime_infos,
        }
    }
}

impl<'a> Sequence for RsaPrivateKey<'a> {
    ghost meaning = { sequence (ten_fields (field (alternative ⟦<IntRef<'a> as Described>⟧.element))
        (field (alternative ⟦<IntRef<'a> as Described>⟧.element)) (field (alternative
        ⟦<IntRef<'a> as Described>⟧.element)) (field (alternative
        ⟦<IntRef<'a> as Described>⟧.element)) (field (alternative
        ⟦<IntRef<'a> as Described>⟧.element)) (field (alternative
        ⟦<IntRef<'a> as Described>⟧.element)) (field (alternative
        ⟦<IntRef<'a> as Described>⟧.element)) (field (alternative
        ⟦<IntRef<'a> as Described>⟧.element)) (field (alternative
        ⟦<IntRef<'a> as Described>⟧.element)) (optional (alternative
        ⟦<OtherPrimeInfos<'a> as Described>⟧.element)))
        ⟦<RsaPrivateKey<'a> as FromFields<RsaPrivateKeyFields<'a>>>⟧.fields };

    ghost fits = { (refl, refl) };
}

/// Decodes the fields, first to last. The errors are those that [`Sequence`] lists.
impl<'a, R: Lends<Borrowed = &'a [u8]>> DecodeValue<R> for RsaPrivateKey<'a> {
    type Error = Error;

    ghost decode_value_answers = { λ h s result t.
        ⟦<RsaPrivateKeyFields<'a> as Decode<SliceReader<'a>>>⟧.decode_answers s (map_ok
        ⟦<RsaPrivateKey<'a> as FromFields<RsaPrivateKeyFields<'a>>>⟧.fields result) t };

    fn decode_value(alloc: Global, reader: &mut R, header: Header) -> Result<Self, Error>
    where
        R: Reader,
    {
        decode_sequence::<R, RsaPrivateKeyFields<'a>, Self>(alloc, reader, header)
    }
}

impl<'a> IsValue for RsaPrivateKey<'a> {
    fn is_value(&self) {
        self.version.is_value();
        self.modulus.is_value();
        self.public_exponent.is_value();
        self.private_exponent.is_value();
        self.prime1.is_value();
        self.prime2.is_value();
        self.exponent1.is_value();
        self.exponent2.is_value();
        self.coefficient.is_value();
        if let Some(value) = &self.other_prime_infos.0 {
            value.is_value();
        }
    }
}

/// Writes the fields, first to last. The errors are those that [`Sequence`] lists.
impl<'a> HasFields for RsaPrivateKey<'a> {
    ghost fields_size = { λ v. ⟦<RsaPrivateKeyFields<'a> as Encode>⟧.size
        (⟦<RsaPrivateKey<'a> as FromFields<RsaPrivateKeyFields<'a>>>⟧.fields v) };

    ghost fields_answers = { λ v. ⟦<RsaPrivateKeyFields<'a> as Encode>⟧.encode_answers
        (⟦<RsaPrivateKey<'a> as FromFields<RsaPrivateKeyFields<'a>>>⟧.fields v) };

    fn call_fields<S, C: FieldsCall<S>>(
        &self,
        call: &C,
        state: &mut S,
        buf: &mut [u8],
    ) -> C::Output {
        call.call(
            &field_refs!(
                self,
                (
                    version,
                    modulus,
                    public_exponent,
                    private_exponent,
                    prime1,
                    prime2,
                    exponent1,
                    exponent2,
                    coefficient,
                    other_prime_infos
                )
            ),
            state,
            buf,
        )
    }
}

impl<'a> Item for RsaPrivateKey<'a> {
    ghost item = { sequence_item ⟦<RsaPrivateKey<'a> as Described>⟧.element };
}

impl<'a> LawfulItem for RsaPrivateKey<'a> {
    ghost is_lawful_item = { is_lawful_item ⟦<RsaPrivateKey<'a> as Described>⟧.element refl };
}
